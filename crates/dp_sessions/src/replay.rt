//! The top call of `replay`.
ghost use Rattle.std.specs.Prelude.{◌≡◌, ℕ, List, codes, map, string_bytes};
ghost use Rattle.dp_io.specs.Shown.{reading, writing};
ghost use Rattle.dp_words.specs.Plants.{HasPlant, NamesNoFile};
ghost use Rattle.dp_sessions.specs.Sessions.{EndsSession, passed, recorded};
ghost use Rattle.dp_sessions.specs.Votes.{EndsReplay, HaveNoPlant, RefusesForm};

use crate::session::session;
use dp_io::{Sink, Source};
use dp_words::{RunStatus, WordsFault, form_of, plant_from, tell};
use std::alloc::Global;

/// A session over recorded telegrams, of the plant that the word names, without a word to the error output.
pub fn replay<A: Source, B: Source, O: Sink>(
    alloc: Global,
    word: &str,
    first: &mut A,
    telegrams: &mut B,
    out: &mut O,
) -> RunStatus
    ensures session { (words : List (List ℕ)) → HasPlant words word.now
        → EndsSession words result
        (recorded (passed B.Source telegrams.old telegrams.new)
        (writing O.Sink out.old out.new))
        (reading A.Source first.old first.new) (writing O.Sink out.old out.new) }
    ensures unread { word.now ≡ codes "demo" → first.new ≡ first.old }
{
    let plant = match plant_from(alloc, word, first) {
        Ok(plant) => plant,
        Err(status) => return status,
    };
    match session(alloc, plant, telegrams, out) {
        Ok(ended) => ended.status(),
        Err(status) => status,
    }
}

/// What the words ask for, without a word to the error output. Words of a form that has no plant are refused.
fn replay_words<A: Source, B: Source, O: Sink>(
    alloc: Global,
    words: &[String],
    first: &mut A,
    telegrams: &mut B,
    out: &mut O,
) -> RunStatus
    ensures session { ¬ HaveNoPlant (map string_bytes words.now)
        → EndsSession (map string_bytes words.now) result
        (recorded (passed B.Source telegrams.old telegrams.new)
        (writing O.Sink out.old out.new))
        (reading A.Source first.old first.new) (writing O.Sink out.old out.new) }
    ensures refused { HaveNoPlant (map string_bytes words.now)
        → RefusesForm result (passed A.Source first.old first.new)
        (passed B.Source telegrams.old telegrams.new) (writing O.Sink out.old out.new) }
    ensures unread { NamesNoFile (map string_bytes words.now) → first.new ≡ first.old }
{
    let form = match form_of(words) {
        Ok(form) => form,
        Err(kind) => return RunStatus::Usage(kind),
    };
    match form.plant() {
        Some(plant) => replay(alloc, words[plant].as_str(), first, telegrams, out),
        None => RunStatus::Usage(WordsFault::OtherWords.number()),
    }
}

/// Runs the session that the words `replay PLANT TELEGRAMS` ask for, over the telegrams of the second source.
///
/// Where the words have that form, there is a plant and nothing fails, `out` takes the frames of the session's commands
/// as they are answered, and then the log of its history and its report. The status says what failed else, and `err`
/// takes its line. The first source is that of the plant file, which isn't read where the plant is the built-in one.
/// Words that ask for a vote or a drill have no plant: they are refused as faulty words.
pub fn replay_call<A: Source, B: Source, O: Sink, E: Sink>(
    alloc: Global,
    words: &[String],
    first: &mut A,
    second: &mut B,
    out: &mut O,
    err: &mut E,
) -> RunStatus
    ensures { EndsReplay (map string_bytes words.now) result
        (passed A.Source first.old first.new) (passed B.Source second.old second.new)
        (writing O.Sink out.old out.new) (writing E.Sink err.old err.new) }
{
    let status = replay_words(alloc, words, first, second, out);
    tell(&status, err);
    status
}
