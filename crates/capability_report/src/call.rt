//! The top call of `capability`.
ghost use Rattle.std.specs.Prelude.{◌≡◌, ℕ, List, codes, map, string_bytes, true};
ghost use Rattle.plant_model.specs.Versions.{IsDemand};
ghost use Rattle.dp_io.specs.Shown.{reading, writing};
ghost use Rattle.dp_words.specs.Plants.{NamesNoFile};
ghost use Rattle.capability_report.specs.Calls.{AsksCapability, EndsCapability, EndsCapabilityCall};
ghost use Rattle.capability_report.specs.Calls.{names_capability};

use crate::writing::write_capability;
use dp_io::{Sink, Source};
use dp_words::{Form, RunStatus, WordsFault, form_of, plant_from, tell};
use plant_model::wrench::Wrench;
use std::alloc::Global;

/// Whether the first word names the command.
pub fn names_capability(words: &[String]) -> bool
    ensures { result ≡ names_capability (map string_bytes words.now) }
{
    match words.split_first() {
        Some((command, _)) => command.as_str() == "capability",
        None => false,
    }
}

/// The capability of the plant that the word names for the demand, which is within its limits, without a word to the
/// error output.
fn capability<A: Source, O: Sink>(
    alloc: Global,
    word: &str,
    demand: Wrench,
    first: &mut A,
    out: &mut O,
) -> RunStatus
    requires { IsDemand demand }
    ensures ends { (words : List (List ℕ)) → AsksCapability words word.now demand
        → EndsCapability words result (reading A.Source first.old first.new)
        (writing O.Sink out.old out.new) }
    ensures unread { word.now ≡ codes "demo" → first.new ≡ first.old }
{
    let plant = match plant_from(alloc, word, first) {
        Ok(plant) => plant,
        Err(status) => return status,
    };
    match write_capability(alloc, &plant, demand, out) {
        Ok(true) => RunStatus::LossFound,
        Ok(false) => RunStatus::Clear,
        Err(status) => status,
    }
}

/// What the words ask for, without a word to the error output. The first word names the command.
fn capability_of_words<A: Source, O: Sink>(
    alloc: Global,
    words: &[String],
    first: &mut A,
    out: &mut O,
) -> RunStatus
    requires { names_capability (map string_bytes words.now) ≡ true }
    ensures ends { EndsCapability (map string_bytes words.now) result
        (reading A.Source first.old first.new) (writing O.Sink out.old out.new) }
    ensures unread { NamesNoFile (map string_bytes words.now) → first.new ≡ first.old }
{
    let Ok(Form::Capability { plant, demand }) = form_of(words) else {
        return RunStatus::Usage(WordsFault::OtherWords.number());
    };
    capability(alloc, words[plant].as_str(), demand, first, out)
}

/// Writes what the words `capability PLANT X Y N` ask for: how much of the demand, in kN and kN·dm, the thrusters can
/// give as the plant opens, with nothing lost and after the loss of each group, and for the wind from each of 36 angles
/// the greatest whole speed up to which the demand is held against it, whatever one group is lost.
///
/// The first word names the command. Where the words have that form, there is a plant and nothing fails, `out` takes
/// the greatest part of the demand for each loss, the group whose loss leaves the least, and for each angle the speed
/// with thrusts that hold it and the loss that isn't withstood at the next speed; the status is `LossFound` where some
/// loss leaves too little for the demand alone, else `Clear`. The status says what failed else, and `err` takes its
/// line. The lines go out angle by angle, each made whole before, so that the memory that is taken doesn't grow with
/// the angles. The source is that of the plant file, which isn't read where the plant is the built-in one.
pub fn capability_call<A: Source, O: Sink, E: Sink>(
    alloc: Global,
    words: &[String],
    first: &mut A,
    out: &mut O,
    err: &mut E,
) -> RunStatus
    requires { names_capability (map string_bytes words.now) ≡ true }
    ensures { EndsCapabilityCall (map string_bytes words.now) result first.old first.new
        (reading A.Source first.old first.new) (writing O.Sink out.old out.new)
        (writing E.Sink err.old err.new) }
{
    let status = capability_of_words(alloc, words, first, out);
    tell(&status, err);
    status
}
