//! The top call of `drill`.
ghost use Rattle.std.specs.Prelude.{◌≡◌, ◌⊎◌, map, string_bytes, true};
ghost use Rattle.dp_io.specs.Shown.{writing};
ghost use Rattle.drill_session.specs.Calls.{Drills, EndsDrillCall, HasNoForm, names_drill};

use crate::session::drill;
use dp_io::{Gate, Sink};
use dp_words::{Form, RunStatus, WordsFault, form_of, tell};
use std::alloc::Global;
use std::sync::Wait;
use std::thread::Threads;

/// Whether the first word names the command.
pub fn names_drill(words: &[String]) -> bool
    ensures { result ≡ names_drill (map string_bytes words.now) }
{
    match words.split_first() {
        Some((command, _)) => command.as_str() == "drill",
        None => false,
    }
}

/// What the words ask for, without a word to the error output. The first word names the command.
fn drill_of_words<R: Threads + Wait + Sync, O: Sink, G: Gate + Sync>(
    rt: &R,
    alloc: Global,
    words: &[String],
    out: &mut O,
    gate: &G,
) -> RunStatus
    requires { names_drill (map string_bytes words.now) ≡ true }
    ensures { Drills (map string_bytes words.now) result (writing O.Sink out.old out.new)
        ⊎ HasNoForm (map string_bytes words.now) result (writing O.Sink out.old out.new) }
{
    let Ok(Form::Drill { seed, size }) = form_of(words) else {
        return RunStatus::Usage(WordsFault::OtherWords.number());
    };
    drill(rt, alloc, seed, size, out, gate)
}

/// Runs what the words `drill SEED SIZE` ask for: a session over two streams that are drawn from the seed, of so many
/// steps, on the demo plant with two workers, of which only a summary is written.
///
/// The first word names the command. Where the words have that form and nothing fails, `out` takes six lines: the seed
/// and the size; the sensors' entries, with how many were commands and how many late; the operators' entries, with how
/// many made a version and how many changed nothing; how the plant is switched at last; what the last command asks; and
/// `END`. They are the same for all histories that stand for the two streams. The status is then `Clear`, also where
/// some verdict is Lost, since no report is written. The status says what failed else, and `err` takes its line. The
/// gate is told of what the callers do.
pub fn drill_call<R: Threads + Wait + Sync, O: Sink, E: Sink, G: Gate + Sync>(
    rt: &R,
    alloc: Global,
    words: &[String],
    out: &mut O,
    err: &mut E,
    gate: &G,
) -> RunStatus
    requires { names_drill (map string_bytes words.now) ≡ true }
    ensures { EndsDrillCall (map string_bytes words.now) result (writing O.Sink out.old out.new)
        (writing E.Sink err.old err.new) }
{
    let status = drill_of_words(rt, alloc, words, out, gate);
    tell(&status, err);
    status
}
