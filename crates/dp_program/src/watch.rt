//! A session over two streams, of the plant that a word names.
ghost use Rattle.std.specs.Prelude.{◌≡◌, ◌≤◌, ℕ, List, codes};
ghost use Rattle.dp_io.specs.Shown.{reading, writing};
ghost use Rattle.dp_words.specs.Plants.{HasPlant};
ghost use Rattle.dp_sessions.specs.Sessions.{EndsSession, passed};
ghost use Rattle.watch_session.specs.Threads.{watched};

use dp_io::{Gate, Sink, Source};
use dp_words::{RunStatus, plant_from};
use plant_model::limits::MOST_WORKERS;
use std::alloc::Global;
use std::sync::Wait;
use std::thread::Threads;
use watch_session::watch_session;

/// A session over the streams of the sensors and of the operators, with so many workers, of the plant that the word
/// names, without a word to the error output.
pub(crate) fn watch<
    R: Threads + Wait + Sync,
    A: Source,
    B: Source,
    C: Source + Send,
    O: Sink,
    G: Gate + Sync,
>(
    rt: &R,
    alloc: Global,
    word: &str,
    workers: u32,
    first: &mut A,
    sensors: &mut B,
    operators: &mut C,
    out: &mut O,
    gate: &G,
) -> RunStatus
    requires workers { workers ≤ MOST_WORKERS }
    ensures session { (words : List (List ℕ)) → HasPlant words word.now
        → EndsSession words result
        (watched workers (passed B.Source sensors.old sensors.new)
        (passed C.Source operators.old operators.new) (writing O.Sink out.old out.new))
        (reading A.Source first.old first.new) (writing O.Sink out.old out.new) }
    ensures unread { word.now ≡ codes "demo" → first.new ≡ first.old }
{
    let plant = match plant_from(alloc, word, first) {
        Ok(plant) => plant,
        Err(status) => return status,
    };
    match watch_session(rt, alloc, plant, workers, sensors, operators, out, gate) {
        Ok(ended) => ended.status(),
        Err(status) => status,
    }
}
