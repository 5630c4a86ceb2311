//! How a session ended, and what is written at its end.
ghost use Rattle.std.specs.Prelude.{◌≡◌, ◌≢◌, ◌≤◌, ◌⊎◌, [], ◌∷◌, Err, IfOk};
ghost use Rattle.dp_io.specs.Shown.{reading, writing};
ghost use Rattle.dp_sessions.specs.Sessions.{GaveTooManyItems, WritesBegun, WritesPart};
ghost use Rattle.dp_sessions.specs.Sessions.{WritesWhole, passed, status_of};
ghost use Rattle.dp_words.specs.Writing.{EndsWriting};
ghost use Rattle.watch_session.specs.Threads.{ending_of, graver, has_all_frames, watched};

use crate::session::watch;
use crate::stream::{StreamEnd, StreamEnds};
use dp_io::{Gate, Sink, Source};
use dp_sessions::{Ended, Ending, has_lost_cell, write_history};
use dp_words::RunStatus;
use plant_model::limits::MOST_WORKERS;
use plant_model::plant::Plant;
use std::alloc::Global;
use std::sync::Wait;
use std::thread::Threads;

/// The graver of two endings.
fn graver(one: Ending, other: Ending) -> Ending
    ensures { result ≡ graver one other }
{
    match (one, other) {
        (Ending::Write, _) | (_, Ending::Write) => Ending::Write,
        (Ending::Fault, _) | (_, Ending::Fault) => Ending::Fault,
        (Ending::Long, _) | (_, Ending::Long) => Ending::Long,
        (Ending::Full, _) | (_, Ending::Full) => Ending::Full,
        (Ending::End, Ending::End) => Ending::End,
    }
}

/// The graver ending of the two streams of a session that was closed. None where memory ran out.
fn ending_of(ends: StreamEnds, is_whole: bool) -> Option<Ending>
    ensures { result ≡ ending_of ends.sensors ends.operators is_whole }
{
    match (ends.sensors, ends.operators) {
        (StreamEnd::Ended(one), StreamEnd::Ended(other)) if is_whole => Some(graver(one, other)),
        _ => None,
    }
}

/// Whether the frames of all commands were written.
fn has_all_frames(sensors: StreamEnd) -> bool
    ensures { result ≡ has_all_frames sensors }
{
    !matches!(
        sensors,
        StreamEnd::Ended(Ending::Write) | StreamEnd::NoFrames
    )
}

/// A session of the plant over two streams, with so many workers, and what is written of it: the frames of its commands
/// as positions are answered, and then its log and its report. The error is `WriteFault` or `NoMemory`.
pub fn watch_session<
    R: Threads + Wait + Sync,
    B: Source,
    C: Source + Send,
    O: Sink,
    G: Gate + Sync,
>(
    rt: &R,
    alloc: Global,
    plant: Plant,
    workers: u32,
    second: &mut B,
    third: &mut C,
    out: &mut O,
    gate: &G,
) -> Result<Ended, RunStatus>
    requires workers { workers ≤ MOST_WORKERS }
    ensures ended { IfOk result (λ ended. WritesWhole plant ended.ending
        (status_of ended.ending ended.is_lost)
        (watched workers (passed B.Source second.old second.new)
        (passed C.Source third.old third.new) (writing O.Sink out.old out.new))
        (writing O.Sink out.old out.new)) }
    ensures whole { IfOk result (λ ended. ended.ending ≢ Ending.Write) }
    ensures full { IfOk result (λ ended. ended.ending ≡ Ending.Full
        → GaveTooManyItems (reading B.Source second.old second.new
        ∷ reading C.Source third.old third.new ∷ [])) }
    ensures cut { result ≡ Err RunStatus.WriteFault → WritesPart plant
        (watched workers (passed B.Source second.old second.new)
        (passed C.Source third.old third.new) (writing O.Sink out.old out.new))
        (writing O.Sink out.old out.new) }
    ensures begun { result ≡ Err RunStatus.NoMemory
        → (O.taken out.new ≡ O.taken out.old) ⊎ WritesBegun plant
        (watched workers (passed B.Source second.old second.new)
        (passed C.Source third.old third.new) (writing O.Sink out.old out.new))
        (writing O.Sink out.old out.new) }
    ensures writing { EndsWriting result (writing O.Sink out.old out.new) }
{
    let watched = watch(rt, alloc, plant, workers, second, third, out, gate)?;
    let ending = ending_of(watched.ends, watched.is_whole);
    if !has_all_frames(watched.ends.sensors) {
        let Some(_) = ending else {
            return Err(RunStatus::NoMemory);
        };
        return Err(RunStatus::WriteFault);
    }
    let written = write_history(alloc, &watched.core, out);
    let Some(ending) = ending else {
        return Err(RunStatus::NoMemory);
    };
    written?;
    let is_lost = has_lost_cell(&watched.core);
    Ok(Ended { ending, is_lost })
}
