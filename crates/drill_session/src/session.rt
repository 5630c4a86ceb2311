//! The session of a drill, and its summary.
ghost use Rattle.std.specs.Prelude.{◌≡◌, ◌≤◌, IfOk, string_bytes};
ghost use Rattle.dp_io.specs.Shown.{writing};
ghost use Rattle.drill_streams.specs.declared.streams.TheConstants.{MOST_DRILL_STEPS};
ghost use Rattle.drill_session.specs.Drills.{EndsDrill, IsSummary, has_ended};

use crate::recorded::Recorded;
use dp_io::{Gate, Sink};
use dp_words::{RunStatus, send_lines};
use drill_streams::{MOST_DRILL_STEPS, drill_streams};
use drill_summary::drill_text;
use no_memory::NoMemory;
use plant_model::demo::demo;
use std::alloc::Global;
use std::sync::Wait;
use std::thread::Threads;
use watch_session::{Nowhere, StreamEnd, StreamEnds, watch};

/// The workers beside the two streams.
const DRILL_WORKERS: u32 = 2;

/// Whether memory sufficed: both streams came to an end, and the session was closed.
fn has_ended(ends: StreamEnds, is_whole: bool) -> bool
    ensures { result ≡ has_ended ends.sensors ends.operators is_whole }
{
    match (ends.sensors, ends.operators) {
        (StreamEnd::Ended(_), StreamEnd::Ended(_)) => is_whole,
        _ => false,
    }
}

/// The summary of a session over the streams of this seed and of so many steps, on the demo plant.
fn summary<R: Threads + Wait + Sync, G: Gate + Sync>(
    rt: &R,
    alloc: Global,
    seed: u32,
    size: u32,
    gate: &G,
) -> Result<String, NoMemory>
    requires { size ≤ MOST_DRILL_STEPS }
    ensures { IfOk result (λ text. IsSummary seed size (string_bytes text)) }
{
    let streams = drill_streams(alloc, seed, size)?;
    let mut sensors = Recorded::new(streams.sensors);
    let mut operators = Recorded::new(streams.operators);
    let watched = watch(
        rt,
        alloc,
        demo(),
        DRILL_WORKERS,
        &mut sensors,
        &mut operators,
        &mut Nowhere,
        gate,
    )?;
    if !has_ended(watched.ends, watched.is_whole) {
        return Err(NoMemory);
    }
    drill_text(alloc, seed, size, &watched.core)
}

/// Runs a session over the streams of a drill of this seed and of so many steps, on the demo plant with two workers, and
/// writes its summary, which is the same however the callers interleave. Nothing else of the session is written.
pub(crate) fn drill<R: Threads + Wait + Sync, O: Sink, G: Gate + Sync>(
    rt: &R,
    alloc: Global,
    seed: u32,
    size: u32,
    out: &mut O,
    gate: &G,
) -> RunStatus
    requires few { size ≤ MOST_DRILL_STEPS }
    ensures { EndsDrill seed size result (writing O.Sink out.old out.new) }
{
    let Ok(text) = summary(rt, alloc, seed, size, gate) else {
        return RunStatus::NoMemory;
    };
    match send_lines(out, text.as_bytes()) {
        Ok(()) => RunStatus::Clear,
        Err(_) => RunStatus::WriteFault,
    }
}
