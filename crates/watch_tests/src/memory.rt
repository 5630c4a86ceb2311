//! Calls of `dp run` and `dp drill` over streams in memory.

use dp_io::{Gate, MemorySink, MemorySource};
use dp_program::run;
use dp_words::RunStatus;
use std::alloc::Global;
use std::sync::Wait;
use std::test::Fail;
use std::thread::Threads;

/// A source of these bytes, a few at a time.
pub(crate) fn source(alloc: Global, text: &str) -> Result<MemorySource, Fail> {
    let mut bytes = Vec::new(alloc);
    bytes.extend_from_slice(text.as_bytes())?;
    Ok(MemorySource::new(bytes, 7, Vec::new(alloc)))
}

/// How a call ended: its status, and what the output took.
#[derive(Drop)]
pub(crate) struct Ended {
    pub(crate) status: RunStatus,
    out: MemorySink,
}

impl Ended {
    /// What the output took.
    pub(crate) fn text(&self) -> &[u8] {
        self.out.taken()
    }

    /// How many lines of the output end so.
    pub(crate) fn count(&self, end: &str) -> usize {
        self.out
            .taken()
            .split(|byte| *byte == b'\n')
            .filter(|line| line.ends_with(end.as_bytes()))
            .count()
    }
}

/// Does what the words ask for, with these sources of the sensors and the operators.
fn calls(
    rt: &(impl Threads + Wait + Sync),
    alloc: Global,
    line: &[&str],
    mut sensors: MemorySource,
    mut operators: MemorySource,
    gate: &(impl Gate + Sync),
) -> Result<Ended, Fail> {
    let mut words = Vec::new(alloc);
    for word in line {
        words.push(String::from_str(alloc, word)?)?;
    }
    let mut plant = source(alloc, "")?;
    let mut out = MemorySink::new(alloc, 10_000, Vec::new(alloc))?;
    let mut err = MemorySink::new(alloc, 100, Vec::new(alloc))?;
    let status = run(
        rt,
        alloc,
        words.as_slice(),
        &mut plant,
        &mut sensors,
        &mut operators,
        &mut out,
        &mut err,
        gate,
    );
    Ok(Ended { status, out })
}

/// Runs the demo over these streams, with so many workers.
pub(crate) fn runs(
    rt: &(impl Threads + Wait + Sync),
    alloc: Global,
    workers: &str,
    sensors: MemorySource,
    operators: MemorySource,
    gate: &(impl Gate + Sync),
) -> Result<Ended, Fail> {
    let line = ["run", "demo", "sensors", "operators", "--workers", workers];
    calls(rt, alloc, &line, sensors, operators, gate)
}

/// Runs a drill of this seed and size.
pub(crate) fn drills(
    rt: &(impl Threads + Wait + Sync),
    alloc: Global,
    seed: &str,
    size: &str,
    gate: &(impl Gate + Sync),
) -> Result<Ended, Fail> {
    let (sensors, operators) = (source(alloc, "")?, source(alloc, "")?);
    calls(rt, alloc, &["drill", seed, size], sensors, operators, gate)
}
