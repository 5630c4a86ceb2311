//! Calls of the program over sources and sinks in memory.

use dp_io::{MemorySink, MemorySource, NoGate};
use dp_program::run;
use dp_sessions::replay_call;
use dp_words::RunStatus;
use std::alloc::Global;
use std::sync::Wait;
use std::test::Fail;
use std::thread::Threads;

pub(crate) fn bytes(alloc: Global, text: &str) -> Result<Vec<u8>, Fail> {
    let mut bytes = Vec::new(alloc);
    bytes.extend_from_slice(text.as_bytes())?;
    Ok(bytes)
}

/// The number of one call, which is to fail.
pub(crate) fn call_number(alloc: Global, number: u64) -> Result<Vec<u64>, Fail> {
    let mut calls = Vec::new(alloc);
    calls.push(number)?;
    Ok(calls)
}

/// A source with nothing in it.
pub(crate) fn nothing(alloc: Global) -> MemorySource {
    MemorySource::new(Vec::new(alloc), 1, Vec::new(alloc))
}

fn spelled(alloc: Global, words: &[&str]) -> Result<Vec<String>, Fail> {
    let mut spelled = Vec::new(alloc);
    for word in words {
        spelled.push(String::from_str(alloc, word)?)?;
    }
    Ok(spelled)
}

/// How a call of the program ends: its status, and what both outputs took.
#[derive(Drop)]
pub(crate) struct Ended {
    pub(crate) status: RunStatus,
    pub(crate) out: MemorySink,
    pub(crate) err: MemorySink,
}

/// Replays the telegrams on the plant of these words, over the plant file and into the output.
pub(crate) fn replays(
    alloc: Global,
    words: &[&str],
    mut file: MemorySource,
    mut telegrams: MemorySource,
    mut out: MemorySink,
) -> Result<Ended, Fail> {
    let words = spelled(alloc, words)?;
    let mut err = MemorySink::new(alloc, 64, Vec::new(alloc))?;
    let words = words.as_slice();
    let status = replay_call(alloc, words, &mut file, &mut telegrams, &mut out, &mut err);
    Ok(Ended { status, out, err })
}

/// Runs the program on these words over a plant file and an output, with no telegrams.
pub(crate) fn runs(
    rt: &(impl Threads + Wait + Sync),
    alloc: Global,
    words: &[&str],
    mut file: MemorySource,
    mut out: MemorySink,
) -> Result<Ended, Fail> {
    let words = spelled(alloc, words)?;
    let mut telegrams = nothing(alloc);
    let mut operators = nothing(alloc);
    let mut err = MemorySink::new(alloc, 64, Vec::new(alloc))?;
    let status = run(
        rt,
        alloc,
        words.as_slice(),
        &mut file,
        &mut telegrams,
        &mut operators,
        &mut out,
        &mut err,
        &NoGate,
    );
    Ok(Ended { status, out, err })
}
