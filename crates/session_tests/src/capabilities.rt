//! Capabilities over memory: what is written, and the status.

use crate::memory::{bytes, call_number, nothing, runs};
use dp_io::{MemorySink, MemorySource};
use dp_words::RunStatus;
use std::alloc::Global;
use std::process::Abort;
use std::sync::Wait;
use std::test::Fail;
use std::thread::Threads;

/// More bytes than a capability of the demo has.
const ROOM: usize = 16_384;

/// The program run on these words over the demo: its status, and whether what it writes begins so and ends with `END`.
fn begins(
    rt: &(impl Abort + Threads + Wait + Sync),
    alloc: Global,
    words: &[&str],
    status: RunStatus,
    beginning: &str,
) -> Result<Vec<u8>, Fail> {
    let out = MemorySink::new(alloc, ROOM, Vec::new(alloc))?;
    let ended = runs(rt, alloc, words, nothing(alloc), out)?;
    assert_eq!(rt; ended.status, status);
    let taken = ended.out.taken();
    assert!(rt; taken.starts_with(beginning.as_bytes()));
    assert!(rt; taken.ends_with(b"\nEND\n"));
    let mut written = Vec::new(alloc);
    written.extend_from_slice(taken)?;
    Ok(written)
}

/// How many lines begin and end so.
fn count(text: &[u8], beginning: &[u8], end: &[u8]) -> usize {
    text.split(|byte| *byte == b'\n')
        .filter(|line| line.starts_with(beginning) && line.ends_with(end))
        .count()
}

#[test]
fn what_is_left_of_a_demand_is_told(rt: HostRuntime) -> Result<(), Fail> {
    let alloc = rt.alloc();
    let written = begins(
        &rt,
        alloc,
        &["capability", "demo", "0", "380", "0"],
        RunStatus::Clear,
        "CAPABILITY,0,380,0\nINTACT,216,95\nRESERVE,GA,1,1\nRESERVE,GB,20,19\nWORST,GA\nWIND,0,0,GROUP,GA\n",
    )?;
    let text = written.as_slice();
    assert_eq!(rt; count(text, b"WIND,", b""), 36);
    assert_eq!(rt; count(text, b"AT,", b""), 108);
    assert_eq!(rt; count(text, b"NEXT,GROUP,GA,LOST,", b""), 32);
    assert_eq!(rt; count(text, b"NEXT,GROUP,GB,LOST,", b""), 4);
    Ok(())
}

#[test]
fn the_wind_that_is_held_is_told(rt: HostRuntime) -> Result<(), Fail> {
    let alloc = rt.alloc();
    let written = begins(
        &rt,
        alloc,
        &["capability", "demo", "0", "0", "0"],
        RunStatus::Clear,
        "CAPABILITY,0,0,0\nINTACT,ANY\nRESERVE,GA,ANY\nRESERVE,GB,ANY\nWORST,NONE\nWIND,0,375,GROUP,GA\n",
    )?;
    let text = written.as_slice();
    assert_eq!(rt; count(text, b"WIND,9000,275,GROUP,GA", b""), 1);
    Ok(())
}

#[test]
fn a_demand_that_a_loss_ends_is_lost(rt: HostRuntime) -> Result<(), Fail> {
    let alloc = rt.alloc();
    let written = begins(
        &rt,
        alloc,
        &["capability", "demo", "0", "381", "0"],
        RunStatus::LossFound,
        "CAPABILITY,0,381,0\nINTACT,288,127\nRESERVE,GA,380,381\nRESERVE,GB,400,381\nWORST,GA\nWIND,0,NONE,GROUP,GA\n",
    )?;
    let text = written.as_slice();
    assert_eq!(rt; count(text, b"WIND,", b",NONE,GROUP,GA"), 36);
    assert_eq!(rt; count(text, b"AT,", b""), 0);
    Ok(())
}

#[test]
fn a_write_fault_ends_a_capability(rt: HostRuntime) -> Result<(), Fail> {
    let alloc = rt.alloc();
    let out = MemorySink::new(alloc, ROOM, call_number(alloc, 1)?)?;
    let ended = runs(
        &rt,
        alloc,
        &["capability", "demo", "0", "0", "0"],
        nothing(alloc),
        out,
    )?;
    assert_eq!(rt; ended.status, RunStatus::WriteFault);
    assert_eq!(rt; ended.out.taken(), b"CAPABILITY,0,0,0\n".as_slice());
    assert_eq!(rt; ended.err.taken(), b"dp: write fault\n".as_slice());
    Ok(())
}

#[test]
fn a_capability_without_a_plant_writes_nothing(rt: HostRuntime) -> Result<(), Fail> {
    let alloc = rt.alloc();
    let out = MemorySink::new(alloc, 64, Vec::new(alloc))?;
    let file = MemorySource::new(bytes(alloc, "format = 9")?, 3, Vec::new(alloc));
    let ended = runs(
        &rt,
        alloc,
        &["capability", "ship", "0", "0", "0"],
        file,
        out,
    )?;
    assert_eq!(rt; ended.err.taken(), b"dp: plant 4 format\n".as_slice());
    let out = MemorySink::new(alloc, 64, Vec::new(alloc))?;
    let ended = runs(
        &rt,
        alloc,
        &["capability", "demo", "0", "0", "0", "--json"],
        nothing(alloc),
        out,
    )?;
    assert_eq!(rt; ended.err.taken(), b"dp: usage 3\n".as_slice());
    assert_eq!(rt; ended.out.taken(), b"".as_slice());
    Ok(())
}
