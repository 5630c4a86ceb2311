//! Sessions in which a read or a write fails, or whose plant file is faulty.

use crate::memory::{bytes, call_number, nothing, replays};
use crate::texts::{held, push_verdicts, session_writes, written};
use dp_io::{MemorySink, MemorySource};
use dp_words::RunStatus;
use plant_file::{Key, Part, Path, PlantFault};
use std::alloc::Global;
use std::process::Abort;
use std::test::Fail;

#[test]
fn a_read_fault_keeps_what_was_answered(rt: HostRuntime) -> Result<(), Fail> {
    let alloc = rt.alloc();
    let telegrams = bytes(alloc, "$TIE,T1,CLOSE*6B\n$TIE")?;
    let source = MemorySource::new(telegrams, 20, call_number(alloc, 1)?);
    let sink = MemorySink::new(alloc, 1024, Vec::new(alloc))?;
    let mut log = String::from_str(alloc, "O TIE,T1,CLOSE = VERSION,1\n")?;
    push_verdicts(&mut log, 1)?;
    let report = held(alloc, 1, 1)?;
    let text = written(alloc, "", log.as_str(), report.as_str())?;
    let status = RunStatus::ReadFault;
    session_writes(&rt, alloc, source, sink, status, text.as_str())
}

#[test]
fn a_first_read_that_fails_leaves_the_opening(rt: HostRuntime) -> Result<(), Fail> {
    let alloc = rt.alloc();
    let source = MemorySource::new(Vec::new(alloc), 1, call_number(alloc, 0)?);
    let sink = MemorySink::new(alloc, 1024, Vec::new(alloc))?;
    let report = held(alloc, 0, 0)?;
    let text = written(alloc, "", "", report.as_str())?;
    let status = RunStatus::ReadFault;
    session_writes(&rt, alloc, source, sink, status, text.as_str())
}

#[test]
fn nothing_is_written_after_a_write_fault(rt: HostRuntime) -> Result<(), Fail> {
    let alloc = rt.alloc();
    let sink = MemorySink::new(alloc, 1024, call_number(alloc, 1)?)?;
    let status = RunStatus::WriteFault;
    session_writes(&rt, alloc, nothing(alloc), sink, status, "LOG,1,DEMO\n")
}

#[test]
fn a_write_fault_in_the_frames_of_a_command_ends_the_stream(rt: HostRuntime) -> Result<(), Fail> {
    let alloc = rt.alloc();
    let telegrams = bytes(alloc, "$POS,1000,-100,0,0*51\n$POS,2000,-80,0,0*6B\n")?;
    let source = MemorySource::new(telegrams, 7, Vec::new(alloc));
    let sink = MemorySink::new(alloc, 1024, call_number(alloc, 2)?)?;
    let frames = "$CMD,1000,1,20,0,0,1,1*54\n$THC,BOW1,0,0,1*05\n";
    let status = RunStatus::WriteFault;
    session_writes(&rt, alloc, source, sink, status, frames)
}

/// A call on a plant file of these bytes, of which no plant is made. Some reads of the file may fail.
fn refuses(
    rt: &impl Abort,
    alloc: Global,
    file: &str,
    fails: Vec<u64>,
    status: RunStatus,
    line: &str,
) -> Result<(), Fail> {
    let words = ["replay", "ship.toml", "-"];
    let plant = MemorySource::new(bytes(alloc, file)?, 7, fails);
    let stream = bytes(alloc, "$TIE,T1,CLOSE*6B\n")?;
    let telegrams = MemorySource::new(stream, 7, Vec::new(alloc));
    let out = MemorySink::new(alloc, 64, Vec::new(alloc))?;
    let ended = replays(alloc, &words, plant, telegrams, out)?;
    assert_eq!(rt; ended.status, status);
    assert!(rt; ended.out.taken().is_empty());
    assert_eq!(rt; ended.err.taken(), line.as_bytes());
    Ok(())
}

#[test]
fn a_faulty_plant_file_writes_nothing(rt: HostRuntime) -> Result<(), Fail> {
    let alloc = rt.alloc();
    let format = Path {
        part: Part::Top,
        index: 0,
        key: Key::Format,
    };
    let fault = RunStatus::Plant(PlantFault::OutOfLimit(format));
    let none = Vec::new(alloc);
    refuses(
        &rt,
        alloc,
        "format = 9",
        none,
        fault,
        "dp: plant 4 format\n",
    )?;
    let second = call_number(alloc, 1)?;
    let failed = RunStatus::ReadFault;
    refuses(&rt, alloc, "format = 9", second, failed, "dp: read fault\n")
}
