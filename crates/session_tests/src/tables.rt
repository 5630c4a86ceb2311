//! Each write and each read of a session failing in turn, and streams of any bytes and of any length.

use crate::memory::{bytes, call_number};
use crate::texts::{held, session_writes, written};
use dp_io::{MemorySink, MemorySource};
use dp_words::RunStatus;
use plant_model::limits::MOST_STREAM_BYTES;
use std::alloc::Global;
use std::process::Abort;
use std::test::Fail;

/// Two positions, of which the first makes a version.
const TELEGRAMS: &str = "$POS,1000,-100,0,0*51\n$POS,2000,-80,0,0*6B\n";

const FIRST_FRAMES: &str = "$CMD,1000,1,20,0,0,1,1*54\n\
    $THC,BOW1,0,0,1*05\n$THC,BOW2,0,0,1*06\n$THC,PORT,10,0,1*46\n$THC,STBD,10,0,1*5E\n";

const SECOND_FRAMES: &str = "$CMD,2000,1,6,0,0,1,1*63\n\
    $THC,BOW1,0,0,1*05\n$THC,BOW2,0,0,1*06\n$THC,PORT,3,0,1*74\n$THC,STBD,3,0,1*6C\n";

const FIRST_ANSWER: &str = "C POS,1000,-100,0,0 = COMMANDED,1,20,0,0,1,1,0,1,0,0,0,0,10,0,10,0\n\
    S PUBLISH,1,GA,HOLDS,1,19,0,0,0,50,0,0,380,-50 = SHOWN\n\
    S PUBLISH,1,GB,HOLDS,0,2,0,-5,0,0,40,5,0,0 = SHOWN\n";

const SECOND_ANSWER: &str = "C POS,2000,-80,0,0 = COMMANDED,1,6,0,0,1,1,0,1,0,0,0,0,3,0,3,0\n";

/// What a session writes that answers this many of the two positions, and after them has this log.
fn answered(alloc: Global, positions: u32, log: &str, notes: u32) -> Result<String, Fail> {
    let report = held(alloc, positions.min(1), positions.saturating_add(notes))?;
    let mut commands = String::new(alloc);
    let mut answers = String::new(alloc);
    if positions > 0 {
        commands.push_str(FIRST_FRAMES)?;
        answers.push_str(FIRST_ANSWER)?;
    }
    if positions > 1 {
        commands.push_str(SECOND_FRAMES)?;
        answers.push_str(SECOND_ANSWER)?;
    }
    answers.push_str(log)?;
    written(alloc, commands.as_str(), answers.as_str(), report.as_str())
}

/// The first lines of a text.
fn first_lines(alloc: Global, text: &str, count: usize) -> Result<String, Fail> {
    let mut first = String::new(alloc);
    for line in text.lines().take(count) {
        first.push_str(line)?;
        first.push('\n')?;
    }
    Ok(first)
}

/// The session hands over 22 pieces, each a line. Where one fails, those before it were taken.
#[test]
fn each_write_fails_in_turn(rt: HostRuntime) -> Result<(), Fail> {
    let alloc = rt.alloc();
    let whole = answered(alloc, 2, "", 0)?;
    for call in 0..=22_u32 {
        let source = MemorySource::new(bytes(alloc, TELEGRAMS)?, 7, Vec::new(alloc));
        let sink = MemorySink::new(alloc, 4096, call_number(alloc, u64::from(call))?)?;
        let text = first_lines(alloc, whole.as_str(), call as usize)?;
        let status = if call < 22 {
            RunStatus::WriteFault
        } else {
            RunStatus::Clear
        };
        session_writes(&rt, alloc, source, sink, status, text.as_str())?;
    }
    Ok(())
}

/// The stream has 43 bytes, and ends at the 44th read. Where one fails, the whole lines before it were answered.
#[test]
fn each_read_fails_in_turn(rt: HostRuntime) -> Result<(), Fail> {
    let alloc = rt.alloc();
    for call in 0..44_u32 {
        let positions = if call < 22 {
            0
        } else if call < 43 {
            1
        } else {
            2
        };
        let calls = call_number(alloc, u64::from(call))?;
        let source = MemorySource::new(bytes(alloc, TELEGRAMS)?, 1, calls);
        let sink = MemorySink::new(alloc, 4096, Vec::new(alloc))?;
        let text = answered(alloc, positions, "", 0)?;
        let status = RunStatus::ReadFault;
        session_writes(&rt, alloc, source, sink, status, text.as_str())?;
    }
    Ok(())
}

#[test]
fn each_beginning_of_a_stream_is_answered(rt: HostRuntime) -> Result<(), Fail> {
    let alloc = rt.alloc();
    for length in 0..43_u32 {
        let mut telegrams = bytes(alloc, TELEGRAMS)?;
        telegrams.truncate(length as usize);
        let source = MemorySource::new(telegrams, 7, Vec::new(alloc));
        let sink = MemorySink::new(alloc, 4096, Vec::new(alloc))?;
        let positions = if length < 22 { 0 } else { 1 };
        let is_cut = length != 0 && length != 22;
        let text = if is_cut {
            answered(alloc, positions, "C DAMAGED,4 = NOTED\n", 1)?
        } else {
            answered(alloc, positions, "", 0)?
        };
        let status = RunStatus::Clear;
        session_writes(&rt, alloc, source, sink, status, text.as_str())?;
    }
    Ok(())
}

#[test]
fn each_byte_is_read(rt: HostRuntime) -> Result<(), Fail> {
    let alloc = rt.alloc();
    let mut all = Vec::new(alloc);
    for byte in 0..=255_u8 {
        all.push(byte)?;
    }
    let source = MemorySource::new(all, 7, Vec::new(alloc));
    let sink = MemorySink::new(alloc, 4096, Vec::new(alloc))?;
    let log = "C DAMAGED,1 = NOTED\nC DAMAGED,4 = NOTED\n";
    let text = answered(alloc, 0, log, 2)?;
    session_writes(&rt, alloc, source, sink, RunStatus::Clear, text.as_str())
}

/// A session over so many bytes with no line feed.
fn reads_a_line(
    rt: &impl Abort,
    alloc: Global,
    length: usize,
    text: &str,
    status: RunStatus,
) -> Result<(), Fail> {
    let mut line = Vec::new(alloc);
    for _ in 0..length {
        line.push(b'A')?;
    }
    let source = MemorySource::new(line, 4096, Vec::new(alloc));
    let sink = MemorySink::new(alloc, 1024, Vec::new(alloc))?;
    session_writes(rt, alloc, source, sink, status, text)
}

#[test]
fn a_line_as_long_as_a_stream_is_damaged(rt: HostRuntime) -> Result<(), Fail> {
    let alloc = rt.alloc();
    let text = answered(alloc, 0, "C DAMAGED,4 = NOTED\n", 1)?;
    let status = RunStatus::Clear;
    reads_a_line(&rt, alloc, MOST_STREAM_BYTES, text.as_str(), status)?;
    let text = answered(alloc, 0, "", 0)?;
    let status = RunStatus::StreamTooLong;
    reads_a_line(&rt, alloc, MOST_STREAM_BYTES + 1, text.as_str(), status)
}
