//! Sessions as long as sessions may be, and longer.
ghost use Rattle.std.specs.Prelude.{◌<◌, ◌≤◌};

use crate::memory::{bytes, nothing, replays};
use crate::texts::{WORDS, held, push_frame, push_verdicts, session_writes, written};
use dp_io::{MemorySink, MemorySource};
use dp_words::RunStatus;
use plant_model::limits::{MOST_ENTRIES, MOST_STREAM_BYTES};
use std::alloc::Global;
use std::process::Abort;
use std::test::Fail;

#[test]
fn a_stream_has_a_limit(rt: HostRuntime) -> Result<(), Fail> {
    let alloc = rt.alloc();
    let mut long = Vec::new(alloc);
    for _ in 0..=MOST_STREAM_BYTES {
        long.push(b'\n')?;
    }
    let source = MemorySource::new(long, 4096, Vec::new(alloc));
    let sink = MemorySink::new(alloc, 1024, Vec::new(alloc))?;
    let report = held(alloc, 0, 0)?;
    let text = written(alloc, "", "", report.as_str())?;
    let status = RunStatus::StreamTooLong;
    session_writes(&rt, alloc, source, sink, status, text.as_str())
}

/// A session over one line more than a history has room for, of which the first is answered so, and each other so.
fn fills(
    rt: &impl Abort,
    alloc: Global,
    line: &str,
    first: &str,
    then: &str,
    versions: u32,
) -> Result<(), Fail> {
    let mut telegrams = Vec::new(alloc);
    let mut log = String::from_str(alloc, first)?;
    telegrams.extend_from_slice(line.as_bytes())?;
    for _ in 1..MOST_ENTRIES {
        telegrams.extend_from_slice(line.as_bytes())?;
        log.push_str(then)?;
    }
    telegrams.extend_from_slice(line.as_bytes())?;
    let source = MemorySource::new(telegrams, 4096, Vec::new(alloc));
    let sink = MemorySink::new(alloc, 1 << 21, Vec::new(alloc))?;
    let report = held(alloc, versions, MOST_ENTRIES)?;
    let text = written(alloc, "", log.as_str(), report.as_str())?;
    let status = RunStatus::JournalFull;
    session_writes(rt, alloc, source, sink, status, text.as_str())
}

#[test]
fn a_history_has_a_limit(rt: HostRuntime) -> Result<(), Fail> {
    let alloc = rt.alloc();
    let mut first = String::from_str(alloc, "O TIE,T1,CLOSE = VERSION,1\n")?;
    push_verdicts(&mut first, 1)?;
    let (line, then) = ("$TIE,T1,CLOSE*6B\n", "O TIE,T1,CLOSE = SAME\n");
    fills(&rt, alloc, line, first.as_str(), then, 1)
}

#[test]
fn acknowledgements_count_where_no_alarm_has_the_number(rt: HostRuntime) -> Result<(), Fail> {
    let then = "O ACK,1 = NO-SUCH-ALARM\n";
    fills(&rt, rt.alloc(), "$ACK,1*54\n", then, then, 0)
}

/// The telegrams of a second of a watch: a position about the set point, and every ten seconds a wind of 12 m/s from
/// ahead.
fn push_second(telegrams: &mut String, alloc: Global, second: u32) -> Result<(), Fail>
    requires { second ≤ 14_400 }
{
    let moment = 1_000 * second;
    let north = (37 * second % 101) as i32 - 50;
    let east = (53 * second % 89) as i32 - 44;
    let body = format!(in alloc; "POS,{moment},{north},{east},0")?;
    push_frame(telegrams, body.as_str())?;
    if second % 10 == 0 {
        let body = format!(in alloc; "WND,{moment},120,0")?;
        push_frame(telegrams, body.as_str())?;
    }
    Ok(())
}

/// The telegrams of a watch of four hours, in which a bus tie is closed after the first hour and opened after the second.
fn push_watch(telegrams: &mut String, alloc: Global) -> Result<(), Fail> {
    for passed in 0..14_400_u32 {
        let second = passed + 1;
        push_second(telegrams, alloc, second)?;
        match second {
            3_600 => push_frame(telegrams, "TIE,T1,CLOSE")?,
            7_200 => push_frame(telegrams, "TIE,T1,OPEN")?,
            _ => (),
        }
    }
    Ok(())
}

/// No alarm was ever raised: each demand was met, and after each loss too.
#[test]
fn a_watch_of_four_hours_is_held(rt: HostRuntime) -> Result<(), Fail> {
    let alloc = rt.alloc();
    let mut telegrams = String::new(alloc);
    push_watch(&mut telegrams, alloc)?;
    let telegrams = bytes(alloc, telegrams.as_str())?;
    let telegrams = MemorySource::new(telegrams, 4096, Vec::new(alloc));
    let out = MemorySink::new(alloc, 1 << 25, Vec::new(alloc))?;
    let ended = replays(alloc, &WORDS, nothing(alloc), telegrams, out)?;
    assert_eq!(rt; ended.status, RunStatus::Clear);
    let report = held(alloc, 13_664, 15_842)?;
    assert!(rt; ended.out.taken().ends_with(report.as_str().as_bytes()));
    Ok(())
}
