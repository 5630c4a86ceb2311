//! The texts of sessions of the demo, and sessions that are to write them.

use crate::memory::{bytes, nothing, replays};
use dp_io::{MemorySink, MemorySource};
use dp_words::RunStatus;
use std::alloc::Global;
use std::process::Abort;
use std::test::Fail;

/// The words of a session of the demo.
pub(crate) const WORDS: [&str; 3] = ["replay", "demo", "-"];

/// The log's beginning: verdicts on the losses of the demo's two groups as it opens.
const OPENING: &str = "LOG,1,DEMO\n\
    S PUBLISH,0,GA,HOLDS,0,1,0,0,0,0,0,0,0,0 = SHOWN\n\
    S PUBLISH,0,GB,HOLDS,0,1,0,0,0,0,0,0,0,0 = SHOWN\n";

/// The lines of the demo's groups where the demand is met after each loss, and the report's last.
const HELD: &str = "GROUP,GA,HOLDS\nGROUP,GB,HOLDS\nEND\n";

/// Appends the frame of a body, with its line feed.
pub(crate) fn push_frame(text: &mut String, body: &str) -> Result<(), Fail> {
    let sum = body.as_bytes().iter().fold(0, |sum, byte| sum ^ *byte);
    let (high, low) = (digit(sum / 16), digit(sum % 16));
    write!(text, "${body}*{high}{low}\n")?;
    Ok(())
}

/// The hexadecimal digit of a number below 16.
fn digit(number: u8) -> char {
    const DIGITS: &str = "0123456789ABCDEF";
    char::from(
        DIGITS
            .as_bytes()
            .get(usize::from(number))
            .copied()
            .unwrap_or(b'0'),
    )
}

/// A session over a source and a sink, whose bytes are looked at.
pub(crate) fn session_writes(
    rt: &impl Abort,
    alloc: Global,
    telegrams: MemorySource,
    out: MemorySink,
    status: RunStatus,
    written: &str,
) -> Result<(), Fail> {
    let ended = replays(alloc, &WORDS, nothing(alloc), telegrams, out)?;
    assert_eq!(rt; ended.status, status);
    assert_eq!(rt; ended.out.taken(), written.as_bytes());
    Ok(())
}

/// The whole of a session's output, of which the log is given without its beginning and the Close at its end.
pub(crate) fn written(
    alloc: Global,
    commands: &str,
    log: &str,
    report: &str,
) -> Result<String, Fail> {
    Ok(format!(in alloc; "{commands}{OPENING}{log}S CLOSE = TAKEN\n{report}")?)
}

/// A report of so many versions and telegrams, where the demand is met after each loss.
pub(crate) fn held(alloc: Global, versions: u32, telegrams: u32) -> Result<String, Fail> {
    Ok(format!(in alloc; "REPORT,{versions},{telegrams}\n{HELD}")?)
}

/// Appends the verdicts on both losses where nothing is asked.
pub(crate) fn push_verdicts(log: &mut String, version: u32) -> Result<(), Fail> {
    for group in ["GA", "GB"] {
        write!(
            log,
            "S PUBLISH,{version},{group},HOLDS,0,1,0,0,0,0,0,0,0,0 = SHOWN\n"
        )?;
    }
    Ok(())
}

/// A session whose telegrams come in pieces of at most seven bytes.
pub(crate) fn answers(
    rt: &impl Abort,
    alloc: Global,
    telegrams: &str,
    commands: &str,
    log: &str,
    report: &str,
    status: RunStatus,
) -> Result<(), Fail> {
    let source = MemorySource::new(bytes(alloc, telegrams)?, 7, Vec::new(alloc));
    let sink = MemorySink::new(alloc, 4096, Vec::new(alloc))?;
    let text = written(alloc, commands, log, report)?;
    session_writes(rt, alloc, source, sink, status, text.as_str())
}

/// One that asks nothing of the thrusters, of which some telegrams make versions.
pub(crate) fn switches(
    rt: &impl Abort,
    alloc: Global,
    telegrams: &str,
    log: &str,
    versions: u32,
    count: u32,
) -> Result<(), Fail> {
    let report = held(alloc, versions, count)?;
    let report = report.as_str();
    answers(rt, alloc, telegrams, "", log, report, RunStatus::Clear)
}
