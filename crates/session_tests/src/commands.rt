//! What the program makes of its words.

use crate::memory::{bytes, nothing, replays, runs};
use crate::texts::{WORDS, held, written};
use dp_io::{MemorySink, MemorySource};
use dp_words::RunStatus;
use std::test::Fail;

#[test]
fn run_answers_as_replay_does(rt: HostRuntime) -> Result<(), Fail> {
    let alloc = rt.alloc();
    let out = MemorySink::new(alloc, 1024, Vec::new(alloc))?;
    let ended = runs(&rt, alloc, &WORDS, nothing(alloc), out)?;
    assert_eq!(rt; ended.status, RunStatus::Clear);
    let report = held(alloc, 0, 0)?;
    let text = written(alloc, "", "", report.as_str())?;
    assert_eq!(rt; ended.out.taken(), text.as_str().as_bytes());
    assert_eq!(rt; ended.err.taken(), b"".as_slice());
    Ok(())
}

#[test]
fn run_votes_on_its_first_source(rt: HostRuntime) -> Result<(), Fail> {
    let alloc = rt.alloc();
    let telegrams = MemorySource::new(bytes(alloc, "$TIE,T1,CLOSE*6B\n")?, 5, Vec::new(alloc));
    let out = MemorySink::new(alloc, 64, Vec::new(alloc))?;
    let ended = runs(&rt, alloc, &["vote", "-"], telegrams, out)?;
    assert_eq!(rt; ended.status, RunStatus::Clear);
    assert_eq!(rt; ended.out.taken(), b"$TIE,T1,CLOSE*6B\n".as_slice());
    Ok(())
}

#[test]
fn run_reports_on_references(rt: HostRuntime) -> Result<(), Fail> {
    let alloc = rt.alloc();
    let telegrams = MemorySource::new(bytes(alloc, "$REF,1000,1,0,0,0*7D\n")?, 5, Vec::new(alloc));
    let out = MemorySink::new(alloc, 64, Vec::new(alloc))?;
    let ended = runs(&rt, alloc, &["vote", "-", "--report"], telegrams, out)?;
    assert_eq!(rt; ended.status, RunStatus::Clear);
    assert_eq!(rt; ended.out.taken(), b"VOTE,0,1,0\nEND\n".as_slice());
    Ok(())
}

#[test]
fn run_refuses_a_vote_of_two_streams(rt: HostRuntime) -> Result<(), Fail> {
    let alloc = rt.alloc();
    let out = MemorySink::new(alloc, 64, Vec::new(alloc))?;
    let ended = runs(&rt, alloc, &["vote", "demo", "-"], nothing(alloc), out)?;
    assert_eq!(rt; ended.status, RunStatus::Usage(3));
    assert_eq!(rt; ended.err.taken(), b"dp: usage 3\n".as_slice());
    Ok(())
}

#[test]
fn a_replay_refuses_the_words_of_a_vote(rt: HostRuntime) -> Result<(), Fail> {
    let alloc = rt.alloc();
    let out = MemorySink::new(alloc, 64, Vec::new(alloc))?;
    let ended = replays(alloc, &["vote", "-"], nothing(alloc), nothing(alloc), out)?;
    assert_eq!(rt; ended.status, RunStatus::Usage(3));
    assert_eq!(rt; ended.out.taken(), b"".as_slice());
    assert_eq!(rt; ended.err.taken(), b"dp: usage 3\n".as_slice());
    Ok(())
}

#[test]
fn run_refuses_no_words(rt: HostRuntime) -> Result<(), Fail> {
    let alloc = rt.alloc();
    let out = MemorySink::new(alloc, 64, Vec::new(alloc))?;
    let ended = runs(&rt, alloc, &[], nothing(alloc), out)?;
    assert_eq!(rt; ended.status, RunStatus::Usage(1));
    assert_eq!(rt; ended.err.taken(), b"dp: usage 1\n".as_slice());
    Ok(())
}
