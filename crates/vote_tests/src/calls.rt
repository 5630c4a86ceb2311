//! Tests of the command over streams in memory.

use dp_io::{MemorySink, MemorySource};
use dp_words::RunStatus;
use frame::{Body, write_frame};
use sensor_vote::{names_vote, vote_call};
use std::alloc::Global;
use std::test::Fail;

/// Three references, of which the third is far to the north.
const FAR: [&str; 3] = [
    "REF,1000,1,100,0,0",
    "REF,1000,2,104,-3,35990",
    "REF,1000,3,9000,2,10",
];

/// The frames of the bodies, one after another.
fn frames(alloc: Global, bodies: &[&str]) -> Result<Vec<u8>, Fail> {
    let mut frames = Vec::new(alloc);
    for text in bodies {
        let body = Body::of(text.as_bytes()).ok_or("no body")?;
        frames.extend_from_slice(write_frame(&body).as_slice())?;
    }
    Ok(frames)
}

/// The number of one call, which is to fail, or of none.
fn calls(alloc: Global, number: Option<u64>) -> Result<Vec<u64>, Fail> {
    let mut calls = Vec::new(alloc);
    if let Some(number) = number {
        calls.push(number)?;
    }
    Ok(calls)
}

fn spelled(alloc: Global, words: &[&str]) -> Result<Vec<String>, Fail> {
    let mut spelled = Vec::new(alloc);
    for word in words {
        spelled.push(String::from_str(alloc, word)?)?;
    }
    Ok(spelled)
}

/// How a call ends: its status, and what both outputs took.
#[derive(Drop)]
struct Ended {
    status: RunStatus,
    out: MemorySink,
    err: MemorySink,
}

/// What may fail in a call: the read and the write of these numbers, or none.
#[derive(Clone, Copy)]
struct Fails {
    read: Option<u64>,
    write: Option<u64>,
}

/// A vote of these bytes, by the words.
fn votes(alloc: Global, words: &[&str], bytes: Vec<u8>, fails: Fails) -> Result<Ended, Fail> {
    let words = spelled(alloc, words)?;
    let mut telegrams = MemorySource::new(bytes, 7, calls(alloc, fails.read)?);
    let mut out = MemorySink::new(alloc, 1024, calls(alloc, fails.write)?)?;
    let mut err = MemorySink::new(alloc, 64, Vec::new(alloc))?;
    let words = words.as_slice();
    if !names_vote(words) {
        return Err(Fail::from("no vote"));
    }
    let status = vote_call(words, &mut telegrams, &mut out, &mut err);
    Ok(Ended { status, out, err })
}

/// A vote of these bodies, in which nothing fails.
fn votes_on(alloc: Global, words: &[&str], bodies: &[&str]) -> Result<Ended, Fail> {
    let bytes = frames(alloc, bodies)?;
    let fails = Fails {
        read: None,
        write: None,
    };
    votes(alloc, words, bytes, fails)
}

#[test]
fn gives_one_position_for_three_references(rt: HostRuntime) -> Result<(), Fail> {
    let alloc = rt.alloc();
    let ended = votes_on(alloc, &["vote", "-"], &FAR)?;
    let want = frames(alloc, &["POS,1000,104,0,0"])?;
    assert_eq!(rt; ended.status, RunStatus::Clear);
    assert_eq!(rt; ended.out.taken(), want.as_slice());
    Ok(())
}

#[test]
fn reports_a_reference_that_is_off(rt: HostRuntime) -> Result<(), Fail> {
    let ended = votes_on(rt.alloc(), &["vote", "-", "--report"], &FAR)?;
    let want = b"ALARM,1000,3\nVOTE,1,0,0\nEND\n";
    assert_eq!(rt; ended.out.taken(), want.as_slice());
    Ok(())
}

#[test]
fn gives_nothing_for_references_that_are_refused(rt: HostRuntime) -> Result<(), Fail> {
    let refused = ["REF,1000,1,0,0,0", "REF,1000,1,0,0,0", "REF,500,2,0,0,0"];
    let ended = votes_on(rt.alloc(), &["vote", "-"], &refused)?;
    assert_eq!(rt; ended.status, RunStatus::Clear);
    assert_eq!(rt; ended.out.taken(), b"".as_slice());
    Ok(())
}

#[test]
fn reports_references_that_are_refused(rt: HostRuntime) -> Result<(), Fail> {
    let refused = ["REF,1000,1,0,0,0", "REF,1000,1,0,0,0", "REF,500,2,0,0,0"];
    let ended = votes_on(rt.alloc(), &["vote", "--report", "-"], &refused)?;
    let want = b"REFUSED,1000,1,TWICE\nREFUSED,500,2,LATE\nVOTE,0,1,0\nEND\n";
    assert_eq!(rt; ended.out.taken(), want.as_slice());
    Ok(())
}

#[test]
fn passes_other_bodies_on_and_drops_what_is_no_reference(rt: HostRuntime) -> Result<(), Fail> {
    let alloc = rt.alloc();
    let ended = votes_on(alloc, &["vote", "-"], &["TIE,T1,CLOSE", "REF,1,4,0,0,0"])?;
    assert_eq!(rt; ended.out.taken(), b"$TIE,T1,CLOSE*6B\n".as_slice());
    Ok(())
}

#[test]
fn counts_what_is_dropped(rt: HostRuntime) -> Result<(), Fail> {
    let alloc = rt.alloc();
    let bodies = ["TIE,T1,CLOSE", "REF,1,4,0,0,0"];
    let ended = votes_on(alloc, &["vote", "-", "--report"], &bodies)?;
    assert_eq!(rt; ended.out.taken(), b"VOTE,0,0,1\nEND\n".as_slice());
    Ok(())
}

#[test]
fn clears_a_reference_that_comes_back(rt: HostRuntime) -> Result<(), Fail> {
    let bodies = [
        "REF,1,1,0,0,0",
        "REF,1,2,0,501,0",
        "REF,1,3,0,0,0",
        "REF,2,1,0,0,301",
        "REF,2,2,0,500,0",
        "REF,2,3,0,0,0",
    ];
    let ended = votes_on(rt.alloc(), &["vote", "-", "--report"], &bodies)?;
    let want = b"ALARM,1,2\nALARM,2,1\nCLEARED,2,2\nVOTE,2,0,0\nEND\n";
    assert_eq!(rt; ended.out.taken(), want.as_slice());
    Ok(())
}

#[test]
fn tells_a_read_fault_after_what_came_before_it(rt: HostRuntime) -> Result<(), Fail> {
    let alloc = rt.alloc();
    let bytes = frames(alloc, &["TIE,T1,CLOSE", "TIE,T1,OPEN"])?;
    let fails = Fails {
        read: Some(3),
        write: None,
    };
    let ended = votes(alloc, &["vote", "-"], bytes, fails)?;
    assert_eq!(rt; ended.status, RunStatus::ReadFault);
    assert_eq!(rt; ended.out.taken(), b"$TIE,T1,CLOSE*6B\n".as_slice());
    assert_eq!(rt; ended.err.taken(), b"dp: read fault\n".as_slice());
    Ok(())
}

#[test]
fn ends_at_a_write_fault(rt: HostRuntime) -> Result<(), Fail> {
    let alloc = rt.alloc();
    let bytes = frames(alloc, &["TIE,T1,CLOSE", "TIE,T1,OPEN", "TIE,T1,CLOSE"])?;
    let fails = Fails {
        read: None,
        write: Some(1),
    };
    let ended = votes(alloc, &["vote", "-"], bytes, fails)?;
    assert_eq!(rt; ended.status, RunStatus::WriteFault);
    assert_eq!(rt; ended.out.taken(), b"$TIE,T1,CLOSE*6B\n".as_slice());
    Ok(())
}

#[test]
fn refuses_other_words(rt: HostRuntime) -> Result<(), Fail> {
    let ended = votes_on(rt.alloc(), &["vote", "-", "--json"], &FAR)?;
    assert_eq!(rt; ended.status, RunStatus::Usage(3));
    assert_eq!(rt; ended.out.taken(), b"".as_slice());
    assert_eq!(rt; ended.err.taken(), b"dp: usage 3\n".as_slice());
    Ok(())
}
