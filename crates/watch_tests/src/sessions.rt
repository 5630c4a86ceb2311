//! Sessions over two streams.

use crate::gates::{BothLoops, HeldWorker};
use crate::memory::{runs, source};
use dp_io::{MemorySource, NoGate};
use dp_words::RunStatus;
use plant_model::limits::MOST_STREAM_BYTES;
use std::test::Fail;

#[test]
fn one_worker_analyses_each_version(rt: HostRuntime) -> Result<(), Fail> {
    let alloc = rt.alloc();
    let operators = source(alloc, "$TIE,T1,CLOSE*6B\n$TIE,T1,CLOSE*6B\n")?;
    let ended = runs(&rt, alloc, "1", source(alloc, "")?, operators, &NoGate)?;
    assert_eq!(rt; ended.status, RunStatus::Clear);
    assert_eq!(rt; ended.count("O TIE,T1,CLOSE = VERSION,1"), 1);
    assert_eq!(rt; ended.count("O TIE,T1,CLOSE = SAME"), 1);
    assert_eq!(rt; ended.count("REPORT,1,2"), 1);
    assert_eq!(rt; ended.count("GROUP,GA,HOLDS"), 1);
    assert_eq!(rt; ended.count("GROUP,GB,HOLDS"), 1);
    assert_eq!(rt; ended.count("S CLOSE = TAKEN"), 1);
    Ok(())
}

#[test]
fn telegrams_on_the_other_stream_are_stray(rt: HostRuntime) -> Result<(), Fail> {
    let alloc = rt.alloc();
    let sensors = source(alloc, "$POS,1000,-100,0,0*51\n$TIE,T1,CLOSE*6B\n")?;
    let operators = source(alloc, "$POS,1000,-100,0,0*51\n$BRD*54")?;
    let ended = runs(&rt, alloc, "2", sensors, operators, &NoGate)?;
    assert_eq!(rt; ended.status, RunStatus::Clear);
    assert_eq!(rt; ended.count("C STRAY = NOTED"), 1);
    assert_eq!(rt; ended.count("O STRAY = NOTED"), 1);
    assert_eq!(rt; ended.count("O DAMAGED,4 = NOTED"), 1);
    assert_eq!(rt; ended.count("$CMD,1000,1,20,0,0,1,1*54"), 1);
    assert_eq!(rt; ended.count("REPORT,1,4"), 1);
    Ok(())
}

#[test]
fn a_worker_that_is_held_back_is_superseded(rt: HostRuntime) -> Result<(), Fail> {
    let alloc = rt.alloc();
    let operators = source(alloc, "$TIE,T1,CLOSE*6B\n")?;
    let gate = HeldWorker::new();
    let ended = runs(&rt, alloc, "2", source(alloc, "")?, operators, &gate)?;
    assert!(rt; gate.patience.was_enough());
    assert_eq!(rt; ended.status, RunStatus::Clear);
    assert_eq!(rt; ended.count("O TIE,T1,CLOSE = VERSION,1"), 1);
    assert_eq!(rt; ended.count(" = SUPERSEDED,1"), 1);
    assert_eq!(rt; ended.count(" = SHOWN"), 3);
    Ok(())
}

#[test]
fn the_loops_run_side_by_side(rt: HostRuntime) -> Result<(), Fail> {
    let alloc = rt.alloc();
    let sensors = source(alloc, "$POS,1000,-100,0,0*51\n")?;
    let operators = source(alloc, "$TIE,T1,CLOSE*6B\n")?;
    let gate = BothLoops::new();
    let ended = runs(&rt, alloc, "2", sensors, operators, &gate)?;
    assert!(rt; gate.patience.was_enough());
    assert_eq!(rt; ended.status, RunStatus::Clear);
    assert_eq!(rt; ended.count("REPORT,2,2"), 1);
    Ok(())
}

#[test]
fn sensors_that_are_too_long_dont_stop_the_operators(rt: HostRuntime) -> Result<(), Fail> {
    let alloc = rt.alloc();
    let mut long = Vec::new(alloc);
    for _ in 0..=MOST_STREAM_BYTES {
        long.push(b'A')?;
    }
    let sensors = MemorySource::new(long, 4096, Vec::new(alloc));
    let operators = source(alloc, "$TIE,T1,CLOSE*6B\n")?;
    let ended = runs(&rt, alloc, "2", sensors, operators, &NoGate)?;
    assert_eq!(rt; ended.status, RunStatus::StreamTooLong);
    assert_eq!(rt; ended.count("O TIE,T1,CLOSE = VERSION,1"), 1);
    assert_eq!(rt; ended.count("REPORT,1,1"), 1);
    Ok(())
}
