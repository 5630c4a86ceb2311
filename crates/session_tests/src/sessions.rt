//! Sessions of the demo: what is answered, with which verdicts, commands and alarms.

use crate::memory::{bytes, nothing, replays};
use crate::texts::{WORDS, answers, held, push_frame, push_verdicts, switches};
use dp_io::{MemorySink, MemorySource};
use dp_words::RunStatus;
use std::test::Fail;

#[test]
fn an_empty_stream_is_analysed_as_the_plant_opens(rt: HostRuntime) -> Result<(), Fail> {
    switches(&rt, rt.alloc(), "", "", 0, 0)
}

#[test]
fn each_version_is_analysed_for_each_loss(rt: HostRuntime) -> Result<(), Fail> {
    let alloc = rt.alloc();
    let mut log = String::from_str(alloc, "O TIE,T1,CLOSE = VERSION,1\n")?;
    push_verdicts(&mut log, 1)?;
    log.push_str("O TIE,T1,CLOSE = SAME\n")?;
    let telegrams = "$TIE,T1,CLOSE*6B\n$TIE,T1,CLOSE*6B\n";
    switches(&rt, alloc, telegrams, log.as_str(), 1, 2)
}

#[test]
fn faulty_lines_and_telegrams_are_noted(rt: HostRuntime) -> Result<(), Fail> {
    let alloc = rt.alloc();
    let mut log = String::from_str(
        alloc,
        "C REJECTED,1 = NOTED\n\
         C REJECTED,2 = NOTED\n\
         O GEN,G9,RUN = UNKNOWN-NAME\n\
         C DAMAGED,3 = NOTED\n\
         O TIE,T1,CLOSE = VERSION,1\n",
    )?;
    push_verdicts(&mut log, 1)?;
    log.push_str("C DAMAGED,4 = NOTED\n")?;
    let telegrams = "$XYZ*5B\r\n$POS,1,2*4F\n$GEN,G9,RUN*7b\n\
                     $TIE,T1,CLOSE*6A\n$TIE,T1,CLOSE*6B\n$BRD*54";
    switches(&rt, alloc, telegrams, log.as_str(), 1, 6)
}

#[test]
fn the_board_shows_the_verdicts(rt: HostRuntime) -> Result<(), Fail> {
    let log = "O BRD = CELLS,0,0:HOLDS:CURRENT,0:HOLDS:CURRENT\n";
    switches(&rt, rt.alloc(), "$BRD*54\n", log, 0, 1)
}

#[test]
fn positions_are_answered_with_commands(rt: HostRuntime) -> Result<(), Fail> {
    let alloc = rt.alloc();
    let report = held(alloc, 1, 3)?;
    answers(
        &rt,
        alloc,
        "$POS,1000,-100,0,0*51\n$POS,2000,-80,0,0*6B\n$POS,1000,-100,0,0*51\n",
        "$CMD,1000,1,20,0,0,1,1*54\n\
         $THC,BOW1,0,0,1*05\n$THC,BOW2,0,0,1*06\n$THC,PORT,10,0,1*46\n$THC,STBD,10,0,1*5E\n\
         $CMD,2000,1,6,0,0,1,1*63\n\
         $THC,BOW1,0,0,1*05\n$THC,BOW2,0,0,1*06\n$THC,PORT,3,0,1*74\n$THC,STBD,3,0,1*6C\n",
        "C POS,1000,-100,0,0 = COMMANDED,1,20,0,0,1,1,0,1,0,0,0,0,10,0,10,0\n\
         S PUBLISH,1,GA,HOLDS,1,19,0,0,0,50,0,0,380,-50 = SHOWN\n\
         S PUBLISH,1,GB,HOLDS,0,2,0,-5,0,0,40,5,0,0 = SHOWN\n\
         C POS,2000,-80,0,0 = COMMANDED,1,6,0,0,1,1,0,1,0,0,0,0,3,0,3,0\n\
         C POS,1000,-100,0,0 = LATE,2000\n",
        report.as_str(),
        RunStatus::Clear,
    )
}

#[test]
fn a_loss_that_is_not_met_raises_an_alarm(rt: HostRuntime) -> Result<(), Fail> {
    let alloc = rt.alloc();
    let mut telegrams = String::new(alloc);
    for body in [
        "MOD,MANUAL",
        "MAN,0,381,0",
        "POS,1000,0,0,0",
        "ACK,1",
        "ACK,1",
    ] {
        push_frame(&mut telegrams, body)?;
    }
    answers(
        &rt,
        alloc,
        telegrams.as_str(),
        "$CMD,1000,1,0,381,0,1,1*6C\n\
         $THC,BOW1,0,3175,36*01\n$THC,BOW2,0,3175,36*02\n\
         $THC,PORT,2667,3683,36*48\n$THC,STBD,-2667,3683,36*7D\n",
        "O MOD,MANUAL = TAKEN\n\
         O MAN,0,381,0 = TAKEN\n\
         C POS,1000,0,0,0 = COMMANDED,1,0,381,0,1,1,0,36,0,3175,0,3175,2667,3683,-2667,3683\n\
         S PUBLISH,1,GA,LOST,2,100,400,1,100,400,1 = SHOWN\n\
         S PUBLISH,1,GB,HOLDS,0,2,0,381,0,0,0,381,0,0 = SHOWN\n\
         O ACK,1 = TAKEN\n\
         O ACK,1 = NO-SUCH-ALARM\n",
        "REPORT,1,5\nGROUP,GA,LOST\nGROUP,GB,HOLDS\nALARM,1,CONSEQUENCE,GA,ACTIVE,ACKED\nEND\n",
        RunStatus::LossFound,
    )
}

#[test]
fn barred_pieces_and_orders(rt: HostRuntime) -> Result<(), Fail> {
    let alloc = rt.alloc();
    let mut telegrams = String::new(alloc);
    for body in [
        "BAR,PORT,2,BAR",
        "BAR,NONE,0,BAR",
        "BAR,PORT,1,FREE",
        "BAR,PORT,1,BAR",
        "MOD,MANUAL",
        "MAN,10,-20,300",
        "SET,0,0,0",
        "WND,5,100,9000",
    ] {
        push_frame(&mut telegrams, body)?;
    }
    let mut log = String::from_str(
        alloc,
        "O BAR,PORT,2,BAR = NO-PIECE\n\
         O BAR,NONE,0,BAR = UNKNOWN-NAME\n\
         O BAR,PORT,1,FREE = SAME\n\
         O BAR,PORT,1,BAR = VERSION,1\n",
    )?;
    push_verdicts(&mut log, 1)?;
    log.push_str(
        "O MOD,MANUAL = TAKEN\n\
         O MAN,10,-20,300 = TAKEN\n\
         O SET,0,0,0 = WRONG-MODE\n\
         C WND,5,100,9000 = TAKEN\n",
    )?;
    switches(&rt, alloc, telegrams.as_str(), log.as_str(), 1, 8)
}

/// With the azimuths out nothing gives thrust ahead.
#[test]
fn a_demand_that_is_not_given_raises_an_alarm(rt: HostRuntime) -> Result<(), Fail> {
    let alloc = rt.alloc();
    let mut telegrams = String::new(alloc);
    for body in [
        "THR,PORT,OUT",
        "THR,STBD,OUT",
        "MOD,MANUAL",
        "MAN,100,0,0",
        "POS,1000,0,0,0",
    ] {
        push_frame(&mut telegrams, body)?;
    }
    let source = MemorySource::new(bytes(alloc, telegrams.as_str())?, 7, Vec::new(alloc));
    let sink = MemorySink::new(alloc, 4096, Vec::new(alloc))?;
    let ended = replays(alloc, &WORDS, nothing(alloc), source, sink)?;
    assert_eq!(rt; ended.status, RunStatus::LossFound);
    let report = b"REPORT,3,5\nGROUP,GA,LOST\nGROUP,GB,LOST\n\
        ALARM,1,SHORT,ACTIVE,UNACKED\n\
        ALARM,2,CONSEQUENCE,GA,ACTIVE,UNACKED\n\
        ALARM,3,CONSEQUENCE,GB,ACTIVE,UNACKED\nEND\n"
        .as_slice();
    assert!(rt; ended.out.taken().ends_with(report));
    Ok(())
}
