//! Texts that are logs of the demo plant, or all that its sessions write, and texts that are neither.
use allocator::Direct;
use log_audit::{
    MOST_LINES, Verdict, replies_are_alike, twins_stand_alike, verdict_on, verdicts_are_one,
};
use plant_model::demo::demo;
use std::alloc::Global;
use std::process::Abort;
use std::test::Fail;

/// A log of a session in which nothing happens.
const IDLE: &str = "LOG,1,DEMO
S PUBLISH,0,GA,HOLDS,0,1,0,0,0,0,0,0,0,0 = SHOWN
S PUBLISH,0,GB,HOLDS,0,1,0,0,0,0,0,0,0,0 = SHOWN
S CLOSE = TAKEN
";

fn verdict(rt: &impl Abort, alloc: Global, text: &str) -> Result<Verdict, Fail> {
    assert!(rt; text.len() <= MOST_LINES as usize);
    Ok(verdict_on(alloc, demo(), false, Direct, text.as_bytes())?)
}

fn session_verdict(rt: &impl Abort, alloc: Global, text: &str) -> Result<Verdict, Fail> {
    assert!(rt; text.len() <= MOST_LINES as usize);
    Ok(verdict_on(alloc, demo(), true, Direct, text.as_bytes())?)
}

#[test]
fn takes_a_log(rt: HostRuntime) -> Result<(), Fail> {
    let found = verdict(&rt, rt.alloc(), IDLE)?;
    assert_eq!(rt; found, Verdict::Legal { entries: 3 });
    Ok(())
}

#[test]
fn takes_the_front_of_a_log(rt: HostRuntime) -> Result<(), Fail> {
    let found = verdict(&rt, rt.alloc(), "LOG,1,DEMO\n")?;
    assert_eq!(rt; found, Verdict::Legal { entries: 0 });
    Ok(())
}

#[test]
fn names_the_first_bad_line(rt: HostRuntime) -> Result<(), Fail> {
    let alloc = rt.alloc();
    for (text, line) in [
        ("", 1),
        ("\n", 1),
        ("LOG,1,DEMO", 1),
        ("LOG,1,DEMO\r\n", 1),
        ("LOG,1,OTHER\nS CLOSE = TAKEN\n", 1),
        ("LOG,1,DEMO\nS CLOSE = TAKEN", 2),
        ("LOG,1,DEMO\nS CLOSE = SAME\n", 2),
        ("LOG,1,DEMO\nS CLOSE = TAKEN\nS CLOSE = TAKEN\n", 3),
        ("LOG,1,DEMO\nS CLOSE = TAKEN\n\n", 3),
    ] {
        let found = verdict(&rt, alloc, text)?;
        assert_eq!(rt; found, Verdict::NotALog { line }, "{text}");
    }
    Ok(())
}

#[test]
fn recomputes_each_reply(rt: HostRuntime) -> Result<(), Fail> {
    let alloc = rt.alloc();
    let twice = IDLE.replacen(
        alloc,
        "GB,HOLDS,0,1,0,0,0,0,0,0,0,0 = SHOWN",
        "GB,HOLDS,0,1,0,0,0,0,0,0,0,0 = ALREADY",
        1,
    )?;
    let found = verdict(&rt, alloc, twice.as_str())?;
    assert_eq!(rt; found, Verdict::NotALog { line: 3 });
    let apart = IDLE.replacen(alloc, "GA,HOLDS,0,1,0,0", "GA,HOLDS,0,1,0,1", 1)?;
    let found = verdict(&rt, alloc, apart.as_str())?;
    assert_eq!(rt; found, Verdict::NotALog { line: 2 });
    Ok(())
}

/// A log up to a command.
const COMMANDED: &str = "LOG,1,DEMO
S PUBLISH,0,GA,HOLDS,0,1,0,0,0,0,0,0,0,0 = SHOWN
S PUBLISH,0,GB,HOLDS,0,1,0,0,0,0,0,0,0,0 = SHOWN
C WND,1000,50,0 = TAKEN
C POS,1000,-100,0,0 = COMMANDED,1,27,0,0,1,1,0,2,0,0,0,0,27,0,27,0
";

#[test]
fn takes_other_thrusts_that_give_the_same(rt: HostRuntime) -> Result<(), Fail> {
    let alloc = rt.alloc();
    let found = verdict(&rt, alloc, COMMANDED)?;
    assert_eq!(rt; found, Verdict::Legal { entries: 4 });
    let twice = COMMANDED.replacen(alloc, "0,2,0,0,0,0,27,0,27,0", "0,4,0,0,0,0,54,0,54,0", 1)?;
    let found = verdict(&rt, alloc, twice.as_str())?;
    assert_eq!(rt; found, Verdict::Legal { entries: 4 });
    for other in [
        "0,2,0,0,0,0,27,0,28,0",
        "0,2,0,0,0,0,27,0",
        "0,-2,0,0,0,0,-27,0,-27,0",
        "1,2,0,0,0,0,27,0,27,0",
    ] {
        let changed = COMMANDED.replacen(alloc, "0,2,0,0,0,0,27,0,27,0", other, 1)?;
        let found = verdict(&rt, alloc, changed.as_str())?;
        assert_eq!(rt; found, Verdict::NotALog { line: 5 }, "{other}");
    }
    Ok(())
}

/// All that a session writes in which nothing happens.
const IDLE_SESSION: &str = "LOG,1,DEMO
S PUBLISH,0,GA,HOLDS,0,1,0,0,0,0,0,0,0,0 = SHOWN
S PUBLISH,0,GB,HOLDS,0,1,0,0,0,0,0,0,0,0 = SHOWN
S CLOSE = TAKEN
REPORT,0,0
GROUP,GA,HOLDS
GROUP,GB,HOLDS
END
";

/// All that is written of the history of `COMMANDED`.
const COMMANDED_SESSION: &str = "$CMD,1000,1,27,0,0,1,1*53
$THC,BOW1,0,0,2*06
$THC,BOW2,0,0,2*05
$THC,PORT,27,0,2*41
$THC,STBD,27,0,2*59
LOG,1,DEMO
S PUBLISH,0,GA,HOLDS,0,1,0,0,0,0,0,0,0,0 = SHOWN
S PUBLISH,0,GB,HOLDS,0,1,0,0,0,0,0,0,0,0 = SHOWN
C WND,1000,50,0 = TAKEN
C POS,1000,-100,0,0 = COMMANDED,1,27,0,0,1,1,0,2,0,0,0,0,27,0,27,0
REPORT,1,2
GROUP,GA,SUPERSEDED
GROUP,GB,SUPERSEDED
END
";

#[test]
fn takes_what_a_session_writes(rt: HostRuntime) -> Result<(), Fail> {
    let alloc = rt.alloc();
    let found = session_verdict(&rt, alloc, IDLE_SESSION)?;
    assert_eq!(rt; found, Verdict::Legal { entries: 3 });
    let found = session_verdict(&rt, alloc, COMMANDED_SESSION)?;
    assert_eq!(rt; found, Verdict::Legal { entries: 4 });
    let found = verdict(&rt, alloc, IDLE_SESSION)?;
    assert_eq!(rt; found, Verdict::NotALog { line: 5 });
    Ok(())
}

#[test]
fn names_the_first_bad_line_of_a_session(rt: HostRuntime) -> Result<(), Fail> {
    let alloc = rt.alloc();
    for (text, line) in [
        ("", 1),
        ("\n\nlog", 3),
        ("LOG,2,DEMO\n", 1),
        ("\nLOG,1,OTHER\n", 2),
        ("LOG,1,DEMO\n", 2),
        ("LOG,1,DEMO\nS CLOSE = TAKEN", 2),
        ("LOG,1,DEMO\nREPORT,0,1\n", 2),
        ("LOG,1,DEMO\nREPORT,0,0\nGROUP,GA,PENDING\n", 4),
        ("LOG,1,DEMO\nREPORT,0,0\nS CLOSE = TAKEN\n", 3),
        (
            "LOG,1,DEMO\nREPORT,0,0\nGROUP,GA,PENDING\nGROUP,GB,PENDING\nEND\n\n",
            6,
        ),
        (
            "LOG,1,DEMO\nREPORT,0,0\nGROUP,GA,PENDING\nGROUP,GB,PENDING\nEND",
            5,
        ),
        (
            "x\nLOG,1,DEMO\nREPORT,0,0\nGROUP,GA,PENDING\nGROUP,GB,PENDING\nEND\n",
            1,
        ),
    ] {
        let found = session_verdict(&rt, alloc, text)?;
        assert_eq!(rt; found, Verdict::NotALog { line }, "{text}");
    }
    Ok(())
}

#[test]
fn compares_frames_last(rt: HostRuntime) -> Result<(), Fail> {
    let alloc = rt.alloc();
    for (old, new, line) in [
        ("BOW1,0,0,2*06", "BOW1,1,0,2*07", 2),
        ("$THC,STBD,27,0,2*59\n", "", 5),
        ("LOG,1", "$THC,STBD,27,0,2*59\nLOG,1", 6),
        ("$THC,BOW2", "THC,BOW2", 3),
        ("GA,SUPERSEDED", "GA,HOLDS", 12),
        ("WND,1000,50,0 = TAKEN", "WND,1000,50,0 = SAME", 9),
    ] {
        let changed = COMMANDED_SESSION.replacen(alloc, old, new, 1)?;
        let found = session_verdict(&rt, alloc, changed.as_str())?;
        assert_eq!(rt; found, Verdict::NotALog { line }, "{new}");
    }
    Ok(())
}

#[test]
fn states_its_laws() {
    twins_stand_alike();
    replies_are_alike();
    verdicts_are_one(&demo());
}
