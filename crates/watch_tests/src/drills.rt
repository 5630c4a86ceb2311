//! Drills.

use crate::gates::CountedItems;
use crate::memory::drills;
use dp_io::NoGate;
use dp_words::RunStatus;
use std::str;
use std::test::Fail;

/// What a drill of seed 7 and 20,000 steps comes to, by a model in another language.
const DRILL_7_20000: &str = "DRILL,7,20000\nSENSORS,20000,17637,346\nOPERATORS,200,102,98\n\
    STATUS,1011,11,1\nDEMAND,-67,-40,0\nEND\n";

#[test]
fn small_drills(rt: HostRuntime) -> Result<(), Fail> {
    let alloc = rt.alloc();
    for (size, wanted) in [
        (
            "1",
            "DRILL,0,1\nSENSORS,1,0,0\nOPERATORS,0,0,0\nSTATUS,1111,11,0\nDEMAND,0,0,0\nEND\n",
        ),
        (
            "2",
            "DRILL,0,2\nSENSORS,2,1,0\nOPERATORS,0,0,0\nSTATUS,1111,11,0\nDEMAND,-22,-25,0\nEND\n",
        ),
    ] {
        let ended = drills(&rt, alloc, "0", size, &NoGate)?;
        assert_eq!(rt; ended.status, RunStatus::Clear);
        assert_eq!(rt; str::from_utf8(ended.text()), Ok(wanted));
    }
    Ok(())
}

/// A drill runs a session: its loops are told of each of their items, and they wait for a worker.
#[test]
fn a_drill_twice(rt: HostRuntime) -> Result<(), Fail> {
    let alloc = rt.alloc();
    for _ in 0..2 {
        let gate = CountedItems::new();
        let ended = drills(&rt, alloc, "7", "20000", &gate)?;
        assert!(rt; gate.patience.was_enough());
        assert_eq!(rt; gate.counts(), (20_000, 200));
        assert_eq!(rt; ended.status, RunStatus::Clear);
        assert_eq!(rt; str::from_utf8(ended.text()), Ok(DRILL_7_20000));
    }
    Ok(())
}

#[test]
fn words_without_a_drill(rt: HostRuntime) -> Result<(), Fail> {
    let ended = drills(&rt, rt.alloc(), "0", "25001", &NoGate)?;
    assert_eq!(rt; ended.status, RunStatus::Usage(3));
    assert!(rt; ended.text().is_empty());
    Ok(())
}
