//! Alarms that are raised, cleared and acknowledged.

use alarm_log::{Alarm, Alarms, Cause};
use std::test::Fail;

fn listed(alarms: &Alarms, place: usize) -> Option<Alarm> {
    if place < alarms.count() {
        Some(alarms.at(place))
    } else {
        None
    }
}

#[test]
fn a_full_ring_loses_its_oldest(rt: HostRuntime) -> Result<(), Fail> {
    let mut alarms = Alarms::new(rt.alloc())?;
    for group in 0..300 {
        alarms.raise(Cause::Consequence(group));
    }
    assert_eq!(rt; alarms.count(), 256);
    let numbered = |place| listed(&alarms, place).map(|alarm| alarm.number);
    assert_eq!(rt; numbered(0), Some(45));
    assert_eq!(rt; numbered(255), Some(300));
    assert!(rt; !alarms.is_active(Cause::Consequence(43)));
    assert!(rt; alarms.is_active(Cause::Consequence(44)));
    assert!(rt; !alarms.acknowledge(44));
    assert!(rt; alarms.acknowledge(45));
    assert!(rt; alarms.acknowledge(300));
    Ok(())
}

#[test]
fn an_alarm_is_acknowledged_once(rt: HostRuntime) -> Result<(), Fail> {
    let mut alarms = Alarms::new(rt.alloc())?;
    assert!(rt; !alarms.acknowledge(1));
    assert_eq!(rt; alarms.raise(Cause::Short), 1);
    assert_eq!(rt; alarms.raise(Cause::Short), 2);
    assert!(rt; alarms.acknowledge(1));
    assert!(rt; !alarms.acknowledge(1));
    assert!(rt; !alarms.acknowledge(3));
    let short = |number, acknowledged| Alarm {
        number,
        cause: Cause::Short,
        active: true,
        acknowledged,
    };
    assert_eq!(rt; listed(&alarms, 0), Some(short(1, true)));
    assert_eq!(rt; listed(&alarms, 1), Some(short(2, false)));
    assert_eq!(rt; listed(&alarms, 2), None);
    Ok(())
}

#[test]
fn a_cleared_cause_is_active_when_raised_again(rt: HostRuntime) -> Result<(), Fail> {
    let first = Cause::Consequence(0);
    let second = Cause::Consequence(1);
    let mut alarms = Alarms::new(rt.alloc())?;
    alarms.raise(first);
    alarms.raise(Cause::Short);
    alarms.raise(second);
    alarms.clear(first);
    assert!(rt; !alarms.is_active(first) && alarms.is_active(second));
    alarms.raise(first);
    alarms.raise(first);
    assert!(rt; alarms.is_active(first));
    alarms.clear_consequences();
    assert!(rt; !alarms.is_active(first) && !alarms.is_active(second));
    assert!(rt; alarms.is_active(Cause::Short));
    alarms.clear(Cause::Short);
    assert!(rt; !alarms.is_active(Cause::Short));
    assert!(rt; alarms.acknowledge(4));
    Ok(())
}
