//! The alarms of what happens.

use super::*;
use alarm_log::{Alarm, Cause};

fn alarm_at(core: &Core, place: usize) -> Option<Alarm> {
    if place < core.alarms().count() {
        Some(core.alarms().at(place))
    } else {
        None
    }
}

const LESS: [Answer; 1] = [(b"MAN,0,380,0", Reply::Taken)];

const SHORT: Alarm = Alarm {
    number: 1,
    cause: Cause::Short,
    active: true,
    acknowledged: false,
};

#[test]
fn too_great_a_demand_raises_an_alarm(rt: HostRuntime) -> Result<(), Fail> {
    let mut core = overloaded(rt.alloc())?;
    assert_eq!(rt; alarm_at(&core, 0), Some(SHORT));
    assert_eq!(rt; first_other(&mut core, &LESS), None);
    assert_eq!(rt;
        commanded(&mut core, b"POS,2000,0,0,0"),
        Some((2, 0, 380, 0))
    );
    let cleared = Alarm {
        active: false,
        ..SHORT
    };
    assert_eq!(rt; alarm_at(&core, 0), Some(cleared));
    assert_eq!(rt; core.alarms().count(), 1);
    Ok(())
}

const CONSEQUENCE: Alarm = Alarm {
    number: 2,
    cause: Cause::Consequence(0),
    active: true,
    acknowledged: false,
};

const ACKNOWLEDGED: [Answer; 2] = [(b"ACK,2", Reply::Taken), (b"ACK,2", Reply::NoSuchAlarm)];

#[test]
fn a_demand_that_a_loss_leaves_unmet_raises_an_alarm(rt: HostRuntime) -> Result<(), Fail> {
    let mut core = overloaded(rt.alloc())?;
    assert!(rt; is_judged(&mut core, 1, lost(), &Reply::Shown));
    assert_eq!(rt; alarm_at(&core, 1), Some(CONSEQUENCE));
    assert_eq!(rt; first_other(&mut core, &ACKNOWLEDGED), None);
    let acknowledged = Alarm {
        acknowledged: true,
        ..CONSEQUENCE
    };
    assert_eq!(rt; alarm_at(&core, 1), Some(acknowledged));
    Ok(())
}

#[test]
fn a_new_version_clears_the_consequences(rt: HostRuntime) -> Result<(), Fail> {
    let mut core = overloaded(rt.alloc())?;
    assert!(rt; is_judged(&mut core, 1, lost(), &Reply::Shown));
    assert_eq!(rt; first_other(&mut core, &CLOSED), None);
    let cleared = Alarm {
        active: false,
        ..CONSEQUENCE
    };
    assert_eq!(rt; alarm_at(&core, 1), Some(cleared));
    assert_eq!(rt; alarm_at(&core, 0), Some(SHORT));
    Ok(())
}
