//! Reports: what the board shows of a group, and the alarms that are told.

use super::*;
use log_text::report_text;

/// The reply to a verdict of version 1 that the demand is lost with the group.
fn shown_lost(core: &mut Core, group: u32) -> Option<Reply> {
    published(core, 1, group, lost())
}

const ACKNOWLEDGED: [Answer; 1] = [(b"ACK,2", Reply::Taken)];

/// The demand of 2000 kN is lost with each group, and the alarm of the first is acknowledged.
fn with_losses(alloc: Global) -> Result<Core, Fail> {
    let mut core = overloaded(alloc)?;
    for group in 0..2 {
        if shown_lost(&mut core, group) != Some(Reply::Shown) {
            return Err("not shown".into());
        }
    }
    if first_other(&mut core, &ACKNOWLEDGED).is_some() {
        return Err("not acknowledged".into());
    }
    Ok(core)
}

#[test]
fn tells_alarms_that_are_active_or_unacknowledged(rt: HostRuntime) -> Result<(), Fail> {
    let mut core = with_losses(rt.alloc())?;
    assert_eq!(rt;
        report_text(rt.alloc(), &core)?.as_str(),
        "REPORT,1,4\n\
         GROUP,GA,LOST\n\
         GROUP,GB,LOST\n\
         ALARM,1,SHORT,ACTIVE,UNACKED\n\
         ALARM,2,CONSEQUENCE,GA,ACTIVE,ACKED\n\
         ALARM,3,CONSEQUENCE,GB,ACTIVE,UNACKED\n\
         END\n"
    );
    // The next version clears both consequences, of which the acknowledged one isn't told any more.
    assert_eq!(rt; first_other(&mut core, &CLOSED), None);
    assert_eq!(rt;
        report_text(rt.alloc(), &core)?.as_str(),
        "REPORT,2,5\n\
         GROUP,GA,SUPERSEDED\n\
         GROUP,GB,SUPERSEDED\n\
         ALARM,1,SHORT,ACTIVE,UNACKED\n\
         ALARM,3,CONSEQUENCE,GB,CLEARED,UNACKED\n\
         END\n"
    );
    Ok(())
}

#[test]
fn tells_what_the_board_shows(rt: HostRuntime) -> Result<(), Fail> {
    let mut core = demo_core(rt.alloc(), 10)?;
    assert_eq!(rt;
        published(&mut core, 0, 1, holds([REST; 4])),
        Some(Reply::Shown)
    );
    assert_eq!(rt;
        report_text(rt.alloc(), &core)?.as_str(),
        "REPORT,0,0\nGROUP,GA,PENDING\nGROUP,GB,HOLDS\nEND\n"
    );
    Ok(())
}
