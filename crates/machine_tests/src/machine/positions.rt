//! Positions and winds, and the orders of an operator.

use super::*;

const AFTER_A_POSITION: [Answer; 1] = [(b"POS,1000,-100,0,0", Reply::Late { last: 1000 })];

#[test]
fn positions_move_the_demand_past_the_band(rt: HostRuntime) -> Result<(), Fail> {
    let mut core = demo_core(rt.alloc(), 10)?;
    assert_eq!(rt;
        commanded(&mut core, b"POS,1000,-100,0,0"),
        Some((1, 20, 0, 0))
    );
    assert_eq!(rt; first_other(&mut core, &AFTER_A_POSITION), None);
    assert_eq!(rt;
        commanded(&mut core, b"POS,2000,-80,0,0"),
        Some((1, 6, 0, 0))
    );
    assert_eq!(rt; core.latest().demand.x, 20);
    assert_eq!(rt; first_other(&mut core, &CLOSED), None);
    assert_eq!(rt; core.latest().demand.x, 6);
    Ok(())
}

const WIND: [Answer; 2] = [
    (b"WND,1000,120,9000", Reply::Taken),
    (b"WND,999,120,0", Reply::Late { last: 1000 }),
];

#[test]
fn the_wind_is_taken_off_the_demand(rt: HostRuntime) -> Result<(), Fail> {
    let mut core = demo_core(rt.alloc(), 10)?;
    assert_eq!(rt; first_other(&mut core, &WIND), None);
    assert_eq!(rt;
        commanded(&mut core, b"POS,1000,0,0,0"),
        Some((1, 0, 72, 0))
    );
    Ok(())
}

const SET_POINT: [Answer; 1] = [(b"SET,100,0,9000", Reply::Taken)];

#[test]
fn the_controller_steers_for_the_set_point(rt: HostRuntime) -> Result<(), Fail> {
    let mut core = demo_core(rt.alloc(), 10)?;
    assert_eq!(rt; first_other(&mut core, &SET_POINT), None);
    assert_eq!(rt;
        commanded(&mut core, b"POS,1000,0,0,9000"),
        Some((1, 0, -20, 0))
    );
    Ok(())
}

const WRONG_MODES: [Answer; 5] = [
    (b"ACK,1", Reply::NoSuchAlarm),
    (b"MAN,0,380,0", Reply::WrongMode),
    (b"MOD,AUTO", Reply::Same),
    (b"MOD,MANUAL", Reply::Taken),
    (b"SET,0,0,0", Reply::WrongMode),
];

#[test]
fn a_mode_takes_its_own_orders(rt: HostRuntime) -> Result<(), Fail> {
    let mut core = demo_core(rt.alloc(), 10)?;
    assert_eq!(rt; first_other(&mut core, &WRONG_MODES), None);
    assert_eq!(rt;
        commanded(&mut core, b"POS,1000,-100,0,0"),
        Some((0, 0, 0, 0))
    );
    Ok(())
}

const AUTOMATIC: [Answer; 1] = [(b"MOD,AUTO", Reply::Taken)];

#[test]
fn the_operators_demand_stands_in_manual_mode(rt: HostRuntime) -> Result<(), Fail> {
    let mut core = demo_core(rt.alloc(), 10)?;
    assert_eq!(rt; first_other(&mut core, &MANUAL), None);
    assert_eq!(rt;
        commanded(&mut core, b"POS,2000,-100,0,0"),
        Some((1, 0, 380, 0))
    );
    assert_eq!(rt; first_other(&mut core, &AUTOMATIC), None);
    // No sum and no rate: the fixes of manual mode aren't the controller's.
    assert_eq!(rt;
        commanded(&mut core, b"POS,3000,-100,0,0"),
        Some((2, 20, 0, 0))
    );
    Ok(())
}
