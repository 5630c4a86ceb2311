//! Where the rays of demands leave sums that are known. The portal gives up on flat sums, and `exit`
//! answers on them by its candidates.
ghost use Rattle.wrench_geometry.specs.Wrenches.{IsDemandVector};

use crate::sums::{add, after_a_loss, at, one_tunnel, square, two_tunnels, whole};
use exit_point::{ExitWeights, exit, portal};
use std::test::Fail;
use wrench_geometry::{Sums, Vec3};

/// The exit of a demand that isn't zero.
fn exit_of(sums: &Sums, d: Vec3) -> Option<ExitWeights>
    requires { IsDemandVector d }
{
    if d.x == 0 && d.y == 0 && d.z == 0 {
        return None;
    }
    Some(exit(sums, d))
}

/// Whether the exit is at so many times the demand: `top / bottom` times.
fn is_at(exit: &ExitWeights, top: i64, bottom: i64) -> bool {
    let (t, q) = (i128::from(exit.t), i128::from(exit.q));
    t.checked_mul(i128::from(bottom)) == q.checked_mul(i128::from(top))
}

#[test]
fn a_demand_on_the_border(rt: HostRuntime) -> Result<(), Fail> {
    let exit = portal::exit(&after_a_loss(), at(0, 380, 0)).ok_or("gave up")?;
    assert_eq!(rt; exit.t, exit.q);
    assert_eq!(rt; exit.cut.w, at(100, 400, 1));
    Ok(())
}

#[test]
fn the_weights_of_a_demand_on_the_border(rt: HostRuntime) -> Result<(), Fail> {
    let exit = exit_of(&after_a_loss(), at(0, 380, 0)).ok_or("zero")?;
    let [_, bow, _, stern] = exit.weights.as_slice() else {
        return Err(Fail::from("lists"));
    };
    // the thrusts (0, 200) and (0, 180), as weights of q
    assert_eq!(rt; bow.as_slice(), [0, exit.q, 0].as_slice());
    let abeam = stern.as_slice().get(1).ok_or("no weight")?;
    let (abeam, whole) = (i128::from(*abeam), i128::from(exit.q));
    assert_eq!(rt; abeam.checked_mul(20), whole.checked_mul(9));
    Ok(())
}

#[test]
fn a_demand_that_nothing_meets(rt: HostRuntime) -> Result<(), Fail> {
    let mut none = Sums::new();
    add(&mut none, (400, 0), &[]);
    let exit = portal::exit(&none, at(1, 0, 0)).ok_or("gave up")?;
    assert_eq!(rt; (exit.cut.w, exit.cut.top, exit.t), (at(1, 0, 0), 0, 0));
    Ok(())
}

#[test]
fn demands_of_a_whole_plant(rt: HostRuntime) -> Result<(), Fail> {
    let cases = [
        (at(0, 380, 0), at(0, 500, 1), 216, 95),
        (at(100, 100, 0), at(900, 400, -1), 28, 5),
        (at(500, -30, 10_000), at(100, -400, 1), 11, 9),
        (at(1, 0, 0), at(1, 0, 0), 800, 1),
        (at(0, -1, 0), at(100, -400, 1), 220, 1),
    ];
    let sums = whole();
    for (d, w, top, bottom) in cases {
        let exit = portal::exit(&sums, d).ok_or("gave up")?;
        assert_eq!(rt; exit.cut.w, w);
        assert!(rt; is_at(&exit, top, bottom));
    }
    Ok(())
}

#[test]
fn the_farthest_demand_on_twelve_thrusters(rt: HostRuntime) -> Result<(), Fail> {
    let exit = portal::exit(&square(0), at(24_000, 24_000, 76_800_000)).ok_or("gave up")?;
    assert_eq!(rt; exit.cut.w, at(1_600, 1_600, 1));
    Ok(())
}

#[test]
fn the_portal_gives_up_on_one_tunnel(rt: HostRuntime) {
    assert!(rt; portal::exit(&one_tunnel(), at(0, 380, 0)).is_none());
}

#[test]
fn one_tunnel_is_answered(rt: HostRuntime) -> Result<(), Fail> {
    let off = exit_of(&one_tunnel(), at(0, 380, 0)).ok_or("zero")?;
    assert_eq!(rt; (off.t, off.cut.top), (0, 0));
    let along = exit_of(&one_tunnel(), at(0, 100, 36_000)).ok_or("zero")?;
    assert!(rt; is_at(&along, 2, 1));
    Ok(())
}

#[test]
fn two_tunnels_are_answered(rt: HostRuntime) -> Result<(), Fail> {
    let exit = exit_of(&two_tunnels(), at(0, 100, 38_000)).ok_or("zero")?;
    assert!(rt; is_at(&exit, 4, 1));
    Ok(())
}

#[test]
fn no_thruster_is_answered(rt: HostRuntime) -> Result<(), Fail> {
    let exit = exit_of(&Sums::new(), at(1, 0, 0)).ok_or("zero")?;
    assert_eq!(rt; exit.t, 0);
    let mut four_out = Sums::new();
    for _ in 0..4 {
        add(&mut four_out, (400, 0), &[]);
    }
    let exit = exit_of(&four_out, at(1, 0, 0)).ok_or("zero")?;
    assert_eq!(rt; (exit.cut.w, exit.t), (at(1, 0, 0), 0));
    Ok(())
}
