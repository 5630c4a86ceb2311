//! Allocations of demands to the demo plant.
ghost use Rattle.plant_model.specs.declared.limits.TheConstants.{MOST_FORCE, MOST_MOMENT};
ghost use Rattle.plant_model.specs.Numbers.{IsWithin};
ghost use Rattle.plant_model.specs.Versions.{IsDemand};

use allocator::Direct;
use certificate::{Outcome, check};
use dp_num::Fraction;
use plant_core::{Allocate, Allocation};
use plant_model::demo::demo;
use plant_model::limits::{MOST_THRUSTERS, MOST_TIES};
use plant_model::status::{Loss, Status};
use plant_model::thrust::Thrust;
use plant_model::wrench::Wrench;

/// All thrusters of the demo plant are selected, its generators run, and its tie is open.
const ALL: Status = Status {
    selected: [
        true, true, true, true, false, false, false, false, false, false, false, false,
    ],
    running: [true, true, false, false, false, false, false, false],
    closed: [false; MOST_TIES],
    barred: [0; MOST_THRUSTERS],
};

const BOW2_AND_STBD: Status = Status {
    selected: [
        false, true, false, true, false, false, false, false, false, false, false, false,
    ],
    ..ALL
};

const TUNNELS: Status = Status {
    selected: [
        true, true, false, false, false, false, false, false, false, false, false, false,
    ],
    ..ALL
};

const NONE: Status = Status {
    selected: [false; MOST_THRUSTERS],
    ..ALL
};

/// The only piece of each tunnel and both pieces of each azimuth are barred.
const BARRED: Status = Status {
    barred: [1, 1, 3, 3, 0, 0, 0, 0, 0, 0, 0, 0],
    ..ALL
};

const NOTHING: Fraction = Fraction { top: 0, bottom: 1 };

const WHOLE: Fraction = Fraction { top: 1, bottom: 1 };

const REST: Thrust = Thrust { x: 0, y: 0 };

fn asked(x: i32, y: i32, n: i32) -> Wrench
    requires x { IsWithin MOST_FORCE x }
    requires y { IsWithin MOST_FORCE y }
    requires n { IsWithin MOST_MOMENT n }
    ensures { IsDemand result }
{
    Wrench { x, y, n }
}

fn allocated(status: &Status, demand: Wrench) -> Allocation
    requires { IsDemand demand }
{
    Direct.allocate(&demo(), status, demand)
}

/// Whether it is the part in the first choice, over 1, with no thrust.
fn is_idle(allocation: &Allocation, part: Fraction) -> bool {
    allocation.fraction == part
        && allocation.choice == 0
        && allocation.q == 1
        && allocation.thrusts.list.as_slice() == [REST; 4].as_slice()
}

/// Whether the thrusts of the allocation meet the whole demand in its choice.
fn is_met(status: &Status, demand: Wrench, allocation: Allocation) -> bool
    requires { IsDemand demand }
{
    let Allocation {
        choice,
        q,
        thrusts,
        ..
    } = allocation;
    let outcome = Outcome::Holds { choice, q, thrusts };
    check(&demo(), status, Loss::Intact, demand, &outcome).is_ok()
}

#[test]
fn a_demand_past_the_border_is_given_in_part(rt: HostRuntime) {
    let allocation = allocated(&BOW2_AND_STBD, asked(0, 381, 0));
    let part = Fraction {
        top: 380,
        bottom: 381,
    };
    assert_eq!(rt; allocation.fraction, part);
    assert_eq!(rt; (allocation.choice, allocation.q), (0, 1));
    let given = [REST, Thrust { x: 0, y: 200 }, REST, Thrust { x: 0, y: 180 }];
    assert_eq!(rt; allocation.thrusts.list.as_slice(), given.as_slice());
}

#[test]
fn the_first_choice_that_gives_most_is_taken(rt: HostRuntime) {
    let allocation = allocated(&BOW2_AND_STBD, asked(0, -381, 0));
    let part = Fraction {
        top: 380,
        bottom: 381,
    };
    assert_eq!(rt; allocation.fraction, part);
    assert_eq!(rt; allocation.choice, 1);
    let to_port = asked(0, -600, 0);
    let allocation = allocated(&ALL, to_port);
    assert_eq!(rt; allocation.fraction, WHOLE);
    assert_eq!(rt; allocation.choice, 1);
    assert!(rt; is_met(&ALL, to_port, allocation));
}

#[test]
fn a_demand_within_the_border_is_given_whole(rt: HostRuntime) {
    let ahead = asked(20, 0, 0);
    let allocation = allocated(&ALL, ahead);
    assert_eq!(rt; allocation.fraction, WHOLE);
    assert_eq!(rt; allocation.choice, 0);
    assert!(rt; is_met(&ALL, ahead, allocation));
    let across = asked(0, 381, 0);
    let allocation = allocated(&ALL, across);
    assert_eq!(rt; allocation.fraction, WHOLE);
    assert_eq!(rt; allocation.choice, 0);
    assert!(rt; is_met(&ALL, across, allocation));
}

#[test]
fn nothing_is_given_with_no_thrust(rt: HostRuntime) {
    assert!(rt; is_idle(&allocated(&TUNNELS, asked(5, 0, 0)), NOTHING));
    assert!(rt; is_idle(&allocated(&NONE, asked(1, 0, 0)), NOTHING));
    assert!(rt; is_idle(&allocated(&BARRED, asked(1, 0, 0)), NOTHING));
}

#[test]
fn all_of_no_demand_is_given_with_no_thrust(rt: HostRuntime) {
    assert!(rt; is_idle(&allocated(&ALL, asked(0, 0, 0)), WHOLE));
    assert!(rt; is_idle(&allocated(&NONE, asked(0, 0, 0)), WHOLE));
}
