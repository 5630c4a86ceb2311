//! The checker on outcomes of the built-in plant and of the examples.

use crate::statuses::{BOW1_ALONE, FIRST, OPEN, SECTION_A, THIRD};
use arrayvec::ArrayVec;
use certificate::{Cuts, Outcome, Place, check};
use example_plants::{built_in, guarded_ship, ship, ship_of_five};
use plant_model::status::Loss;
use plant_model::thrust::{Thrust, Thrusts};
use plant_model::wrench::Wrench;
use wrench_geometry::Vec3;

const AHEAD: Vec3 = Vec3 { x: 1, y: 0, z: 0 };

const TO_STARBOARD: Vec3 = Vec3 { x: 0, y: 1, z: 0 };

const TO_PORT: Vec3 = Vec3 { x: 0, y: -1, z: 0 };

const STILL: Wrench = Wrench { x: 0, y: 0, n: 0 };

/// What the built-in plant just holds abeam after the loss of section A.
const ABEAM: Wrench = Wrench { x: 0, y: 380, n: 0 };

/// Thrusts to starboard.
fn holds(choice: u32, q: i64, across: &[i128]) -> Outcome {
    let mut list = ArrayVec::new();
    for y in across {
        if !list.is_full() {
            list.push(Thrust { x: 0, y: *y });
        }
    }
    Outcome::Holds {
        choice,
        q,
        thrusts: Thrusts { list },
    }
}

fn lost(directions: &[Vec3]) -> Outcome {
    let mut list = ArrayVec::new();
    for direction in directions {
        if !list.is_full() {
            list.push(*direction);
        }
    }
    Outcome::Lost {
        cuts: Cuts { list },
    }
}

#[test]
fn holds_is_judged_place_by_place(rt: HostRuntime) {
    let plant = built_in();
    let cases: [(u32, i64, i128, i128, Result<(), Place>); 8] = [
        (0, 1, 200, 180, Ok(())),
        (0, 10, 2_000, 1_800, Ok(())),
        (0, 0, 200, 180, Err(Place::Denominator)),
        (2, 1, 200, 180, Err(Place::Choice)),
        (0, 1, 201, 180, Err(Place::Thruster(1))),
        (1, 1, 200, 180, Err(Place::Thruster(3))),
        (0, 1, i128::MAX, i128::MIN, Err(Place::Thruster(1))),
        (0, 1, 200, 181, Err(Place::Sum)),
    ];
    for (choice, q, bow, stern, answer) in cases {
        let outcome = holds(choice, q, &[0, bow, 0, stern]);
        let checked = check(&plant, &OPEN, SECTION_A, ABEAM, &outcome);
        assert_eq!(rt; checked, answer);
    }
}

#[test]
fn a_thrust_for_each_thruster_is_wanted(rt: HostRuntime) {
    let outcome = holds(0, 1, &[0, 200, 0]);
    let checked = check(&built_in(), &OPEN, SECTION_A, ABEAM, &outcome);
    assert_eq!(rt; checked, Err(Place::ThrustCount));
}

#[test]
fn a_cut_separates_both_choices_past_the_border_alone(rt: HostRuntime) {
    let plant = built_in();
    let w = Vec3 {
        x: 100,
        y: 400,
        z: 1,
    };
    let outcome = lost(&[w, w]);
    for (y, answer) in [(381, Ok(())), (380, Err(Place::Cut(0)))] {
        let demand = Wrench { x: 0, y, n: 0 };
        let checked = check(&plant, &OPEN, SECTION_A, demand, &outcome);
        assert_eq!(rt; checked, answer);
    }
}

/// The cuts as an outcome of the guarded azimuth, of which 100 kN ahead and to starboard are asked.
fn judged(cuts: &[Vec3]) -> Result<(), Place> {
    let demand = Wrench {
        x: 100,
        y: 100,
        n: 0,
    };
    check(&guarded_ship(), &FIRST, Loss::Intact, demand, &lost(cuts))
}

#[test]
fn lost_is_judged_choice_by_choice(rt: HostRuntime) {
    assert_eq!(rt; judged(&[AHEAD, TO_STARBOARD]), Ok(()));
    assert_eq!(rt; judged(&[AHEAD, AHEAD]), Err(Place::Cut(1)));
    assert_eq!(rt; judged(&[AHEAD]), Err(Place::CutCount));
}

#[test]
fn a_frozen_thruster_stays_at_its_thrust(rt: HostRuntime) {
    let plant = ship();
    for (frozen, answer) in [(1_900, Ok(())), (1_899, Err(Place::Thruster(0)))] {
        let outcome = holds(0, 19, &[frozen, -2_000, 100, 0]);
        let checked = check(&plant, &OPEN, BOW1_ALONE, STILL, &outcome);
        assert_eq!(rt; checked, answer);
    }
}

#[test]
fn a_thruster_that_is_lost_with_its_section_stays_at_none(rt: HostRuntime) {
    let outcome = holds(0, 1, &[0, 200, 0, 180]);
    let checked = check(&ship(), &OPEN, SECTION_A, ABEAM, &outcome);
    assert_eq!(rt; checked, Ok(()));
}

#[test]
fn a_frozen_thruster_alone_gives_its_thrust_and_no_other(rt: HostRuntime) {
    let plant = ship();
    for y in [0, -24_000] {
        let demand = Wrench { x: 0, y, n: 0 };
        let checked = check(&plant, &FIRST, BOW1_ALONE, demand, &lost(&[TO_PORT]));
        assert_eq!(rt; checked, Ok(()));
    }
    let frozen = Wrench {
        x: 0,
        y: 100,
        n: 40_000,
    };
    let stays = holds(0, 1, &[100, 0, 0, 0]);
    let checked = check(&plant, &FIRST, BOW1_ALONE, frozen, &stays);
    assert_eq!(rt; checked, Ok(()));
}

/// The outcome judged of the plant of five with its azimuth alone, of which these pieces are barred
/// and 100 kN to port are asked.
fn judged_with_barred(mask: u16, outcome: &Outcome) -> Result<(), Place> {
    let demand = Wrench {
        x: 0,
        y: -100,
        n: 0,
    };
    let mut status = THIRD;
    status.barred[2] = mask;
    check(&ship_of_five(), &status, Loss::Intact, demand, outcome)
}

#[test]
fn a_barred_piece_gives_nothing(rt: HostRuntime) {
    let held = holds(1, 1, &[0, 0, -100, 0, 0]);
    assert_eq!(rt; judged_with_barred(0, &held), Ok(()));
    for mask in [2, 3] {
        assert_eq!(rt; judged_with_barred(mask, &held), Err(Place::Choice));
        assert_eq!(rt; judged_with_barred(mask, &lost(&[TO_PORT])), Ok(()));
    }
}
