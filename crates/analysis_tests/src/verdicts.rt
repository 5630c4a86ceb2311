//! What the analysis finds, of demands on and past the border.
ghost use Rattle.plant_model.specs.Versions.{IsDemand};

use crate::statuses::{BOW1_ALONE, FIRST, NONE, OPEN, SECTION_A, SIX, TUNNELS};
use certificate::{Outcome, check};
use example_plants::{built_in, ship, ship_of_six};
use feasibility::{analyse, verdict};
use plant_model::limits::{MOST_FORCE, MOST_MOMENT};
use plant_model::status::{Loss, Status};
use plant_model::thrust::{Point, Thrust};
use plant_model::wrench::Wrench;
use redundancy_groups::surviving;
use wrench_geometry::Vec3;

const REST: Thrust = Thrust { x: 0, y: 0 };

const AHEAD: Vec3 = Vec3 { x: 1, y: 0, z: 0 };

/// The demand with these components, each brought within its limits.
fn asked(x: i32, y: i32, n: i32) -> Wrench
    ensures { IsDemand result }
{
    Wrench {
        x: x.clamp(-MOST_FORCE, MOST_FORCE),
        y: y.clamp(-MOST_FORCE, MOST_FORCE),
        n: n.clamp(-MOST_MOMENT, MOST_MOMENT),
    }
}

/// Whether the outcome holds in the choice by these thrusts over `q`.
fn is_held(outcome: &Outcome, in_choice: u32, over: i64, given: &[Thrust]) -> bool {
    match outcome {
        Outcome::Holds { choice, q, thrusts } => {
            *choice == in_choice && *q == over && thrusts.list.as_slice() == given
        }
        Outcome::Lost { .. } => false,
    }
}

/// Whether the outcome is lost by these cuts.
fn is_lost(outcome: &Outcome, directions: &[Vec3]) -> bool {
    match outcome {
        Outcome::Holds { .. } => false,
        Outcome::Lost { cuts } => cuts.list.as_slice() == directions,
    }
}

/// In how many choices the outcome is lost.
fn cut_count(outcome: &Outcome) -> usize {
    match outcome {
        Outcome::Holds { .. } => 0,
        Outcome::Lost { cuts } => cuts.list.len(),
    }
}

fn after_section_a(demand: Wrench) -> Outcome
    requires { IsDemand demand }
{
    analyse(&built_in(), &OPEN, SECTION_A, demand)
}

fn intact(status: &Status, demand: Wrench) -> Outcome
    requires { IsDemand demand }
{
    analyse(&built_in(), status, Loss::Intact, demand)
}

#[test]
fn a_demand_on_the_border_holds(rt: HostRuntime) {
    let given = [REST, Thrust { x: 0, y: 200 }, REST, Thrust { x: 0, y: 180 }];
    let outcome = after_section_a(asked(0, 380, 0));
    assert!(rt; is_held(&outcome, 0, 1, &given));
}

#[test]
fn thrusts_are_whole_over_their_denominator(rt: HostRuntime) {
    let (bow, stern) = (Thrust { x: 0, y: 3_000 }, Thrust { x: 0, y: 2_700 });
    let outcome = after_section_a(asked(0, 300, 0));
    assert!(rt; is_held(&outcome, 0, 19, &[REST, bow, REST, stern]));
}

#[test]
fn a_demand_past_the_border_is_lost_in_each_choice(rt: HostRuntime) {
    assert_eq!(rt; cut_count(&after_section_a(asked(0, 381, 0))), 2);
}

#[test]
fn tunnels_give_nothing_ahead(rt: HostRuntime) {
    assert!(rt; is_lost(&intact(&TUNNELS, asked(5, 0, 0)), &[AHEAD]));
}

#[test]
fn no_thruster_gives_nothing(rt: HostRuntime) {
    assert!(rt; is_lost(&intact(&NONE, asked(1, 0, 0)), &[AHEAD]));
}

#[test]
fn no_thruster_meets_the_demand_of_nothing(rt: HostRuntime) {
    assert!(rt; is_held(&intact(&NONE, asked(0, 0, 0)), 0, 1, &[REST; 4]));
}

/// What the built-in plant meets when nothing of it is selected and BOW1 stays at 100 kN to starboard.
fn beside_a_frozen_bow(demand: Wrench) -> Outcome
    requires { IsDemand demand }
{
    let plant = built_in();
    let mut regions = surviving(&plant, &NONE, Loss::Intact);
    if let Some(fixed) = regions.fixed.first_mut() {
        *fixed = Point { x: 0, y: 100 };
    }
    verdict(&plant, &regions, demand)
}

const STAYS: [Thrust; 4] = [Thrust { x: 0, y: 100 }, REST, REST, REST];

#[test]
fn a_frozen_thrust_meets_its_own_load(rt: HostRuntime) {
    let outcome = beside_a_frozen_bow(asked(0, 100, 40_000));
    assert!(rt; is_held(&outcome, 0, 1, &STAYS));
}

const TO_PORT: Vec3 = Vec3 { x: 0, y: -1, z: 0 };

#[test]
fn a_demand_away_from_a_frozen_thrust_is_lost_past_all_limits(rt: HostRuntime) {
    let outcome = beside_a_frozen_bow(asked(0, -24_000, 0));
    assert!(rt; is_lost(&outcome, &[TO_PORT]));
}

/// What the ship meets when BOW1, which alone is selected, is lost and stays at its thrust.
fn after_bow1(demand: Wrench) -> Outcome
    requires { IsDemand demand }
{
    analyse(&ship(), &FIRST, BOW1_ALONE, demand)
}

#[test]
fn a_lost_thruster_that_freezes_meets_its_own_load(rt: HostRuntime) {
    assert!(rt; is_held(&after_bow1(asked(0, 100, 40_000)), 0, 1, &STAYS));
}

#[test]
fn a_lost_thruster_that_freezes_meets_nothing_else(rt: HostRuntime) {
    assert!(rt; is_lost(&after_bow1(asked(0, -24_000, 0)), &[TO_PORT]));
    assert_eq!(rt; cut_count(&after_bow1(asked(0, 0, 0))), 1);
}

#[test]
fn six_azimuths_are_cut_in_each_of_64_choices(rt: HostRuntime) {
    let plant = ship_of_six();
    let demand = asked(2_401, 0, 0);
    let outcome = analyse(&plant, &SIX, Loss::Intact, demand);
    assert_eq!(rt; cut_count(&outcome), 64);
    let checked = check(&plant, &SIX, Loss::Intact, demand, &outcome);
    assert!(rt; checked.is_ok());
}
