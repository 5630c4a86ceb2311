//! Whether an allocation's thrusts give its part of a demand.
ghost use Rattle.std.specs.Prelude.{◌≡◌, ◌<◌, ◌≤◌, pos, ◌≤ℤ◌, ◌↔◌, All, IsTrue, length, map};
ghost use Rattle.std.specs.Bool.{OnTrue};
ghost use Rattle.plant_model.specs.declared.limits.TheConstants.{MOST_THRUSTERS};
ghost use Rattle.thrust_region.specs.Choices.{choices_of};
ghost use Rattle.thrust_region.specs.Pieces.{all_points, points_of};
ghost use Rattle.certificate.specs.Beside.{IsTaken, LieBelow};
ghost use Rattle.certificate.specs.Losses.{demand_of};
ghost use Rattle.certificate.specs.Outcomes.{question_of};
ghost use Rattle.log_audit.specs.Rights.{IsGiven};

use crate::totals::{is_part, sum_at_levers};
use certificate::lies_beside;
use plant_model::plant::Plant;
use plant_model::thrust::{Point, Thrust};
use plant_model::wrench::Wrench;
use thrust_allocation::Allocation;
use thrust_region::{Chosen, Regions, choice};

/// Whether each thrust over `q`, less its fixed thrust, lies in its piece.
fn lie(chosen: &Chosen, fixed: &[Point], thrusts: &[Thrust], q: i64) -> bool
    requires from_1 { pos 1 ≤ℤ q }
    requires piece_each { length chosen.now.pieces.items ≡ length thrusts.now }
    requires fixed_each { length fixed.now ≡ length thrusts.now }
    requires few { length thrusts.now ≤ MOST_THRUSTERS }
    ensures lie { IsTrue result ↔ LieBelow (map points_of chosen.now.pieces.items) fixed.now
        thrusts.now q (length thrusts.now) }
    ensures taken { OnTrue result (All IsTaken thrusts.now) }
{
    for (i, thrust) in thrusts.iter().enumerate() {
        if !lies_beside(&chosen.pieces[i], fixed[i], *thrust, q) {
            return false;
        }
    }
    true
}

/// Whether the allocation's thrusts, each less its fixed thrust in its piece of the choice, are its part of the demand.
/// There are a region and a fixed thrust for each thruster, and there is such a choice.
pub(crate) fn is_given(plant: &Plant, regions: &Regions, demand: Wrench, given: &Allocation) -> bool
    requires region_each { length regions.now.list.items ≡ length plant.now.thrusters.items }
    requires fixed_each { length regions.now.fixed.items ≡ length plant.now.thrusters.items }
    requires choice { given.now.choice < choices_of (map all_points regions.now.list.items) }
    ensures { IsTrue result
        ↔ IsGiven (question_of plant.now regions.now (demand_of demand)) given.now }
{
    if given.q < 1 {
        return false;
    }
    let thrusts = given.thrusts.list.as_slice();
    if thrusts.len() != plant.parts().thrusters.len() {
        return false;
    }
    if !lie(
        &choice(regions, given.choice),
        regions.fixed.as_slice(),
        thrusts,
        given.q,
    ) {
        return false;
    }
    is_part(
        sum_at_levers(plant, thrusts),
        given.q,
        given.fraction,
        demand,
    )
}
