//! Choices that can give no more of a demand than was found.
ghost use Rattle.std.specs.Prelude.{◌≡◌, ℕ, ℤ, pos, ◌+◌, ◌^◌, ◌<◌, ◌≤◌, ◌*ℤ◌, ◌≤ℤ◌, ◌<ℤ◌, length, map};
ghost use Rattle.thrust_allocation.specs.Allocations.{IsPart};
ghost use Rattle.thrust_region.specs.Choices.{choices_of};
ghost use Rattle.thrust_region.specs.Pieces.{all_points};
ghost use Rattle.wrench_geometry.specs.Wrenches.{IsDemandVector};
ghost use Rattle.certificate.specs.Outcomes.{question_of};
ghost use Rattle.allocator.specs.Reaches.{AreAtRest, IsGreatestIn};

use dp_num::{Fraction, floor_div};
use feasibility::cut_off_from;
use plant_model::plant::Plant;
use thrust_region::Regions;
use wrench_geometry::{CUT_PARTS_BELOW, Vec3, dot};

/// How many choices, from the `k`th on, can give no greater part of the demand, as one of the
/// directions shows, of which the latest are tried first. There are a region and a fixed thrust for
/// each thruster, and no thrust is fixed.
pub fn passed(
    plant: &Plant,
    regions: &Regions,
    k: u32,
    demand: Vec3,
    part: Fraction,
    directions: &[Vec3],
) -> u32
    requires region_each { length regions.now.list.items ≡ length plant.now.thrusters.items }
    requires fixed_each { length regions.now.fixed.items ≡ length plant.now.thrusters.items }
    requires rest { AreAtRest regions.now.fixed.items }
    requires there { k < choices_of (map all_points regions.now.list.items) }
    requires demand { IsDemandVector demand }
    ensures there { k + result ≤ choices_of (map all_points regions.now.list.items) }
    ensures none { (m : ℕ) → m < result →
        IsGreatestIn (question_of plant.now regions.now demand) (k + m) part.top part.bottom }
{
    let count = directions.len();
    for back in 0..count {
        let w = directions[count - 1 - back];
        let passed = passed_along(plant, regions, k, demand, part, w);
        if passed > 0 {
            return passed;
        }
    }
    0
}

/// The same by one direction. It is 0 where the demand isn't ahead along it.
pub fn passed_along(
    plant: &Plant,
    regions: &Regions,
    k: u32,
    demand: Vec3,
    part: Fraction,
    w: Vec3,
) -> u32
    requires region_each { length regions.now.list.items ≡ length plant.now.thrusters.items }
    requires fixed_each { length regions.now.fixed.items ≡ length plant.now.thrusters.items }
    requires rest { AreAtRest regions.now.fixed.items }
    requires there { k < choices_of (map all_points regions.now.list.items) }
    requires demand { IsDemandVector demand }
    ensures there { k + result ≤ choices_of (map all_points regions.now.list.items) }
    ensures none { (m : ℕ) → m < result →
        IsGreatestIn (question_of plant.now regions.now demand) (k + m) part.top part.bottom }
{
    let along = dot(w, demand);
    if along < 1 || along >= CUT_PARTS_BELOW as i128 {
        return 0;
    }
    cut_off_from(plant, regions, k, w, past(part, along as i64))
}

/// The least number that is past so much of `along` as the part says.
fn past(part: Fraction, along: i64) -> i128
    requires { pos 1 ≤ℤ along }
    ensures { (s : ℤ) → s <ℤ result → (s *ℤ part.bottom) ≤ℤ (part.top *ℤ along) }
{
    floor_div(product(part.top, along), part.bottom as i128) + 1
}

fn product(a: i64, b: i64) -> i128
    requires a { pos 0 ≤ℤ a }
    requires b { pos 0 ≤ℤ b }
    ensures value { result ≡ a *ℤ b }
    ensures low { pos 0 ≤ℤ result }
    ensures high { result ≤ℤ pos (2 ^ 126) }
{
    a as i128 * b as i128
}
