//! How far along a demand the sums of thrusts reach.
ghost use Rattle.std.specs.Prelude.{◌≡◌, ◌≢◌, ◌<◌, pos, ◌≤ℤ◌, length, map};
ghost use Rattle.std.specs.Int.{int_max};
ghost use Rattle.dp_num.specs.Fractions.{IsInLowestTerms, SameQuotient};
ghost use Rattle.thrust_allocation.specs.Allocations.{IsPart};
ghost use Rattle.thrust_region.specs.Choices.{choices_of};
ghost use Rattle.thrust_region.specs.Pieces.{all_points};
ghost use Rattle.wrench_geometry.specs.Vectors.{zero_vector};
ghost use Rattle.wrench_geometry.specs.Wrenches.{IsDemandVector};
ghost use Rattle.certificate.specs.Outcomes.{question_of};
ghost use Rattle.allocator.specs.Reaches.{AreAtRest, IsFarther, IsFarthest, IsReach, denominator_of};

use crate::passing::{passed, passed_along};
use arrayvec::ArrayVec;
use dp_num::{Fraction, compare, reduce};
use exit_point::{ExitWeights, exit};
use plant_model::limits::MOST_CHOICES;
use plant_model::plant::Plant;
use std::cmp::Ordering;
use thrust_region::{Regions, choice, choices};
use wrench_geometry::{Vec3, sums_of};

/// How much of a demand a choice can give, with what shows it.
#[derive(Drop)]
pub struct Reach {
    pub choice: u32,
    /// From 0 to 1, in lowest terms.
    pub part: Fraction,
    /// Where the ray of the demand leaves the sums of the choice.
    pub exit: ExitWeights,
}

/// The first choice that can give the greatest part of the demand, which is within its limits, in
/// kN and kN·dm, and not zero. There are a region and a fixed thrust for each thruster, and no
/// thrust is fixed.
pub fn farthest_reach(plant: &Plant, regions: &Regions, demand: Vec3) -> Reach
    requires region_each { length regions.now.list.items ≡ length plant.now.thrusters.items }
    requires fixed_each { length regions.now.fixed.items ≡ length plant.now.thrusters.items }
    requires rest { AreAtRest regions.now.fixed.items }
    requires demand { IsDemandVector demand }
    requires not_zero { demand ≢ zero_vector }
    ensures { IsFarthest (question_of plant.now regions.now demand)
        (choices_of (map all_points regions.now.list.items)) result }
{
    let mut best = reach_in(plant, regions, 0, demand);
    let mut directions: ArrayVec<Vec3, MOST_CHOICES> = ArrayVec::new();
    directions.push(best.exit.cut.w);
    let mut done = 1;
    for k in 1..choices(regions) {
        if best.part.top == best.part.bottom {
            return best;
        }
        if k < done {
            continue;
        }
        let passed = passed(plant, regions, k, demand, best.part, directions.as_slice());
        if passed > 0 {
            done = k + passed;
            continue;
        }
        let reach = reach_in(plant, regions, k, demand);
        let w = reach.exit.cut.w;
        directions.push(w);
        best = farther(best, reach);
        done = k + passed_along(plant, regions, k, demand, best.part, w).max(1);
    }
    best
}

/// How much of the demand the choice can give.
fn reach_in(plant: &Plant, regions: &Regions, k: u32, demand: Vec3) -> Reach
    requires region_each { length regions.now.list.items ≡ length plant.now.thrusters.items }
    requires fixed_each { length regions.now.fixed.items ≡ length plant.now.thrusters.items }
    requires rest { AreAtRest regions.now.fixed.items }
    requires there { k < choices_of (map all_points regions.now.list.items) }
    requires demand { IsDemandVector demand }
    requires not_zero { demand ≢ zero_vector }
    ensures choice { result.choice ≡ k }
    ensures reach { IsReach (question_of plant.now regions.now demand) result }
{
    let exit = exit(&sums_of(plant, &choice(regions, k)), demand);
    Reach {
        choice: k,
        part: part_of(&exit),
        exit,
    }
}

/// The part of the demand at which its ray leaves the sums, or all of the demand where the ray
/// leaves them later.
fn part_of(exit: &ExitWeights) -> Fraction
    requires from_0 { pos 0 ≤ℤ exit.now.t }
    requires from_1 { pos 1 ≤ℤ exit.now.q }
    ensures part { IsPart result.top result.bottom }
    ensures lowest { IsInLowestTerms result.top result.bottom }
    ensures same { SameQuotient result.top result.bottom exit.now.t (denominator_of exit.now) }
{
    reduce(exit.t, denominator(exit))
}

/// What the weighted points are thrusts over: the sum of a list's weights, or `t` where that is
/// greater, over which they give the demand itself and no more.
pub fn denominator(exit: &ExitWeights) -> i64
    ensures { result ≡ denominator_of exit.now }
{
    exit.q.max(exit.t)
}

/// The one that reaches farther, and the first where neither does.
fn farther(first: Reach, second: Reach) -> Reach
    ensures { IsFarther first second result }
{
    match compare(second.part, first.part) {
        Ordering::Greater => second,
        _ => first,
    }
}
