//! Whether regions meet a demand, and whether what a loss leaves of a plant does.
ghost use Rattle.std.specs.Prelude.{◌≡◌, ◌≤◌, ◌↔◌, length, map};
ghost use Rattle.plant_model.specs.Versions.{IsDemand};
ghost use Rattle.plant_model.specs.declared.limits.TheConstants.{MOST_THRUSTERS};
ghost use Rattle.redundancy_groups.specs.Standing.{IsLossOf};
ghost use Rattle.redundancy_groups.specs.Surviving.{fixed_of};
ghost use Rattle.wrench_geometry.specs.Vectors.{zero_vector};
ghost use Rattle.certificate.specs.Losses.{demand_of, question_after};
ghost use Rattle.certificate.specs.Outcomes.{IsAhead, IsFeasible, IsValid, question_of};
ghost use Rattle.certificate.specs.Sides.{place_of};
ghost use Rattle.feasibility.specs.Beyond.{IsStill};
ghost use Rattle.feasibility.specs.First.{IsByFirst, IsByFirstAhead};
ghost use Rattle.feasibility.specs.Lowest.{IsLowest};
ghost use Rattle.feasibility.specs.Reached.{IsHolds, IsLost};
ghost use Rattle.feasibility.specs.Steps.{IsValidAhead};

use crate::choosing::choose;
use crate::outside::{all_cut, beyond};
use certificate::{Outcome, ahead, vector_of};
use plant_model::plant::Plant;
use plant_model::status::{Loss, Status};
use plant_model::thrust::{Point, Thrust, Thrusts};
use plant_model::wrench::Wrench;
use redundancy_groups::surviving;
use thrust_region::Regions;
use wrench_geometry::Vec3;

/// Whether what the loss leaves of the plant meets the demand, with what shows it: a `Holds` where
/// it does, else a `Lost`. A group's number is below the count of groups, and the demand is within
/// its limits. Of the choices in their order the first that holds is the one that answers. A demand
/// that is the load of the fixed thrusts holds by these alone: in the first choice, over 1.
pub fn analyse(plant: &Plant, status: &Status, loss: Loss, demand: Wrench) -> Outcome
    requires loss { IsLossOf plant.now loss }
    requires demand { IsDemand demand }
    ensures valid { IsValid (question_after plant.now status.now loss demand) result }
    ensures lowest { IsLowest result }
    ensures holds { IsHolds result
        ↔ IsFeasible (question_after plant.now status.now loss demand) }
    ensures lost { IsLost result
        ↔ ¬ IsFeasible (question_after plant.now status.now loss demand) }
    ensures first { IsByFirst (question_after plant.now status.now loss demand) result }
    ensures still { IsAhead (question_after plant.now status.now loss demand) zero_vector
        → IsStill (fixed_of plant.now status.now loss) result }
{
    verdict(plant, &surviving(plant, status, loss), demand)
}

/// Whether the regions meet the demand, with what shows it: a `Holds` where they do, by the first
/// choice that does, else a `Lost`. There are a region and a fixed thrust for each thruster, and the demand is within its limits.
pub fn verdict(plant: &Plant, regions: &Regions, demand: Wrench) -> Outcome
    requires region_each { length regions.now.list.items ≡ length plant.now.thrusters.items }
    requires fixed_each { length regions.now.fixed.items ≡ length plant.now.thrusters.items }
    requires demand { IsDemand demand }
    ensures valid { IsValid (question_of plant.now regions.now (demand_of demand)) result }
    ensures lowest { IsLowest result }
    ensures holds { IsHolds result
        ↔ IsFeasible (question_of plant.now regions.now (demand_of demand)) }
    ensures lost { IsLost result
        ↔ ¬ IsFeasible (question_of plant.now regions.now (demand_of demand)) }
    ensures first { IsByFirst (question_of plant.now regions.now (demand_of demand)) result }
    ensures still { IsAhead (question_of plant.now regions.now (demand_of demand)) zero_vector
        → IsStill regions.now.fixed.items result }
{
    judged(plant, regions, ahead(plant, regions, vector_of(demand)))
}

/// Whether the regions meet a demand that is `ahead` of the load of the fixed thrusts, with what
/// shows it.
fn judged(plant: &Plant, regions: &Regions, ahead: Vec3) -> Outcome
    requires region_each { length regions.now.list.items ≡ length plant.now.thrusters.items }
    requires fixed_each { length regions.now.fixed.items ≡ length plant.now.thrusters.items }
    ensures valid { IsValidAhead plant.now regions.now ahead result }
    ensures lowest { IsLowest result }
    ensures first { IsByFirstAhead plant.now regions.now ahead result }
    ensures still { ahead ≡ zero_vector → IsStill regions.now.fixed.items result }
{
    if ahead == Vec3::default() {
        return still(regions.fixed.as_slice());
    }
    match beyond(ahead) {
        Some(axis) => all_cut(plant, regions, ahead, axis),
        None => choose(plant, regions, ahead),
    }
}

/// The fixed thrusts over 1, in the first choice. There are at most as many as thrusters may be.
fn still(fixed: &[Point]) -> Outcome
    requires { length fixed.now ≤ MOST_THRUSTERS }
    ensures still { IsStill fixed.now result }
    ensures lowest { IsLowest result }
{
    Outcome::Holds {
        choice: 0,
        q: 1,
        thrusts: thrusts_of(fixed),
    }
}

/// The points as thrusts over 1.
fn thrusts_of(points: &[Point]) -> Thrusts
    requires { length points.now ≤ MOST_THRUSTERS }
    ensures { map place_of result.list.items ≡ points.now }
{
    let mut thrusts = Thrusts::default();
    for point in points {
        thrusts.list.push(Thrust {
            x: point.x as i128,
            y: point.y as i128,
        });
    }
    thrusts
}
