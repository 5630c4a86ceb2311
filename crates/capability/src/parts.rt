//! How much of a demand a loss leaves.
ghost use Rattle.std.specs.Prelude.{◌≡◌, ◌≢◌, ◌<◌, length, map};
ghost use Rattle.std.specs.List.{list_all};
ghost use Rattle.plant_model.specs.Versions.{IsDemand};
ghost use Rattle.redundancy_groups.specs.Standing.{IsLossOf};
ghost use Rattle.thrust_region.specs.Choices.{choices_of};
ghost use Rattle.thrust_region.specs.Pieces.{all_points};
ghost use Rattle.wrench_geometry.specs.Vectors.{zero_vector};
ghost use Rattle.wrench_geometry.specs.Wrenches.{IsDemandVector};
ghost use Rattle.certificate.specs.Losses.{question_after};
ghost use Rattle.certificate.specs.Outcomes.{question_of};
ghost use Rattle.capability.specs.Reserves.{AreAtRest, IsGreater, IsGreatestBelow, IsGreatestOf};
ghost use Rattle.capability.specs.Reserves.{IsMargin, is_at_rest};

use certificate::vector_of;
use dp_num::{Fraction, compare, reduce};
use exit_point::exit;
use plant_model::plant::Plant;
use plant_model::status::{Loss, Status};
use plant_model::thrust::Point;
use plant_model::wrench::Wrench;
use redundancy_groups::surviving;
use std::cmp::Ordering;
use thrust_region::{Regions, choice, choices};
use wrench_geometry::{Vec3, sums_of};

/// The greatest part of a demand that a loss leaves.
#[derive(Clone, Copy, Debug, PartialEq, Eq)]
pub enum Margin {
    /// Any: nothing is demanded.
    Any,
    /// A thruster stays at a frozen thrust, so that what is given isn't a part of the demand alone.
    Frozen,
    /// This part, in lowest terms: less than 1 where the demand can't be met, and more than 1 where
    /// more of it could be.
    Least(Fraction),
}

/// The greatest part of the demand, in kN and kN·dm and within its limits, that the thrusters can
/// give after the loss: one fraction for all three axes. A group's number is below the count of
/// groups.
pub fn reserve(plant: &Plant, status: &Status, loss: Loss, demand: Wrench) -> Margin
    requires loss { IsLossOf plant.now loss }
    requires demand { IsDemand demand }
    ensures { IsMargin (question_after plant.now status.now loss demand) result }
{
    margin_of(plant, &surviving(plant, status, loss), vector_of(demand))
}

/// The greatest part of the demand that the regions can give. There are a region and a fixed thrust
/// for each thruster.
fn margin_of(plant: &Plant, regions: &Regions, demand: Vec3) -> Margin
    requires region_each { length regions.now.list.items ≡ length plant.now.thrusters.items }
    requires fixed_each { length regions.now.fixed.items ≡ length plant.now.thrusters.items }
    requires demand { IsDemandVector demand }
    ensures { IsMargin (question_of plant.now regions.now demand) result }
{
    if demand == Vec3::default() {
        return Margin::Any;
    }
    if !are_at_rest(regions.fixed.as_slice()) {
        return Margin::Frozen;
    }
    Margin::Least(greatest_part(plant, regions, demand))
}

/// Whether each fixed thrust is zero.
fn are_at_rest(fixed: &[Point]) -> bool
    ensures { result ≡ list_all is_at_rest fixed.now }
{
    fixed.iter().all(|point| is_at_rest(point))
}

fn is_at_rest(point: &Point) -> bool
    ensures { result ≡ is_at_rest point.now }
{
    point.x == 0 && point.y == 0
}

/// The greatest part of the demand, which isn't zero, that some choice gives. No thrust is fixed.
fn greatest_part(plant: &Plant, regions: &Regions, demand: Vec3) -> Fraction
    requires region_each { length regions.now.list.items ≡ length plant.now.thrusters.items }
    requires fixed_each { length regions.now.fixed.items ≡ length plant.now.thrusters.items }
    requires rest { AreAtRest regions.now.fixed.items }
    requires demand { IsDemandVector demand }
    requires not_zero { demand ≢ zero_vector }
    ensures { IsGreatestBelow (question_of plant.now regions.now demand)
        (choices_of (map all_points regions.now.list.items)) result }
{
    let mut greatest = part_in(plant, regions, 0, demand);
    for k in 1..choices(regions) {
        greatest = greater(greatest, part_in(plant, regions, k, demand));
    }
    greatest
}

/// The greatest part of the demand that the choice gives.
fn part_in(plant: &Plant, regions: &Regions, k: u32, demand: Vec3) -> Fraction
    requires region_each { length regions.now.list.items ≡ length plant.now.thrusters.items }
    requires fixed_each { length regions.now.fixed.items ≡ length plant.now.thrusters.items }
    requires rest { AreAtRest regions.now.fixed.items }
    requires there { k < choices_of (map all_points regions.now.list.items) }
    requires demand { IsDemandVector demand }
    requires not_zero { demand ≢ zero_vector }
    ensures { IsGreatestOf (question_of plant.now regions.now demand) k result }
{
    let exit = exit(&sums_of(plant, &choice(regions, k)), demand);
    reduce(exit.t, exit.q)
}

/// The greater of two parts, and the first where neither is.
fn greater(first: Fraction, second: Fraction) -> Fraction
    ensures { IsGreater first second result }
{
    match compare(second, first) {
        Ordering::Greater => second,
        _ => first,
    }
}
