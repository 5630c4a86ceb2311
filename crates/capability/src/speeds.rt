//! What is asked of the thrusters as the wind grows.
ghost use Rattle.std.specs.Prelude.{◌≡◌, ◌-ℤ◌, ◌<◌, ◌↔◌, All, IfNone, IfSome, IsSomeAnd};
ghost use Rattle.std.specs.Prelude.{IsTrue, length};
ghost use Rattle.plant_model.specs.Numbers.{IsWithin};
ghost use Rattle.plant_model.specs.Versions.{IsDemand};
ghost use Rattle.plant_model.specs.declared.limits.TheConstants.{WHOLE_TURN};
ghost use Rattle.redundancy_groups.specs.Standing.{IsLossOf};
ghost use Rattle.wind_axes.specs.Wind.{wind_load};
ghost use Rattle.wrench_geometry.specs.Vectors.{IsVectorWithin};
ghost use Rattle.wrench_geometry.specs.declared.vector.TheConstants.{MOST_PLAIN};
ghost use Rattle.exit_point.specs.Tents.{Covers};
ghost use Rattle.certificate.specs.Losses.{demand_of, question_after};
ghost use Rattle.certificate.specs.Outcomes.{IsFeasible, question_of};
ghost use Rattle.capability.specs.Paths.{IsMetUpTo, IsPath, demand_at, less};
ghost use Rattle.capability.specs.Shelters.{IsShelter};

use arrayvec::ArrayVec;
use certificate::{Outcome, ahead, vector_of};
use exit_point::Tent;
use feasibility::{tent_in, verdict};
use plant_model::limits::{MOST_FORCE, MOST_MOMENT, MOST_WIND_SPEED};
use plant_model::plant::Plant;
use plant_model::status::{Loss, Status};
use plant_model::wrench::{Load, Wrench};
use redundancy_groups::surviving;
use thrust_region::Regions;
use wind_axes::wind_force;
use wrench_geometry::Vec3;

/// The whole wind speeds from 0 to the greatest, in dm/s.
pub const SPEEDS: usize = MOST_WIND_SPEED as usize + 1;

/// The demands at the whole wind speeds from 0 on, as far as they are within the demand's limits:
/// the base, which is, less what the wind from the angle does at each.
pub fn path(plant: &Plant, base: Wrench, angle: u32) -> ArrayVec<Wrench, SPEEDS>
    requires { angle < WHOLE_TURN }
    ensures { IsPath plant.now base angle result.items }
{
    let mut path = ArrayVec::new();
    for speed in 0..SPEEDS as u32 {
        match less(base, wind_force(plant.wind(), speed, angle)) {
            Some(demand) => path.push(demand),
            None => return path,
        }
    }
    path
}

/// The base less a load. None where that is outside of a demand's limits.
fn less(base: Wrench, load: Load) -> Option<Wrench>
    ensures some { IfSome result (λ demand. (demand ≡ less base load) × IsDemand demand) }
    ensures none { IfNone result (¬ IsDemand (less base load)) }
{
    Some(Wrench {
        x: component_less(base.x, load.x, MOST_FORCE)?,
        y: component_less(base.y, load.y, MOST_FORCE)?,
        n: component_less(base.n, load.n, MOST_MOMENT)?,
    })
}

/// The difference, where it is at most so far from 0.
fn component_less(base: i32, load: i64, most: i32) -> Option<i32>
    ensures some { IfSome result (λ z. (z ≡ base -ℤ load) × IsWithin most z) }
    ensures none { IfNone result (¬ IsWithin most (base -ℤ load)) }
{
    narrowed(base as i128 - load as i128, most)
}

/// The number, where it is at most so far from 0.
fn narrowed(number: i128, most: i32) -> Option<i32>
    ensures some { IfSome result (λ z. (z ≡ number) × IsWithin most z) }
    ensures none { IfNone result (¬ IsWithin most number) }
{
    if number > most as i128 {
        return None;
    }
    if number < -(most as i128) {
        return None;
    }
    Some(number as i32)
}

/// The least speed at which the loss isn't withstood, where that is within the path; else the
/// path's length. A group's number is below the count of groups, and the path's demands are within
/// their limits.
pub fn met_up_to(plant: &Plant, status: &Status, loss: Loss, path: &[Wrench]) -> usize
    requires loss { IsLossOf plant.now loss }
    requires demands { All IsDemand path.now }
    ensures { IsMetUpTo (question_after plant.now status.now loss) path.now result }
{
    first_unmet(plant, &surviving(plant, status, loss), path)
}

/// What met the last demand that was met: a choice, and the tent of it, if there is one.
#[derive(Clone, Copy)]
pub struct Shelter {
    pub choice: u32,
    pub tent: Option<Tent>,
}

/// The place of the first demand that the regions don't meet, or the count of demands. There are a
/// region and a fixed thrust for each thruster, and the demands are within their limits.
fn first_unmet(plant: &Plant, regions: &Regions, path: &[Wrench]) -> usize
    requires region_each { length regions.now.list.items ≡ length plant.now.thrusters.items }
    requires fixed_each { length regions.now.fixed.items ≡ length plant.now.thrusters.items }
    requires demands { All IsDemand path.now }
    ensures { IsMetUpTo (λ demand. question_of plant.now regions.now (demand_of demand)) path.now
        result }
{
    let mut shelter = Shelter {
        choice: 0,
        tent: None,
    };
    for (speed, demand) in path.iter().enumerate() {
        if !meets(plant, regions, *demand, &mut shelter) {
            return speed;
        }
    }
    path.len()
}

/// Whether the regions meet the demand, which is within its limits. Of neighbouring demands nearly
/// all lie in the tent of the one before, and most of the others are met by the same choice.
fn meets(plant: &Plant, regions: &Regions, demand: Wrench, shelter: &mut Shelter) -> bool
    requires region_each { length regions.now.list.items ≡ length plant.now.thrusters.items }
    requires fixed_each { length regions.now.fixed.items ≡ length plant.now.thrusters.items }
    requires demand { IsDemand demand }
    requires shelter { IsShelter plant.now regions.now shelter.old }
    ensures met { IsTrue result
        ↔ IsFeasible (question_of plant.now regions.now (demand_of demand)) }
    ensures shelter { IsShelter plant.now regions.now shelter.new }
{
    let ahead = ahead(plant, regions, vector_of(demand));
    if is_covered(&shelter.tent, ahead) {
        return true;
    }
    shelter.tent = tent_in(plant, regions, shelter.choice, ahead);
    if is_covered(&shelter.tent, ahead) {
        return true;
    }
    match verdict(plant, regions, demand) {
        Outcome::Holds { choice, .. } => {
            shelter.choice = choice;
            true
        }
        Outcome::Lost { .. } => false,
    }
}

/// Whether there is a tent that covers the vector.
fn is_covered(tent: &Option<Tent>, ahead: Vec3) -> bool
    requires { IsVectorWithin MOST_PLAIN MOST_PLAIN ahead }
    ensures { IsTrue result → IsSomeAnd tent.now (λ tent. Covers tent ahead) }
{
    match tent {
        Some(tent) => tent.covers(ahead),
        None => false,
    }
}
