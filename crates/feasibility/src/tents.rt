//! Demands that a choice meets between the same corners of its sums.
ghost use Rattle.std.specs.Prelude.{◌≡◌, ◌<◌, IfSome, length, map};
ghost use Rattle.thrust_region.specs.Choices.{choices_of};
ghost use Rattle.thrust_region.specs.Pieces.{all_points};
ghost use Rattle.feasibility.specs.Tents.{IsTentOver};

use crate::outside::beyond;
use exit_point::{Tent, tent_about};
use plant_model::plant::Plant;
use thrust_region::{Regions, choice};
use wrench_geometry::{Vec3, sums_of};

/// The tent of the corners between which the ray of a demand, which is `ahead` of the load of the
/// fixed thrusts, leaves the sums of the choice. Whatever it covers is feasible. There are a region
/// and a fixed thrust for each thruster. None is no answer.
pub fn tent_in(plant: &Plant, regions: &Regions, k: u32, ahead: Vec3) -> Option<Tent>
    requires region_each { length regions.now.list.items ≡ length plant.now.thrusters.items }
    requires fixed_each { length regions.now.fixed.items ≡ length plant.now.thrusters.items }
    requires there { k < choices_of (map all_points regions.now.list.items) }
    ensures { IfSome result (IsTentOver plant.now regions.now) }
{
    match beyond(ahead) {
        Some(_) => None,
        None => tent_about(&sums_of(plant, &choice(regions, k)), ahead),
    }
}
