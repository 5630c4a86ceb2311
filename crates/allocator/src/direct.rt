//! Direct allocation of a demand.
ghost use Rattle.std.specs.Prelude.{◌≡◌, length};
ghost use Rattle.plant_model.specs.Versions.{IsDemand};
ghost use Rattle.plant_model.specs.declared.status.Loss.TheVariants.{Intact};
ghost use Rattle.wrench_geometry.specs.Wrenches.{IsDemandVector};
ghost use Rattle.certificate.specs.Losses.{question_after};
ghost use Rattle.certificate.specs.Outcomes.{question_of};
ghost use Rattle.thrust_allocation.specs.Allocations.{IsRight};
ghost use Rattle.feasibility.specs.Lowest.{AreLowest};
ghost use Rattle.allocator.specs.Reaches.{AreAtRest};

use crate::reach::farthest_reach;
use crate::thrusts::{given, idle};
use certificate::vector_of;
use dp_num::Fraction;
use plant_model::plant::Plant;
use plant_model::status::{Loss, Status};
use plant_model::wrench::Wrench;
use redundancy_groups::surviving;
use thrust_allocation::{Allocate, Allocation};
use thrust_region::{Regions, choice};
use wrench_geometry::Vec3;

/// Allocates by [`allocate`].
#[derive(Clone, Copy, Debug, Default, PartialEq, Eq)]
pub struct Direct;

impl Allocate for Direct {
    fn allocate(&self, plant: &Plant, status: &Status, demand: Wrench) -> Allocation {
        allocate(plant, status, demand)
    }
}

/// The greatest part of the demand, in kN and kN·dm and within its limits, that the thrusters can
/// give as the plant stands in the status, with no loss: one fraction for all three axes, from 0 to
/// 1 and in lowest terms. It is given in the first choice of one piece for each thruster in which
/// it can be, by thrusts in kN over a denominator, in lowest terms, which with their levers sum to
/// that part of the demand exactly. Of no demand the fraction is 1. Of this and where nothing of
/// the demand can be given, the choice is 0, the denominator 1 and all thrusts zero.
pub fn allocate(plant: &Plant, status: &Status, demand: Wrench) -> Allocation
    requires demand { IsDemand demand }
    ensures right { IsRight (question_after plant.now status.now Intact demand) result }
    ensures lowest { AreLowest result.q result.thrusts.list.items }
{
    allotted(
        plant,
        &surviving(plant, status, Loss::Intact),
        vector_of(demand),
    )
}

/// The allocation of a demand to what the regions leave of the plant. There are a region and a
/// fixed thrust for each thruster, and no thrust is fixed.
fn allotted(plant: &Plant, regions: &Regions, demand: Vec3) -> Allocation
    requires region_each { length regions.now.list.items ≡ length plant.now.thrusters.items }
    requires fixed_each { length regions.now.fixed.items ≡ length plant.now.thrusters.items }
    requires rest { AreAtRest regions.now.fixed.items }
    requires demand { IsDemandVector demand }
    ensures right { IsRight (question_of plant.now regions.now demand) result }
    ensures lowest { AreLowest result.q result.thrusts.list.items }
{
    if demand == Vec3::default() {
        return idle(plant, Fraction { top: 1, bottom: 1 });
    }
    let best = farthest_reach(plant, regions, demand);
    if best.part.top == 0 {
        return idle(plant, best.part);
    }
    given(
        &choice(regions, best.choice),
        regions.fixed.as_slice(),
        &best,
    )
}
