//! Allocations with the thrusts that they give.
ghost use Rattle.std.specs.Prelude.{◌≡◌, pos, ◌≤ℤ◌, length, map};
ghost use Rattle.thrust_allocation.specs.Allocations.{Gives};
ghost use Rattle.thrust_region.specs.Choices.{choice_of};
ghost use Rattle.thrust_region.specs.Pieces.{points_of};
ghost use Rattle.wrench_geometry.specs.Chosen.{levers_of};
ghost use Rattle.certificate.specs.Outcomes.{IsOneEach, Question, no_thrust};
ghost use Rattle.feasibility.specs.Lowest.{AreLowest};
ghost use Rattle.feasibility.specs.Means.{HaveRoom};
ghost use Rattle.allocator.specs.Reaches.{AreAtRest, IsReach};

use crate::reach::{Reach, denominator};
use dp_num::Fraction;
use feasibility::lowest::{Shared, lowest};
use feasibility::mean::means;
use plant_model::plant::Plant;
use plant_model::thrust::{Point, Thrust, Thrusts};
use thrust_allocation::Allocation;
use thrust_region::Chosen;

/// The allocation of the part that the chosen pieces reach: their weighted points as thrusts, in
/// lowest terms. There is a list of weights and a fixed thrust for each piece, and a weight for
/// each point.
pub fn given(chosen: &Chosen, fixed: &[Point], reach: &Reach) -> Allocation
    requires rows { HaveRoom reach.now.exit.weights.items (map points_of chosen.now.pieces.items) }
    requires fixed_each { length fixed.now ≡ length chosen.now.pieces.items }
    requires from_1 { pos 1 ≤ℤ reach.now.exit.q }
    ensures fraction { result.fraction ≡ reach.now.part }
    ensures choice { result.choice ≡ reach.now.choice }
    ensures gives { (question : Question) → IsOneEach question → AreAtRest question.fixed →
        fixed.now ≡ question.fixed →
        map points_of chosen.now.pieces.items ≡ choice_of question.regions reach.now.choice →
        IsReach question reach.now →
        Gives question reach.now.choice reach.now.part.top reach.now.part.bottom result.q
        result.thrusts.list.items }
    ensures lowest { AreLowest result.q result.thrusts.list.items }
{
    let shared = Shared {
        q: denominator(&reach.exit),
        thrusts: means(chosen, fixed, &reach.exit),
    };
    let Shared { q, thrusts } = lowest(&shared);
    Allocation {
        fraction: reach.part,
        choice: reach.choice,
        q,
        thrusts,
    }
}

/// The allocation of the part with no thrust of any thruster, in the first choice.
pub fn idle(plant: &Plant, fraction: Fraction) -> Allocation
    ensures fraction { result.fraction ≡ fraction }
    ensures choice { result.choice ≡ 0 }
    ensures q { result.q ≡ pos 1 }
    ensures thrusts { result.thrusts.list.items ≡ map (λ lever. no_thrust) (levers_of plant.now) }
{
    Allocation {
        fraction,
        choice: 0,
        q: 1,
        thrusts: no_thrusts(plant),
    }
}

/// No thrust of each thruster.
fn no_thrusts(plant: &Plant) -> Thrusts
    ensures { result.list.items ≡ map (λ lever. no_thrust) (levers_of plant.now) }
{
    let mut thrusts = Thrusts::default();
    for _thruster in plant.parts().thrusters.as_slice() {
        thrusts.list.push(Thrust::default());
    }
    thrusts
}
