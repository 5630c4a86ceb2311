//! How much of a demand is asked of the thrusters, and who says so.
ghost use Rattle.plant_model.specs.Versions.{IsDemand};
ghost use Rattle.plant_model.specs.declared.status.Loss.TheVariants.{Intact};
ghost use Rattle.certificate.specs.Losses.{question_after};
ghost use Rattle.thrust_allocation.specs.Allocations.{IsRight};

use dp_num::Fraction;
use plant_model::plant::Plant;
use plant_model::status::Status;
use plant_model::thrust::Thrusts;
use plant_model::wrench::Wrench;

/// The greatest part of a demand that the thrusters can give, with the thrusts that give it.
#[derive(Clone, Debug, PartialEq, Eq, Drop)]
pub struct Allocation {
    /// The part of the demand, from 0 to 1 and in lowest terms.
    pub fraction: Fraction,
    /// The first choice of one piece for each thruster in which that part can be given.
    pub choice: u32,
    /// The denominator of the thrusts, at least 1.
    pub q: i64,
    /// The thrusts over `q`, in kN, which sum with their levers to the part of the demand.
    pub thrusts: Thrusts,
}

/// Who allocates a demand to the thrusters.
pub trait Allocate {
    /// The greatest part of the demand, which is within its limits, that the thrusters can give as the plant
    /// stands in the status, with no loss. It is 1 for no demand at all; of this and of the part 0, the choice is
    /// 0, the denominator 1 and all thrusts zero.
    fn allocate(&self, plant: &Plant, status: &Status, demand: Wrench) -> Allocation
        requires { IsDemand demand }
        ensures { IsRight (question_after plant.now status.now Intact demand) result };
}
