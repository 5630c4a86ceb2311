//! Whether what a log says is right beside what the machine says.
ghost use Rattle.std.specs.Prelude.{◌≡◌, pos, ◌⊎◌, ◌↔◌, IsTrue, false};
ghost use Rattle.plant_model.specs.declared.status.Loss.TheVariants.{Intact};
ghost use Rattle.wrench_geometry.specs.Vectors.{zero_vector};
ghost use Rattle.certificate.specs.Losses.{demand_of, question_after};
ghost use Rattle.thrust_allocation.specs.Allocations.{IsRight};
ghost use Rattle.log_audit.specs.Rights.{HasSameThrusts};
ghost use Rattle.log_audit.specs.Twins.{GivesAlike, IsAlsoRight, IsOwnRight, is_command};

use crate::shares::is_given;
use dp_num::Fraction;
use plant_core::{Allocation, Reply};
use plant_model::plant::Plant;
use plant_model::status::{Loss, Status};
use plant_model::wrench::Wrench;
use redundancy_groups::surviving;

/// Whether two allocations are of the same part in the same choice.
fn give_alike(own: &Allocation, other: &Allocation) -> bool
    ensures { IsTrue result ↔ GivesAlike own.now other.now }
{
    own.fraction.top == other.fraction.top
        && own.fraction.bottom == other.fraction.bottom
        && own.choice == other.choice
}

/// Whether two allocations have the same thrusts over the same denominator.
fn have_same_thrusts(own: &Allocation, other: &Allocation) -> bool
    ensures { IsTrue result ↔ HasSameThrusts own.now other.now }
{
    own.q == other.q && own.thrusts == other.thrusts
}

/// Whether there is no demand, or nothing is given of it.
fn is_nothing(demand: Wrench, part: Fraction) -> bool
    ensures { IsTrue result ↔ ((demand_of demand ≡ zero_vector) ⊎ (part.top ≡ pos 0)) }
{
    (demand.x == 0 && demand.y == 0 && demand.n == 0) || part.top == 0
}

/// Whether the allocation is right as well as the machine's own. Where nothing is given, no other thrusts are.
fn is_right(
    plant: &Plant,
    status: &Status,
    demand: Wrench,
    own: &Allocation,
    other: &Allocation,
) -> bool
    requires { IsRight (question_after plant.now status.now Intact demand) own.now }
    ensures { IsTrue result ↔ IsRight (question_after plant.now status.now Intact demand) other.now }
{
    if !give_alike(own, other) {
        return false;
    }
    if have_same_thrusts(own, other) {
        return true;
    }
    if is_nothing(demand, other.fraction) {
        return false;
    }
    is_given(
        plant,
        &surviving(plant, status, Loss::Intact),
        demand,
        other,
    )
}

/// Whether two replies are the same, of which the first is no command.
fn are_same(own: &Reply, other: &Reply) -> bool
    requires { is_command own.now ≡ false }
    ensures { IsTrue result ↔ (own.now ≡ other.now) }
{
    own == other
}

/// Whether two commands are of one version and one demand.
fn are_of_one(version: u32, demand: Wrench, other_version: u32, other_demand: Wrench) -> bool
    ensures { IsTrue result ↔ ((version ≡ other_version) × (demand ≡ other_demand)) }
{
    version == other_version && demand == other_demand
}

/// Whether a log may have the other reply where the machine has its own: it is the same, or a command with other thrusts
/// that are as right.
pub(crate) fn is_also_right(plant: &Plant, status: &Status, own: &Reply, other: &Reply) -> bool
    requires { IsOwnRight plant.now status.now own.now }
    ensures { IsTrue result ↔ IsAlsoRight plant.now status.now own.now other.now }
{
    match own {
        Reply::Commanded {
            version,
            demand,
            allocation,
        } => match other {
            Reply::Commanded {
                version: other_version,
                demand: other_demand,
                allocation: given,
            } => {
                are_of_one(*version, *demand, *other_version, *other_demand)
                    && is_right(plant, status, *demand, allocation, given)
            }
            _ => false,
        },
        _ => are_same(own, other),
    }
}
