//! Whether an outcome is valid.
ghost use Rattle.std.specs.Prelude.{◌≡◌, IfErr, OnOk, length};
ghost use Rattle.plant_model.specs.Versions.{IsDemand};
ghost use Rattle.redundancy_groups.specs.Standing.{IsLossOf};
ghost use Rattle.certificate.specs.Losses.{demand_of, question_after};
ghost use Rattle.certificate.specs.Outcomes.{IsFirstFault, IsShown, IsValid, question_of};

use crate::demand::{ahead, vector_of};
use crate::holds::judge_holds;
use crate::lost::judge_lost;
use crate::outcome::{Outcome, Place};
use plant_model::plant::Plant;
use plant_model::status::{Loss, Status};
use plant_model::wrench::Wrench;
use redundancy_groups::surviving;
use thrust_region::Regions;

/// Whether the outcome is valid for what the loss leaves of the plant and for the demand, else the
/// first place that fails. A group's number is below the count of groups, and the demand is within
/// its limits.
pub fn check(
    plant: &Plant,
    status: &Status,
    loss: Loss,
    demand: Wrench,
    outcome: &Outcome,
) -> Result<(), Place>
    requires loss { IsLossOf plant.now loss }
    requires demand { IsDemand demand }
    ensures ok { OnOk result
        (IsValid (question_after plant.now status.now loss demand) outcome.now) }
    ensures err { IfErr result
        (IsFirstFault (question_after plant.now status.now loss demand) outcome.now) }
    ensures shown { OnOk result
        (IsShown (question_after plant.now status.now loss demand) outcome.now) }
{
    judge(plant, &surviving(plant, status, loss), demand, outcome)
}

/// Whether the outcome is valid for what the regions leave of the plant, else the first place that
/// fails. There are a region and a fixed thrust for each thruster, and the demand is within its
/// limits.
pub fn judge(
    plant: &Plant,
    regions: &Regions,
    demand: Wrench,
    outcome: &Outcome,
) -> Result<(), Place>
    requires region_each { length regions.now.list.items ≡ length plant.now.thrusters.items }
    requires fixed_each { length regions.now.fixed.items ≡ length plant.now.thrusters.items }
    requires demand { IsDemand demand }
    ensures ok { OnOk result
        (IsValid (question_of plant.now regions.now (demand_of demand)) outcome.now) }
    ensures err { IfErr result
        (IsFirstFault (question_of plant.now regions.now (demand_of demand)) outcome.now) }
{
    let vector = vector_of(demand);
    match outcome {
        Outcome::Holds { choice, q, thrusts } => {
            judge_holds(plant, regions, vector, *choice, *q, thrusts)
        }
        Outcome::Lost { cuts } => {
            judge_lost(plant, regions, ahead(plant, regions, vector), cuts)
        }
    }
}
