//! Whether a Lost is valid.
ghost use Rattle.std.specs.Prelude.{◌≡◌, length, OnOk, IfErr};
ghost use Rattle.certificate.specs.Outcomes.{IsAhead, IsFirstFault, IsValid, question_of};
ghost use Rattle.certificate.specs.declared.outcome.Outcome.TheVariants.{Lost};
ghost use Rattle.wrench_geometry.specs.Vectors.{IsVectorWithin};
ghost use Rattle.wrench_geometry.specs.declared.vector.Vec3.{Vec3};
ghost use Rattle.wrench_geometry.specs.declared.vector.TheConstants.{MOST_PLAIN};

use crate::cut::check_cut;
use crate::outcome::{Cuts, Place};
use plant_model::plant::Plant;
use thrust_region::{Regions, choice, choices};
use wrench_geometry::{Vec3, sums_of};

/// Whether each choice has a cut that separates it from the demand, else the first place that
/// fails. `ahead` is the demand less the load of the fixed thrusts, and within
/// [`wrench_geometry::MOST_PLAIN`] along its axes. There is a region for each thruster.
pub fn judge_lost(plant: &Plant, regions: &Regions, ahead: Vec3, cuts: &Cuts) -> Result<(), Place>
    requires one_each { length regions.now.list.items ≡ length plant.now.thrusters.items }
    requires within { IsVectorWithin MOST_PLAIN MOST_PLAIN ahead }
    ensures ok { (demand : Vec3) → IsAhead (question_of plant.now regions.now demand) ahead →
        OnOk result (IsValid (question_of plant.now regions.now demand) (Lost cuts.now)) }
    ensures err { (demand : Vec3) → IsAhead (question_of plant.now regions.now demand) ahead →
        IfErr result (IsFirstFault (question_of plant.now regions.now demand) (Lost cuts.now)) }
{
    let count = choices(regions);
    let directions = cuts.list.as_slice();
    if directions.len() != count as usize {
        return Err(Place::CutCount);
    }
    for k in 0..count {
        let sums = sums_of(plant, &choice(regions, k));
        if !check_cut(&sums, directions[k as usize], ahead) {
            return Err(Place::Cut(k));
        }
    }
    Ok(())
}
