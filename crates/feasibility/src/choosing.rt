//! Whether some choice of regions meets a demand.
ghost use Rattle.std.specs.Prelude.{◌≡◌, ◌≢◌, ◌<◌, length, map, IsFalse, IsTrue};
ghost use Rattle.thrust_region.specs.Choices.{choices_of};
ghost use Rattle.thrust_region.specs.Pieces.{all_points};
ghost use Rattle.wrench_geometry.specs.Vectors.{zero_vector};
ghost use Rattle.wrench_geometry.specs.Wrenches.{IsDemandVector};
ghost use Rattle.feasibility.specs.First.{IsByFirstAhead};
ghost use Rattle.feasibility.specs.Lowest.{IsLowest, IsPrimitive};
ghost use Rattle.feasibility.specs.Steps.{AreCutOff, FallsShort, IsStep, IsValidAhead};

use crate::step::{cut_off, held};
use crate::subtrees::cut_off_from;
use arrayvec::ArrayVec;
use certificate::{Cuts, Outcome};
use exit_point::exit;
use plant_model::limits::MOST_CHOICES;
use plant_model::plant::Plant;
use thrust_region::{Regions, choice, choices};
use wrench_geometry::{Vec3, dot, sums_of};

/// What a choice says of a demand.
#[derive(Drop)]
pub enum Step {
    /// It meets the demand.
    Met(Outcome),
    /// No sum of its thrusts is as far along the direction as the demand.
    CutOff(Vec3),
}

/// Whether some choice meets a demand that is `ahead` of the load of the fixed thrusts, with what
/// shows it: the first choice that does, or a cut for each. Before a choice's exit the cuts found so
/// far are tried, the latest first, and what separates it is the cut of the whole subtree of choices
/// that it is found to separate. There are a region and a fixed thrust for each thruster, and
/// `ahead`, in kN and kN·dm, is within the limits of a demand and not zero.
pub fn choose(plant: &Plant, regions: &Regions, ahead: Vec3) -> Outcome
    requires region_each { length regions.now.list.items ≡ length plant.now.thrusters.items }
    requires fixed_each { length regions.now.fixed.items ≡ length plant.now.thrusters.items }
    requires ahead { IsDemandVector ahead }
    requires not_zero { ahead ≢ zero_vector }
    ensures valid { IsValidAhead plant.now regions.now ahead result }
    ensures lowest { IsLowest result }
    ensures first { IsByFirstAhead plant.now regions.now ahead result }
{
    let mut list = ArrayVec::new();
    for k in 0..choices(regions) {
        if (k as usize) < list.len() {
            continue;
        }
        if takes_earlier(plant, regions, ahead, &mut list) {
            continue;
        }
        match judge_choice(plant, regions, k, ahead) {
            Step::Met(outcome) => return outcome,
            Step::CutOff(w) => take(plant, regions, ahead, &mut list, w),
        }
    }
    Outcome::Lost {
        cuts: Cuts { list },
    }
}

/// Adds the direction, which separates the next choice, as the cut of this one and of as many after
/// it as it is found to separate too.
fn take(
    plant: &Plant,
    regions: &Regions,
    ahead: Vec3,
    cuts: &mut ArrayVec<Vec3, MOST_CHOICES>,
    own: Vec3,
)
    requires region_each { length regions.now.list.items ≡ length plant.now.thrusters.items }
    requires ahead { IsDemandVector ahead }
    requires cut { AreCutOff plant.now regions.now ahead cuts.old.items }
    requires there { length cuts.old.items < choices_of (map all_points regions.now.list.items) }
    requires short { FallsShort plant.now regions.now ahead (length cuts.old.items) own }
    requires primitive { IsPrimitive own }
    ensures cut { AreCutOff plant.now regions.now ahead cuts.new.items }
    ensures more { length cuts.old.items < length cuts.new.items }
{
    if !takes(plant, regions, ahead, cuts, own) {
        cuts.push(own);
    }
}

/// Adds the direction as the cut of the next choices, as far as it is found to separate them.
/// Whether it is of any.
fn takes(
    plant: &Plant,
    regions: &Regions,
    ahead: Vec3,
    cuts: &mut ArrayVec<Vec3, MOST_CHOICES>,
    w: Vec3,
) -> bool
    requires region_each { length regions.now.list.items ≡ length plant.now.thrusters.items }
    requires ahead { IsDemandVector ahead }
    requires cut { AreCutOff plant.now regions.now ahead cuts.old.items }
    requires there { length cuts.old.items < choices_of (map all_points regions.now.list.items) }
    requires primitive { IsPrimitive w }
    ensures cut { AreCutOff plant.now regions.now ahead cuts.new.items }
    ensures more { IsTrue result → length cuts.old.items < length cuts.new.items }
    ensures same { IsFalse result → cuts.new ≡ cuts.old }
{
    let next = cuts.len() as u32;
    let size = cut_off_from(plant, regions, next, w, dot(w, ahead));
    for _ in 0..size {
        cuts.push(w);
    }
    size > 0
}

/// Adds the latest of the earlier cuts that separates the next choice as its cut, and as that of
/// those after it that it is found to separate too. Whether there is one.
fn takes_earlier(
    plant: &Plant,
    regions: &Regions,
    ahead: Vec3,
    cuts: &mut ArrayVec<Vec3, MOST_CHOICES>,
) -> bool
    requires region_each { length regions.now.list.items ≡ length plant.now.thrusters.items }
    requires ahead { IsDemandVector ahead }
    requires cut { AreCutOff plant.now regions.now ahead cuts.old.items }
    requires there { length cuts.old.items < choices_of (map all_points regions.now.list.items) }
    ensures cut { AreCutOff plant.now regions.now ahead cuts.new.items }
    ensures more { IsTrue result → length cuts.old.items < length cuts.new.items }
    ensures same { IsFalse result → cuts.new ≡ cuts.old }
{
    let count = cuts.len();
    let mut tried = Vec3::default();
    for back in 0..count {
        let w = cuts[count - 1 - back];
        if w != tried && takes(plant, regions, ahead, cuts, w) {
            return true;
        }
        tried = w;
    }
    false
}

/// Whether the choice meets the demand, with what shows it.
fn judge_choice(plant: &Plant, regions: &Regions, k: u32, ahead: Vec3) -> Step
    requires region_each { length regions.now.list.items ≡ length plant.now.thrusters.items }
    requires fixed_each { length regions.now.fixed.items ≡ length plant.now.thrusters.items }
    requires ahead { IsDemandVector ahead }
    requires not_zero { ahead ≢ zero_vector }
    requires there { k < choices_of (map all_points regions.now.list.items) }
    ensures { IsStep plant.now regions.now ahead k result }
{
    let chosen = choice(regions, k);
    let exit = exit(&sums_of(plant, &chosen), ahead);
    if exit.t < exit.q {
        return Step::CutOff(cut_off(&exit));
    }
    Step::Met(held(k, &chosen, regions.fixed.as_slice(), &exit))
}
