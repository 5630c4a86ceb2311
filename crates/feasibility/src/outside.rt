//! Demands that are farther than any sum of thrusts.
ghost use Rattle.std.specs.Prelude.{◌≡◌, ◌<◌, IfNone, IfSome, length, map};
ghost use Rattle.thrust_region.specs.Choices.{choices_of};
ghost use Rattle.thrust_region.specs.Pieces.{all_points};
ghost use Rattle.wrench_geometry.specs.Wrenches.{IsDemandVector};
ghost use Rattle.feasibility.specs.Beyond.{IsBeyond, IsSide};
ghost use Rattle.feasibility.specs.First.{IsByFirstAhead};
ghost use Rattle.feasibility.specs.Lowest.{IsLowest, IsPrimitive};
ghost use Rattle.feasibility.specs.Steps.{FallsShort, IsValidAhead};

use arrayvec::ArrayVec;
use certificate::{Cuts, Outcome};
use plant_model::limits::{MOST_FORCE, MOST_MOMENT};
use plant_model::plant::Plant;
use thrust_region::{Regions, choice, choices};
use wrench_geometry::{Vec3, farthest, sums_of};

/// The signed axis of the first component that is outside a demand's limits, along which no sum of
/// thrusts is as far. None where `ahead` is within the limits.
pub fn beyond(ahead: Vec3) -> Option<Vec3>
    ensures some { IfSome result (IsBeyond ahead) }
    ensures none { IfNone result (IsDemandVector ahead) }
{
    let x = side(ahead.x, MOST_FORCE);
    if x != 0 {
        return Some(Vec3 { x, y: 0, z: 0 });
    }
    let y = side(ahead.y, MOST_FORCE);
    if y != 0 {
        return Some(Vec3 { x: 0, y, z: 0 });
    }
    let z = side(ahead.z, MOST_MOMENT);
    if z != 0 {
        return Some(Vec3 { x: 0, y: 0, z });
    }
    None
}

/// 1 above `most`, -1 below `-most`, and 0 within.
fn side(z: i64, most: i32) -> i64
    ensures { IsSide most z result }
{
    let most = i64::from(most);
    if z > most {
        1
    } else if z < -most {
        -1
    } else {
        0
    }
}

/// The direction as the cut of each choice. `ahead` is farther along it than any sum of thrusts.
pub fn all_cut(plant: &Plant, regions: &Regions, ahead: Vec3, w: Vec3) -> Outcome
    requires region_each { length regions.now.list.items ≡ length plant.now.thrusters.items }
    requires beyond { IsBeyond ahead w }
    ensures valid { IsValidAhead plant.now regions.now ahead result }
    ensures lowest { IsLowest result }
    ensures first { IsByFirstAhead plant.now regions.now ahead result }
{
    let mut list = ArrayVec::new();
    for k in 0..choices(regions) {
        list.push(cut_beyond(plant, regions, k, ahead, w));
    }
    Outcome::Lost {
        cuts: Cuts { list },
    }
}

/// The direction as the cut of one choice, whose farthest sum along it is within a demand's limits.
fn cut_beyond(plant: &Plant, regions: &Regions, k: u32, ahead: Vec3, w: Vec3) -> Vec3
    requires region_each { length regions.now.list.items ≡ length plant.now.thrusters.items }
    requires there { k < choices_of (map all_points regions.now.list.items) }
    requires beyond { IsBeyond ahead w }
    ensures short { FallsShort plant.now regions.now ahead k result }
    ensures primitive { IsPrimitive result }
{
    let _farthest = farthest(&sums_of(plant, &choice(regions, k)), w);
    w
}
