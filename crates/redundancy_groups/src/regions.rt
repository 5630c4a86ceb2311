//! What each thruster can give after a loss.
ghost use Rattle.std.specs.Prelude.{◌≡◌, ◌<◌, ◌≤◌, length, map, slice_index_or, true};
ghost use Rattle.std.specs.Prelude.{false, IsTrue};
ghost use Rattle.std.specs.List.{list_all};
ghost use Rattle.bus_topology.specs.Islands.{IsIslandMap, IsLive};
ghost use Rattle.plant_model.specs.Plants.{is_plant, is_thruster};
ghost use Rattle.redundancy_groups.specs.Standing.{IsLossOf, standing_of};
ghost use Rattle.redundancy_groups.specs.Surviving.{fixed_at, fixed_of, lists_of, pieces_at};
ghost use Rattle.thrust_region.specs.Pieces.{all_points, are_thrusts};

use crate::stands::{is_live, is_lost, standing};
use arrayvec::ArrayVec;
use bus_topology::{IslandMap, islands, quarter, share};
use plant_model::limits::{MOST_SECTIONS, MOST_THRUSTERS};
use plant_model::parts::{Member, Thruster};
use plant_model::plant::{Parts, Plant};
use plant_model::status::{Loss, Standing, Status};
use plant_model::thrust::Point;
use thrust_region::{Region, Regions};

/// What each thruster can give after the loss: its pieces, at as many quarters of their thrust as
/// its share of the power allows, without those that the status bars. One that isn't selected any
/// more, whose quarter is 0 or of which all pieces are barred has one piece without points, which
/// is the origin alone. A thruster that is itself lost, was selected and stands on a section that
/// is still live stays at its frozen thrust, if it has one; the fixed thrust of any other is zero.
/// A group's number is below the count of groups.
pub fn surviving<'a>(plant: &'a Plant, status: &Status, loss: Loss) -> Regions<'a>
    requires { IsLossOf plant.now loss }
    ensures list { map all_points result.list.items ≡ lists_of plant.now status.now loss }
    ensures fixed { result.fixed.items ≡ fixed_of plant.now status.now loss }
    ensures one_list_each { length result.list.items ≡ length plant.now.thrusters.items }
    ensures one_fixed_each { length result.fixed.items ≡ length plant.now.thrusters.items }
{
    let standing = standing(plant, status, loss);
    let list = lists(plant, status, &standing, loss);
    let fixed = fixed_thrusts(plant.parts(), status, loss);
    Regions { list, fixed }
}

/// The fixed thrust of each thruster.
fn fixed_thrusts(parts: &Parts, status: &Status, loss: Loss) -> ArrayVec<Point, MOST_THRUSTERS>
    requires { IsLossOf parts.now loss }
    ensures { result.items ≡ fixed_of parts.now status.now loss }
{
    let mut fixed = ArrayVec::new();
    for (place, thruster) in parts.thrusters.as_slice().iter().enumerate() {
        fixed.push(fixed_at(parts, status, loss, place, thruster));
    }
    fixed
}

/// What the thruster gives whatever is asked of it.
fn fixed_at(parts: &Parts, status: &Status, loss: Loss, place: usize, thruster: &Thruster) -> Point
    requires loss { IsLossOf parts.now loss }
    requires place { place < MOST_THRUSTERS }
    ensures { result ≡ fixed_at parts.now status.now loss (place, thruster.now) }
{
    let fails_alone = is_lost(parts, loss, Member::Thruster(place as u32))
        && status.selected[place]
        && is_live(parts, loss, thruster.section);
    match thruster.frozen {
        Some(frozen) if fails_alone => frozen,
        _ => Point::default(),
    }
}

/// The pieces of each thruster, as the plant stands after the loss.
fn lists<'a>(
    plant: &'a Plant,
    status: &Status,
    standing: &Standing,
    loss: Loss,
) -> ArrayVec<Region<'a>, MOST_THRUSTERS>
    requires { standing.now ≡ standing_of plant.now status.now loss }
    ensures value { map all_points result.items ≡ lists_of plant.now status.now loss }
    ensures within { IsTrue (list_all are_thrusts (map all_points result.items)) }
{
    few_sections(plant);
    let islands = islands(plant, standing);
    let mut lists = ArrayVec::new();
    for (place, thruster) in plant.parts().thrusters.as_slice().iter().enumerate() {
        lists.push(pieces_at(plant, status, standing, &islands, place, thruster));
    }
    lists
}

/// A plant has no more sections than a standing has places for. Calling it does nothing.
fn few_sections(plant: &Plant)
    ensures { length plant.now.sections.items ≤ MOST_SECTIONS }
{
    plant.sections().len();
}

/// What the thruster can give, as the plant stands. One that is selected stands on a live section.
fn pieces_at<'a>(
    plant: &Plant,
    status: &Status,
    standing: &Standing,
    islands: &IslandMap,
    place: usize,
    thruster: &'a Thruster,
) -> Region<'a>
    requires islands { IsIslandMap plant.now standing.now islands.now.of }
    requires place { place < MOST_THRUSTERS }
    requires thruster { IsTrue (is_thruster thruster.now) }
    requires fed { slice_index_or standing.now.selected place false ≡ true
        → IsLive plant.now standing.now thruster.now.section }
    ensures value { all_points result
        ≡ pieces_at plant.now standing.now status.now.barred (place, thruster.now) }
    ensures within { IsTrue (are_thrusts (all_points result)) }
{
    if !standing.selected[place] {
        return Region::default();
    }
    let share = share(plant, standing, islands, thruster.section);
    let quarter = quarter(share, &thruster.thresholds);
    Region::of(&thruster.pieces, quarter, status.barred[place])
}
