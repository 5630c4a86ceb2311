//! How far the sums of many choices reach along a direction.
ghost use Rattle.std.specs.Prelude.{◌≡◌, ℕ, pos, ◌+◌, ◌*◌, ◌^◌, ◌<◌, ◌≤◌, ◌≤ℤ◌, ◌<ℤ◌, [], All};
ghost use Rattle.std.specs.Prelude.{length, map, slice_index_or};
ghost use Rattle.plant_model.specs.Rings.{origin};
ghost use Rattle.plant_model.specs.declared.limits.TheConstants.{FARTHEST_LEVER, MOST_THRUST};
ghost use Rattle.thrust_region.specs.Choices.{choice_of, choices_of};
ghost use Rattle.thrust_region.specs.Pieces.{all_points};
ghost use Rattle.wrench_geometry.specs.Chosen.{images_of, levers_of};
ghost use Rattle.wrench_geometry.specs.Vectors.{support_of};
ghost use Rattle.wrench_geometry.specs.Wrenches.{IsPointWithin};
ghost use Rattle.feasibility.specs.Spreads.{AreNumbers, IsSpread, farthest_of, reach_of, spread_of};

use plant_model::plant::Plant;
use plant_model::thrust::Point;
use thrust_region::{Regions, choices};
use wrench_geometry::{Vec3, dot, image};

/// The greatest product of `w` with the image of a point at the lever, or with the origin.
fn reach(lever: Point, points: &[Point], w: Vec3) -> i128
    requires lever { IsPointWithin FARTHEST_LEVER lever }
    requires points { All (IsPointWithin MOST_THRUST) points.now }
    ensures value { result ≡ reach_of w lever points.now }
    ensures low { pos 0 ≤ℤ result }
    ensures high { result ≤ℤ pos (2 ^ 87) }
{
    let mut reach = 0;
    for point in points {
        reach = reach.max(dot(w, image(lever, *point)));
    }
    reach
}

/// The same of the piece with the number of one thruster, by its place.
fn reach_of_piece(plant: &Plant, regions: &Regions, place: usize, piece: usize, w: Vec3) -> i128
    requires region_each { length regions.now.list.items ≡ length plant.now.thrusters.items }
    requires place { place < length plant.now.thrusters.items }
    ensures value { result ≡ reach_of w (slice_index_or (levers_of plant.now) place origin)
        (slice_index_or (slice_index_or (map all_points regions.now.list.items) place []) piece []) }
    ensures low { pos 0 ≤ℤ result }
    ensures high { result ≤ℤ pos (2 ^ 87) }
{
    let lever = plant.parts().thrusters[place].lever;
    let piece = regions.list[place].piece(piece);
    reach(lever, piece.points.as_slice(), w)
}

/// That of the piece of the thruster that reaches farthest.
fn farthest_reach(plant: &Plant, regions: &Regions, place: usize, w: Vec3) -> i128
    requires region_each { length regions.now.list.items ≡ length plant.now.thrusters.items }
    requires place { place < length plant.now.thrusters.items }
    ensures value { result ≡ farthest_of w (slice_index_or (levers_of plant.now) place origin)
        (slice_index_or (map all_points regions.now.list.items) place []) }
    ensures low { pos 0 ≤ℤ result }
    ensures high { result ≤ℤ pos (2 ^ 87) }
{
    let mut farthest = 0;
    for piece in 0..regions.list[place].len() {
        farthest = farthest.max(reach_of_piece(plant, regions, place, piece, w));
    }
    farthest
}

/// That of the piece that is fixed of a thruster, and of its farthest piece where none is.
fn reach_at(plant: &Plant, regions: &Regions, fixed: &[u32], place: usize, w: Vec3) -> i128
    requires region_each { length regions.now.list.items ≡ length plant.now.thrusters.items }
    requires place { place < length plant.now.thrusters.items }
    ensures fixed { place < length fixed.now → result
        ≡ reach_of w (slice_index_or (levers_of plant.now) place origin) (slice_index_or
        (slice_index_or (map all_points regions.now.list.items) place [])
        (slice_index_or fixed.now place 0) []) }
    ensures free { length fixed.now ≤ place → result
        ≡ farthest_of w (slice_index_or (levers_of plant.now) place origin)
        (slice_index_or (map all_points regions.now.list.items) place []) }
    ensures low { pos 0 ≤ℤ result }
    ensures high { result ≤ℤ pos (2 ^ 87) }
{
    if place < fixed.len() {
        reach_of_piece(plant, regions, place, fixed[place] as usize, w)
    } else {
        farthest_reach(plant, regions, place, w)
    }
}

/// The greatest support of `w` among the choices whose first pieces are `fixed`, by their numbers.
/// There are as many regions as thrusters, and such pieces of the first of them.
pub fn spread(plant: &Plant, regions: &Regions, fixed: &[u32], w: Vec3) -> i128
    requires region_each { length regions.now.list.items ≡ length plant.now.thrusters.items }
    requires numbers { AreNumbers (map all_points regions.now.list.items) fixed.now }
    ensures greatest { IsSpread w (levers_of plant.now) (map all_points regions.now.list.items)
        fixed.now result }
    ensures value { result
        ≡ spread_of w (levers_of plant.now) (map all_points regions.now.list.items) fixed.now }
    ensures low { pos 0 ≤ℤ result }
    ensures high { result ≤ℤ pos (12 * 2 ^ 87) }
{
    let mut total = 0;
    for place in 0..regions.list.len() {
        total += reach_at(plant, regions, fixed, place, w);
    }
    total
}

/// How many choices, from the `k`th on, have a support of `w` below `along`, as it is found of a
/// whole subtree of choices: of the choices with the same pieces of the first thrusters as this one.
/// It is the largest subtree that begins at this choice and is found so, and 0 where none is.
pub fn cut_off_from(plant: &Plant, regions: &Regions, k: u32, w: Vec3, along: i128) -> u32
    requires region_each { length regions.now.list.items ≡ length plant.now.thrusters.items }
    requires there { k < choices_of (map all_points regions.now.list.items) }
    ensures there { k + result ≤ choices_of (map all_points regions.now.list.items) }
    ensures short { (m : ℕ) → m < result → support_of (images_of (levers_of plant.now)
        (choice_of (map all_points regions.now.list.items) (k + m))) w <ℤ along }
{
    let mut reach = spread(plant, regions, &[], w);
    let mut size = choices(regions);
    let mut rest = k;
    for place in 0..regions.list.len() {
        if rest == 0 && reach < along {
            return size;
        }
        size /= regions.list[place].len() as u32;
        let piece = rest / size;
        rest %= size;
        reach -= farthest_reach(plant, regions, place, w);
        reach += reach_of_piece(plant, regions, place, piece as usize, w);
    }
    if reach < along { size } else { 0 }
}
