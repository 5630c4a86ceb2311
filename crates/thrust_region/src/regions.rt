//! The regions of all thrusters, and the choices of one piece of each.
ghost use Rattle.std.specs.Prelude.{◌≡◌, ◌<◌, ◌≤◌, map, length};
ghost use Rattle.std.specs.Prelude.{IsTrue};
ghost use Rattle.std.specs.List.{list_all};
ghost use Rattle.thrust_region.specs.Pieces.{points_of, all_points, are_thrusts};
ghost use Rattle.thrust_region.specs.Choices.{choices_of, choice_of};
ghost use Rattle.plant_model.specs.declared.limits.TheConstants.{MOST_CHOICES};

use crate::region::Region;
use arrayvec::ArrayVec;
use plant_model::limits::{MOST_CHOICES, MOST_THRUSTERS};
use plant_model::thrust::{Piece, Point};

/// What each thruster can give, in the order of thrusters. There are 1 to [`MOST_CHOICES`] choices of one piece for
/// each thruster, and all points of pieces are within the greatest thrust.
#[derive(Debug, Drop)]
pub struct Regions<'a> {
    /// The pieces of each thruster.
    pub list: ArrayVec<Region<'a>, MOST_THRUSTERS>,
    /// What each thruster gives beside a thrust in its piece: a frozen thruster its thrust, any other one nothing.
    pub fixed: ArrayVec<Point, MOST_THRUSTERS>,
    pub ghost some: { 1 ≤ choices_of (map all_points list.items) },
    pub ghost few: { choices_of (map all_points list.items) ≤ MOST_CHOICES },
    pub ghost within: { IsTrue (list_all are_thrusts (map all_points list.items)) },
}

/// One piece of each thruster, in the order of thrusters. All points are within the greatest thrust.
#[derive(Debug, Drop)]
pub struct Chosen {
    pub pieces: ArrayVec<Piece, MOST_THRUSTERS>,
    pub ghost within: { IsTrue (are_thrusts (map points_of pieces.items)) },
}

/// How many choices of one piece for each thruster there are: 1 to [`MOST_CHOICES`].
pub fn choices(regions: &Regions) -> u32
    ensures product { result ≡ choices_of (map all_points regions.now.list.items) }
    ensures some { 1 ≤ result }
    ensures few { result ≤ MOST_CHOICES }
{
    let mut product = 1;
    for region in regions.list.as_slice() {
        product *= region.len() as u32;
    }
    product
}

/// The choice with the number `k`, which is below [`choices`]. Choices are numbered from 0 with the piece of the last
/// thruster varying fastest.
pub fn choice(regions: &Regions, k: u32) -> Chosen
    requires { k < choices_of (map all_points regions.now.list.items) }
    ensures pieces { map points_of result.pieces.items
        ≡ choice_of (map all_points regions.now.list.items) k }
    ensures one_each { length result.pieces.items ≡ length regions.now.list.items }
{
    let mut pieces = ArrayVec::new();
    let mut others = choices(regions);
    let mut rest = k;
    for region in regions.list.as_slice() {
        others /= region.len() as u32;
        pieces.push(region.piece((rest / others) as usize));
        rest %= others;
    }
    Chosen { pieces }
}
