//! Whether a Holds is valid.
ghost use Rattle.std.specs.Prelude.{◌≡◌, ◌≤◌, pos, ◌*ℤ◌, ◌≤ℤ◌, ◌↔◌, All, IsTrue, length, map};
ghost use Rattle.std.specs.Prelude.{IfErr, IfNone, IfSome, OnOk};
ghost use Rattle.std.specs.Bool.{OnTrue};
ghost use Rattle.plant_model.specs.Lies.{LiesIn};
ghost use Rattle.plant_model.specs.Numbers.{IsWithin};
ghost use Rattle.plant_model.specs.declared.limits.TheConstants.{MOST_THRUST, MOST_THRUSTERS};
ghost use Rattle.thrust_region.specs.Pieces.{points_of};
ghost use Rattle.wrench_geometry.specs.Wrenches.{IsPointWithin};
ghost use Rattle.certificate.specs.Outcomes.{IsFirstFault, IsValid, question_of, without};
ghost use Rattle.certificate.specs.declared.outcome.Outcome.TheVariants.{Holds};
ghost use Rattle.certificate.specs.Beside.{IsFirstAstray, IsTaken, LieBelow};
ghost use Rattle.certificate.specs.Sides.{place_of};

use crate::hull::{FARTHEST, lies};
use crate::outcome::Place;
use crate::totals::{is_product, sum_at_levers};
use plant_model::plant::Plant;
use plant_model::thrust::{Piece, Point, Thrust, Thrusts};
use thrust_region::{Chosen, Regions, choice, choices};
use wrench_geometry::Vec3;

/// The farthest coordinate of a fixed thrust and a point together.
const FARTHEST_BESIDE: i128 = 2 * FARTHEST;

/// The farthest coordinate of a thrust that over some denominator is no farther than that.
pub(crate) const FARTHEST_TAKEN: i128 = FARTHEST_BESIDE * i64::MAX as i128;

/// Whether the thrusts over `q` meet the demand exactly, each less its fixed thrust in its piece of
/// the choice, else the first place that fails. There are a region and a fixed thrust for each
/// thruster.
pub fn judge_holds(
    plant: &Plant,
    regions: &Regions,
    demand: Vec3,
    number: u32,
    q: i64,
    thrusts: &Thrusts,
) -> Result<(), Place>
    requires region_each { length regions.now.list.items ≡ length plant.now.thrusters.items }
    requires fixed_each { length regions.now.fixed.items ≡ length plant.now.thrusters.items }
    ensures ok { OnOk result
        (IsValid (question_of plant.now regions.now demand) (Holds number q thrusts.now)) }
    ensures err { IfErr result
        (IsFirstFault (question_of plant.now regions.now demand) (Holds number q thrusts.now)) }
{
    if q < 1 {
        return Err(Place::Denominator);
    }
    if number >= choices(regions) {
        return Err(Place::Choice);
    }
    let list = thrusts.list.as_slice();
    if list.len() != plant.parts().thrusters.len() {
        return Err(Place::ThrustCount);
    }
    if let Some(i) = first_astray(&choice(regions, number), regions.fixed.as_slice(), list, q) {
        return Err(Place::Thruster(i));
    }
    if !is_product(sum_at_levers(plant, list), q, demand) {
        return Err(Place::Sum);
    }
    Ok(())
}

/// The first thruster whose thrust over `q` without its fixed thrust doesn't lie in its piece.
fn first_astray(chosen: &Chosen, fixed: &[Point], thrusts: &[Thrust], q: i64) -> Option<u32>
    requires from_1 { pos 1 ≤ℤ q }
    requires piece_each { length chosen.now.pieces.items ≡ length thrusts.now }
    requires fixed_each { length fixed.now ≡ length thrusts.now }
    requires few { length thrusts.now ≤ MOST_THRUSTERS }
    ensures some { IfSome result
        (IsFirstAstray (map points_of chosen.now.pieces.items) fixed.now thrusts.now q) }
    ensures none { IfNone result
        (LieBelow (map points_of chosen.now.pieces.items) fixed.now thrusts.now q
        (length thrusts.now)) }
    ensures taken { IfNone result (All IsTaken thrusts.now) }
{
    for (i, thrust) in thrusts.iter().enumerate() {
        if !lies_beside(&chosen.pieces[i], fixed[i], *thrust, q) {
            return Some(i as u32);
        }
    }
    None
}

/// Whether what is left of the thrust over `q` without the fixed thrust lies in the piece, whose
/// points are within the greatest thrust.
pub fn lies_beside(piece: &Piece, fixed: Point, thrust: Thrust, q: i64) -> bool
    requires from_1 { pos 1 ≤ℤ q }
    requires points { All (IsPointWithin MOST_THRUST) piece.now.points.items }
    ensures lies { IsTrue result ↔ LiesIn piece.now.points.items (without q fixed thrust) q }
    ensures reached { OnTrue result (IsTaken thrust) }
{
    is_taken(thrust, q) && lies(piece, rest_of(thrust, fixed, q), q)
}

/// Whether the coordinates of the thrust over `q` are no farther than those of a fixed thrust and a
/// point together.
fn is_taken(thrust: Thrust, q: i64) -> bool
    requires { pos 1 ≤ℤ q }
    ensures taken { IsTrue result ↔ IsPointWithin (FARTHEST_BESIDE *ℤ q) (place_of thrust) }
    ensures reached { OnTrue result (IsTaken thrust) }
{
    is_taken_along(thrust.x, q) && is_taken_along(thrust.y, q)
}

/// The same along one axis.
fn is_taken_along(z: i128, q: i64) -> bool
    requires { pos 1 ≤ℤ q }
    ensures taken { IsTrue result ↔ IsWithin (FARTHEST_BESIDE *ℤ q) z }
    ensures reached { OnTrue result (IsWithin FARTHEST_TAKEN z) }
{
    let most = FARTHEST_BESIDE * q as i128;
    -most <= z && z <= most
}

/// What is left of the thrust over `q` without the fixed thrust.
fn rest_of(thrust: Thrust, fixed: Point, q: i64) -> Thrust
    requires { IsTaken thrust }
    ensures x { result.x ≡ (without q fixed thrust).x }
    ensures y { result.y ≡ (without q fixed thrust).y }
{
    Thrust {
        x: thrust.x - q as i128 * fixed.x as i128,
        y: thrust.y - q as i128 * fixed.y as i128,
    }
}
