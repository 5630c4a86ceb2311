//! The thrusts that weights of points make.
ghost use Rattle.std.specs.Prelude.{◌≡◌, ◌+ℤ◌, ◌*ℤ◌, ◌≤◌, length, map};
ghost use Rattle.plant_model.specs.declared.limits.TheConstants.{MOST_PIECE_POINTS};
ghost use Rattle.thrust_region.specs.Pieces.{points_of};
ghost use Rattle.wrench_geometry.specs.Wrenches.{IsPointWithin};
ghost use Rattle.certificate.specs.Sides.{place_of};
ghost use Rattle.feasibility.specs.Means.{HaveRoom, mean_beside, means_beside};

use exit_point::ExitWeights;
use plant_model::limits::MOST_PIECE_POINTS;
use plant_model::thrust::{Point, Thrust, Thrusts};
use thrust_region::Chosen;

/// The farthest coordinate of a point times a weight.
const MOST_PART: i128 = 1 << 94;

/// The farthest coordinate of a fixed thrust and the points of a piece, each times a weight.
const MOST_MEAN: i128 = (MOST_PIECE_POINTS as i128 + 1) * MOST_PART;

/// The thrusts over `t` that the weights make of the chosen pieces' points, each with its fixed
/// thrust. There is a list of weights and a fixed thrust for each piece, and a weight for each
/// point.
pub fn means(chosen: &Chosen, fixed: &[Point], exit: &ExitWeights) -> Thrusts
    requires rows { HaveRoom exit.now.weights.items (map points_of chosen.now.pieces.items) }
    requires fixed_each { length fixed.now ≡ length chosen.now.pieces.items }
    ensures { result.list.items
        ≡ means_beside exit.now.weights.items (map points_of chosen.now.pieces.items)
        exit.now.t fixed.now }
{
    let mut thrusts = Thrusts::default();
    for (i, piece) in chosen.pieces.as_slice().iter().enumerate() {
        let weights = exit.weights[i].as_slice();
        thrusts
            .list
            .push(mean(piece.points.as_slice(), weights, exit.t, fixed[i]));
    }
    thrusts
}

/// The points, each times its weight, with `t` times the fixed thrust. There is a weight for each
/// point.
fn mean(points: &[Point], weights: &[i64], t: i64, fixed: Point) -> Thrust
    requires few { length points.now ≤ MOST_PIECE_POINTS }
    requires one_each { length points.now ≤ length weights.now }
    ensures { result ≡ mean_beside weights.now points.now t fixed }
{
    let mut total = part(t, fixed);
    for (i, point) in points.iter().enumerate() {
        total = sum(total, part(weights[i], *point));
    }
    total
}

fn part(weight: i64, point: Point) -> Thrust
    ensures x { result.x ≡ weight *ℤ point.x }
    ensures y { result.y ≡ weight *ℤ point.y }
    ensures within { IsPointWithin MOST_PART (place_of result) }
{
    Thrust {
        x: weight as i128 * point.x as i128,
        y: weight as i128 * point.y as i128,
    }
}

/// A mean with one part more.
fn sum(total: Thrust, part: Thrust) -> Thrust
    requires total { IsPointWithin MOST_MEAN (place_of total) }
    requires part { IsPointWithin MOST_PART (place_of part) }
    ensures x { result.x ≡ total.x +ℤ part.x }
    ensures y { result.y ≡ total.y +ℤ part.y }
{
    Thrust {
        x: total.x + part.x,
        y: total.y + part.y,
    }
}
