//! Pieces at a part of their power.
ghost use Rattle.std.specs.Prelude.{◌≡◌, ◌≤◌, map, IsTrue};
ghost use Rattle.std.specs.List.{list_all};
ghost use Rattle.plant_model.specs.Rings.{is_ring_point, is_thrust_coordinate};
ghost use Rattle.thrust_region.specs.Pieces.{points_of, all_points, is_thrust, are_thrusts};
ghost use Rattle.thrust_region.specs.Scaling.{quarter_of, scaled_point, scaled_points};
ghost use Rattle.thrust_region.specs.Scaling.{are_whole_points};

use plant_model::limits::QUARTERS;
use plant_model::thrust::{Piece, Pieces, Point};

/// So many quarters of a coordinate, which is a multiple of four.
fn quarter_of(coordinate: i32, quarter: u32) -> i32
    requires coordinate { IsTrue (is_thrust_coordinate coordinate) }
    requires quarter { quarter ≤ QUARTERS }
    ensures value { result ≡ quarter_of quarter coordinate }
    ensures within { IsTrue (is_thrust_coordinate result) }
{
    (coordinate * quarter as i32).div_euclid(QUARTERS as i32)
}

/// The piece at so many quarters of its thrust.
pub fn scaled_piece(piece: &Piece, quarter: u32) -> Piece
    requires points { IsTrue (list_all is_ring_point (points_of piece.now)) }
    requires quarter { quarter ≤ QUARTERS }
    ensures points { points_of result ≡ map (scaled_point quarter) (points_of piece.now) }
    ensures within { IsTrue (list_all is_thrust (points_of result)) }
{
    let mut scaled = Piece::default();
    for point in piece.points.as_slice() {
        scaled.points.push(Point {
            x: quarter_of(point.x, quarter),
            y: quarter_of(point.y, quarter),
        });
    }
    scaled
}

/// The pieces at so many quarters of their thrust, 0 to [`QUARTERS`]: each coordinate is multiplied by `quarter / 4`.
/// The coordinates are within the greatest thrust and multiples of four, so that this is whole.
pub fn scaled(pieces: &Pieces, quarter: u32) -> Pieces
    requires points { IsTrue (are_whole_points (all_points pieces.now)) }
    requires quarter { quarter ≤ QUARTERS }
    ensures points { all_points result ≡ scaled_points quarter (all_points pieces.now) }
    ensures within { IsTrue (are_thrusts (all_points result)) }
{
    let mut scaled = Pieces::default();
    for piece in pieces.list.as_slice() {
        scaled.list.push(scaled_piece(piece, quarter));
    }
    scaled
}
