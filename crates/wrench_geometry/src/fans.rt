//! Fans: pieces whose points go round the origin as a convex cycle with it.
ghost use Rattle.std.specs.Prelude.{◌≡◌, pos, int_le};
ghost use Rattle.std.specs.List.{list_all};
ghost use Rattle.plant_model.specs.Rings.{side};
ghost use Rattle.thrust_region.specs.Pieces.{points_of};
ghost use Rattle.wrench_geometry.specs.Fans.{PiecesAreFans, are_left, is_fan};

use plant_model::thrust::{Piece, Point};

/// Where each cycle of points begins and ends.
const ORIGIN: Point = Point { x: 0, y: 0 };

/// Whether the piece is a fan: in the cycle of the origin and its points in order, every point and
/// the origin stand to the left of or on the line of each edge.
pub fn fan(piece: &Piece) -> bool
    ensures { result ≡ is_fan (points_of piece.now) }
{
    is_fan(piece.points.as_slice())
}

/// The law of fans: each piece of the cutting rule is one, at every quarter. Calling it does
/// nothing.
pub fn pieces_are_fans()
    ensures { PiecesAreFans }
{}

/// Whether points are those of a fan.
pub fn is_fan(points: &[Point]) -> bool
    ensures { result ≡ is_fan points.now }
{
    let mut from = ORIGIN;
    for point in points {
        if !are_left(points, from, *point) {
            return false;
        }
        from = *point;
    }
    are_left(points, from, ORIGIN)
}

/// Whether the origin and all points stand to the left of or on the line from `a` to `b`.
fn are_left(points: &[Point], a: Point, b: Point) -> bool
    ensures { result ≡ are_left points.now a b }
{
    is_left(a, b, ORIGIN) && are_points_left(points, a, b)
}

/// Whether all points stand to the left of or on the line from `a` to `b`.
fn are_points_left(points: &[Point], a: Point, b: Point) -> bool
    ensures { result ≡ list_all (λ p. int_le (pos 0) (side a b p)) points.now }
{
    points.iter().all(|point| is_left(a, b, *point))
}

/// Whether a point stands to the left of or on the line from `a` to `b`.
fn is_left(a: Point, b: Point, point: Point) -> bool
    ensures { result ≡ int_le (pos 0) (side a b point) }
{
    side(a, b, point) >= 0
}

/// How far a point stands to the left of the line from `a` to `b`, times the line's length; below 0
/// to the right.
fn side(a: Point, b: Point, point: Point) -> i128
    ensures { result ≡ side a b point }
{
    (b.x as i128 - a.x as i128) * (point.y as i128 - a.y as i128)
        - (b.y as i128 - a.y as i128) * (point.x as i128 - a.x as i128)
}
