//! Whether a thrust lies in a piece.
ghost use Rattle.std.specs.Prelude.{◌≡◌, ℤ, pos, ◌*ℤ◌, ◌≤ℤ◌, ◌↔◌, IsTrue, Any};
ghost use Rattle.std.specs.Bool.{OnTrue};
ghost use Rattle.plant_model.specs.Lies.{LiesIn};
ghost use Rattle.plant_model.specs.Numbers.{IsWithin};
ghost use Rattle.plant_model.specs.Rings.{cross, dot};
ghost use Rattle.certificate.specs.Sides.{IsInTriangle, IsNear, IsNextTo, IsOnWay};
ghost use Rattle.certificate.specs.Sides.{IsReached, place_of};

use plant_model::thrust::{Piece, Point, Thrust};

/// The farthest coordinate of a point of the type, either way.
pub(crate) const FARTHEST: i128 = 1 << 31;

/// The farthest coordinate of a thrust that over some denominator is no farther than a point may
/// be.
const FARTHEST_THRUST: i128 = FARTHEST * i64::MAX as i128;

/// Whether the thrust over `q`, which is at least 1, lies in the piece: in the hull of its points
/// and the origin. That is the union of the triangles of the origin and two of the points, and of
/// the ways from the origin to a point, whatever the points are.
pub fn lies(piece: &Piece, thrust: Thrust, q: i64) -> bool
    requires { pos 1 ≤ℤ q }
    ensures { IsTrue result ↔ LiesIn piece.now.points.items thrust q }
{
    is_zero(thrust) || is_next_to_some(piece.points.as_slice(), thrust, q)
}

fn is_zero(thrust: Thrust) -> bool
    ensures { IsTrue result ↔ ((thrust.x ≡ pos 0) × (thrust.y ≡ pos 0)) }
{
    thrust.x == 0 && thrust.y == 0
}

/// Whether the thrust over `q` is on the way from the origin to one of the points, or in the
/// triangle of the origin and two of them.
fn is_next_to_some(points: &[Point], thrust: Thrust, q: i64) -> bool
    requires { pos 1 ≤ℤ q }
    ensures { IsTrue result ↔ Any (IsNextTo points.now thrust q) points.now }
{
    for point in points {
        if is_next_to(*point, points, thrust, q) {
            return true;
        }
    }
    false
}

/// The same for ways to this point, and triangles with it before one of the points.
fn is_next_to(point: Point, points: &[Point], thrust: Thrust, q: i64) -> bool
    requires { pos 1 ≤ℤ q }
    ensures { IsTrue result ↔ IsNextTo points.now thrust q point }
{
    is_on_way(point, thrust, q) || is_in_some_triangle(point, points, thrust, q)
}

fn is_in_some_triangle(first: Point, points: &[Point], thrust: Thrust, q: i64) -> bool
    requires { pos 1 ≤ℤ q }
    ensures { IsTrue result ↔ Any (λ second. IsInTriangle first second thrust q) points.now }
{
    for second in points {
        if is_in_triangle(first, *second, thrust, q) {
            return true;
        }
    }
    false
}

/// Whether the thrust over `q` is between the origin and the point, or is the point.
fn is_on_way(point: Point, thrust: Thrust, q: i64) -> bool
    requires { pos 1 ≤ℤ q }
    ensures { IsTrue result ↔ IsOnWay point thrust q }
{
    if !is_near(thrust, q) {
        return false;
    }
    if turn(point, thrust) != 0 {
        return false;
    }
    let ahead = along(point, thrust);
    let square = along(point, thrust_of(point));
    ahead > 0 && ahead <= square * q as i128
}

/// Whether the thrust over `q` is in the triangle of the origin and two points, of which the second
/// is less than half a turn after the first: whether it is on the right of no edge.
fn is_in_triangle(first: Point, second: Point, thrust: Thrust, q: i64) -> bool
    requires { pos 1 ≤ℤ q }
    ensures { IsTrue result ↔ IsInTriangle first second thrust q }
{
    if !is_near(thrust, q) {
        return false;
    }
    let area = turn(first, thrust_of(second));
    if area <= 0 {
        return false;
    }
    let after = turn(first, thrust);
    let before = turn(second, thrust);
    if after < 0 || before > 0 {
        return false;
    }
    after - before <= area * q as i128
}

/// Whether the coordinates of the thrust over `q` are no farther than those of a point may be.
fn is_near(thrust: Thrust, q: i64) -> bool
    requires { pos 1 ≤ℤ q }
    ensures near { IsTrue result ↔ IsNear thrust q }
    ensures reached { OnTrue result (IsReached thrust) }
{
    is_near_along(thrust.x, q) && is_near_along(thrust.y, q)
}

/// The same along one axis.
fn is_near_along(z: i128, q: i64) -> bool
    requires { pos 1 ≤ℤ q }
    ensures near { IsTrue result ↔ IsWithin (FARTHEST *ℤ q) z }
    ensures reached { OnTrue result (IsWithin FARTHEST_THRUST z) }
{
    let most = FARTHEST * q as i128;
    -most <= z && z <= most
}

/// The point as a thrust over 1.
fn thrust_of(point: Point) -> Thrust
    ensures x { result.x ≡ point.x }
    ensures y { result.y ≡ point.y }
{
    Thrust {
        x: point.x as i128,
        y: point.y as i128,
    }
}

/// The cross product of the point with the thrust.
fn turn(point: Point, thrust: Thrust) -> i128
    requires { IsReached thrust }
    ensures { result ≡ cross point (place_of thrust) }
{
    point.x as i128 * thrust.y - point.y as i128 * thrust.x
}

/// The dot product of the point with the thrust.
fn along(point: Point, thrust: Thrust) -> i128
    requires { IsReached thrust }
    ensures { result ≡ dot point (place_of thrust) }
{
    point.x as i128 * thrust.x + point.y as i128 * thrust.y
}
