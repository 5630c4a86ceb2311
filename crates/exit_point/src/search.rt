//! The search for the face through which the ray of a demand leaves the sums of lists. Its steps
//! are counted, and it may give up. Nothing is promised of a face but that its corners are sums:
//! who takes it tests it.
ghost use Rattle.std.specs.Prelude.{◌≡◌, IfSome};
ghost use Rattle.wrench_geometry.specs.Wrenches.{IsDemandVector, IsSum};
ghost use Rattle.wrench_geometry.specs.Vertices.{IsShort};
ghost use Rattle.exit_point.specs.Corners.{AreCorners, AreEnds, IsCorner, IsFound};

use crate::corners::{Corners, Edge, across, is_left, normal, plane, replaced, turned};
use wrench_geometry::{Sums, Vec3, Vertex, farthest, opposite, product};

/// The steps of each of the two loops, after which the search gives up.
pub const MOST_STEPS: usize = 100;

/// What a search found.
#[derive(Drop)]
pub enum Found {
    /// A direction along which no sum lies ahead of the origin.
    Wall(Vec3),
    /// Three corners, with the normal of their plane.
    Face(Vec3, Corners),
}

/// The face, or a wall at the origin, that the ray of the demand leaves the sums by. None is no
/// answer.
pub fn search(sums: &Sums, d: Vec3) -> Option<Found>
    requires { IsDemandVector d }
    ensures { IfSome result (IsFound sums.now) }
{
    let first = farthest(sums, d);
    if product(d, first.point) == 0 {
        return Some(Found::Wall(d));
    }
    let second = beside(sums, d, first.point)?;
    match cone(sums, d, Edge { first, second })? {
        Found::Wall(wall) => Some(Found::Wall(wall)),
        Found::Face(_, corners) => face(sums, d, corners),
    }
}

/// A corner off the plane through the demand and a sum of images, to either side of it.
fn beside(sums: &Sums, d: Vec3, point: Vec3) -> Option<Vertex>
    requires demand { IsDemandVector d }
    requires point { IsSum point }
    ensures { IfSome result (IsCorner sums.now) }
{
    let ahead = across(d, point);
    let corner = farthest(sums, ahead);
    if product(ahead, corner.point) != 0 {
        return Some(corner);
    }
    let behind = opposite(ahead);
    let corner = farthest(sums, behind);
    if product(behind, corner.point) != 0 {
        return Some(corner);
    }
    None
}

/// Three corners whose cone has the demand, or a wall at the origin. From two corners a third is
/// found ahead of their plane, on the demand's side. Where the demand isn't in the cone of the
/// three, the third takes the place of that one of the two that lies on the other side of the
/// demand.
fn cone(sums: &Sums, d: Vec3, edge: Edge) -> Option<Found>
    requires demand { IsDemandVector d }
    requires edge { AreEnds sums.now edge }
    ensures { IfSome result (IsFound sums.now) }
{
    let mut edge = edge;
    for _ in 0..MOST_STEPS {
        let Edge { first, second } = turned(edge, d);
        let normal = normal(first.point, second.point);
        let third = farthest(sums, normal);
        if product(normal, third.point) == 0 {
            return wall(normal, d);
        }
        edge = if !is_left(&third, &first, d) {
            Edge {
                first,
                second: third,
            }
        } else if !is_left(&second, &third, d) {
            Edge {
                first: third,
                second,
            }
        } else {
            return Some(Found::Face(
                normal,
                Corners {
                    first,
                    second,
                    third,
                },
            ));
        };
    }
    None
}

/// A normal as a wall, where the demand lies ahead of it.
fn wall(normal: Vec3, d: Vec3) -> Option<Found>
    requires normal { IsShort normal }
    requires demand { IsDemandVector d }
    ensures { IfSome result (λ found. found ≡ Found.Wall normal) }
{
    if product(normal, d) > 0 {
        Some(Found::Wall(normal))
    } else {
        None
    }
}

/// The three corners that the ray leaves the sums between. A corner that is farther along the
/// normal of the three than they are takes the place of one of them.
fn face(sums: &Sums, d: Vec3, corners: Corners) -> Option<Found>
    requires demand { IsDemandVector d }
    requires corners { AreCorners sums.now corners }
    ensures { IfSome result (IsFound sums.now) }
{
    let mut corners = corners;
    for _ in 0..MOST_STEPS {
        let normal = plane(&corners);
        let fourth = farthest(sums, normal);
        if product(normal, fourth.point) == product(normal, corners.first.point) {
            return Some(Found::Face(normal, corners));
        }
        corners = replaced(corners, fourth, d);
    }
    None
}
