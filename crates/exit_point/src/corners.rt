//! Corners of the sums of lists, and how they lie about a demand.
ghost use Rattle.std.specs.Prelude.{◌≡◌, ◌⊎◌};
ghost use Rattle.wrench_geometry.specs.Vectors.{cross_of};
ghost use Rattle.wrench_geometry.specs.Vertices.{IsShort};
ghost use Rattle.wrench_geometry.specs.Wrenches.{IsDemandVector, IsSum};
ghost use Rattle.exit_point.specs.Corners.{IsSpan, Replaces};

use plant_model::limits::{MOST_FORCE, MOST_MOMENT};
use wrench_geometry::{Vec3, Vertex, cross, difference, product};

/// How far from 0 the first two components of a difference of two sums of images are.
pub const SPAN_FORCE: i64 = 2 * MOST_FORCE as i64;

/// How far from 0 the third component of such a difference is.
pub const SPAN_MOMENT: i64 = 2 * MOST_MOMENT as i64;

/// Two corners of the sums of lists.
#[derive(Drop)]
pub struct Edge {
    pub first: Vertex,
    pub second: Vertex,
}

/// Three corners of the sums of lists.
#[derive(Drop)]
pub struct Corners {
    pub first: Vertex,
    pub second: Vertex,
    pub third: Vertex,
}

/// The normal of two vectors, each of them a sum of images or a difference of two such sums.
pub fn normal(a: Vec3, b: Vec3) -> Vec3
    requires a { IsSpan a }
    requires b { IsSpan b }
    ensures value { result ≡ cross_of a b }
    ensures short { IsShort result }
{
    cross(a, b)
}

/// Whether the demand lies on the side of a plane to which its normal points. Where it lies in the
/// plane, it is moved a little along x, and if need be less along y, and less still along z.
pub fn is_ahead(normal: Vec3, d: Vec3) -> bool
    requires normal { IsShort normal }
    requires d { IsDemandVector d }
{
    let product = product(normal, d);
    if product != 0 {
        product > 0
    } else if normal.x != 0 {
        normal.x > 0
    } else if normal.y != 0 {
        normal.y > 0
    } else {
        normal.z > 0
    }
}

/// A normal of the demand and a sum of images, and any normal of the demand where they lie on one
/// line.
pub fn across(d: Vec3, point: Vec3) -> Vec3
    requires demand { IsDemandVector d }
    requires point { IsSum point }
    ensures { IsShort result }
{
    let both = normal(d, point);
    if both != Vec3::default() {
        both
    } else if d.x != 0 || d.y != 0 {
        Vec3 {
            x: -d.y,
            y: d.x,
            z: 0,
        }
    } else {
        Vec3 { x: 1, y: 0, z: 0 }
    }
}

/// Whether the demand lies ahead of the plane through the origin and two corners.
pub fn is_left(a: &Vertex, b: &Vertex, d: Vec3) -> bool
    requires a { IsSum a.now.point }
    requires b { IsSum b.now.point }
    requires d { IsDemandVector d }
{
    is_ahead(normal(a.point, b.point), d)
}

/// The edge with its corners in the order in which the demand lies ahead of the plane through them
/// and the origin.
pub fn turned(edge: Edge, d: Vec3) -> Edge
    requires demand { IsDemandVector d }
    requires first { IsSum edge.first.point }
    requires second { IsSum edge.second.point }
    ensures { (result ≡ edge) ⊎ (result ≡ record { first = edge.second; second = edge.first }) }
{
    if is_left(&edge.first, &edge.second, d) {
        edge
    } else {
        let Edge { first, second } = edge;
        Edge {
            first: second,
            second: first,
        }
    }
}

/// The normal of the plane through three corners.
pub fn plane(corners: &Corners) -> Vec3
    requires first { IsSum corners.now.first.point }
    requires second { IsSum corners.now.second.point }
    requires third { IsSum corners.now.third.point }
    ensures { IsShort result }
{
    let first = corners.first.point;
    normal(
        difference(corners.second.point, first),
        difference(corners.third.point, first),
    )
}

/// Three of four corners, the fourth among them, of which the cone has the demand where that of the
/// first three had it.
pub fn replaced(corners: Corners, fourth: Vertex, d: Vec3) -> Corners
    requires demand { IsDemandVector d }
    requires first { IsSum corners.first.point }
    requires second { IsSum corners.second.point }
    requires third { IsSum corners.third.point }
    requires fourth { IsSum fourth.point }
    ensures { Replaces corners fourth result }
{
    let Corners {
        first,
        second,
        third,
    } = corners;
    if is_left(&fourth, &first, d) {
        if is_left(&fourth, &second, d) {
            Corners {
                first: fourth,
                second,
                third,
            }
        } else {
            Corners {
                first,
                second,
                third: fourth,
            }
        }
    } else if is_left(&fourth, &third, d) {
        Corners {
            first,
            second: fourth,
            third,
        }
    } else {
        Corners {
            first: fourth,
            second,
            third,
        }
    }
}
