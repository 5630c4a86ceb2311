//! The directions of which each two have a candidate for a least cut as their normal.
ghost use Rattle.std.specs.Prelude.{◌≡◌, ◌+◌, ◌*◌, ◌<◌, ◌≤◌, ◌∷◌, [], ◌++◌, All, ◌↔◌, Contains};
ghost use Rattle.std.specs.Prelude.{IsTrue, length};
ghost use Rattle.wrench_geometry.specs.declared.counting.TheConstants.{MOST_DIFFERENCES};
ghost use Rattle.wrench_geometry.specs.declared.counting.TheConstants.{MOST_DIRECTIONS};
ghost use Rattle.wrench_geometry.specs.Directions.{differences_of, directions_in, directions_of};
ghost use Rattle.wrench_geometry.specs.Directions.{edges_of};
ghost use Rattle.wrench_geometry.specs.Vectors.{difference_of};
ghost use Rattle.wrench_geometry.specs.Wrenches.{AreImages, IsImage};
ghost use Rattle.separation.specs.Directions.{IsAlong, IsDirection, KeepsGreatest, Settles};
ghost use Rattle.separation.specs.Directions.{SettlesDifferences, SettlesEdges, Spans};

use arrayvec::ArrayVec;
use plant_model::limits::{MOST_PIECE_POINTS, MOST_THRUST};
use std::marker::Model;
use wrench_geometry::{
    Images, MOST_DIFFERENCES, MOST_DIRECTIONS, MOST_TURN, Sums, Vec3, cross, difference, product,
};

/// How far from 0 the forces of a difference of two images may be.
pub const DIRECTION_FORCE: i64 = 2 * MOST_THRUST as i64;
/// How far from 0 its moment may be.
pub const DIRECTION_MOMENT: i64 = 2 * MOST_TURN;

/// How far from 0 the components along the forces of a cross product of two differences may be.
pub const NORMAL_FORCE: i64 = 2 * DIRECTION_FORCE * DIRECTION_MOMENT;
/// How far from 0 its component along the moment may be.
pub const NORMAL_MOMENT: i64 = 2 * DIRECTION_FORCE * DIRECTION_FORCE;

/// Directions, each within the bounds of a difference of two images. Contracts see the list.
#[derive(Drop)]
pub struct Directions {
    members: ArrayVec<Vec3, MOST_DIRECTIONS>,
}

impl Model for Directions {
    ghost use Rattle.std.specs.Prelude.{List, All};
    ghost use Rattle.wrench_geometry.specs.declared.vector.Vec3.{Vec3};
    ghost use Rattle.separation.specs.Directions.{IsDirection};

    ghost Value = { List Vec3 };

    ghost view = { λ directions. directions.members.items };

    ghost invariant = { λ directions. All IsDirection directions.members.items };
}

impl Directions {
    /// The three axes, of which some lies across any flat sum.
    fn axes() -> Directions
        ensures three { length result ≡ 3 }
        ensures span { Spans result }
    {
        let mut directions = Directions {
            members: ArrayVec::new(),
        };
        directions.push(Vec3 { x: 1, y: 0, z: 0 });
        directions.push(Vec3 { x: 0, y: 1, z: 0 });
        directions.push(Vec3 { x: 0, y: 0, z: 1 });
        directions
    }

    /// Adds a direction at the end. There is room for it.
    fn push(&mut self, direction: Vec3)
        requires room { length self.old < MOST_DIRECTIONS }
        requires direction { IsDirection direction }
        ensures { self.new ≡ self.old ++ direction ∷ [] }
    {
        self.members.push(direction);
    }

    /// Adds a direction, unless one that is there lies along it: the signs on that one settle its signs too. There is
    /// room for it.
    fn add(&mut self, direction: Vec3)
        requires room { length self.old < MOST_DIRECTIONS }
        requires direction { IsDirection direction }
        ensures kept { All (Contains self.new) self.old }
        ensures settled { Settles self.new direction }
        ensures few { length self.new ≤ length self.old + 1 }
    {
        if is_along_any(self.as_slice(), direction) {
            return;
        }
        self.push(direction);
    }

    /// Adds the directions of a list: the edges of a marked one, else all differences of its points. There is room for
    /// `MOST_DIFFERENCES`.
    fn add_list(&mut self, images: &Images)
        requires room { length self.old + MOST_DIFFERENCES ≤ MOST_DIRECTIONS }
        ensures kept { All (Contains self.new) self.old }
        ensures greatest { KeepsGreatest self.new images.now }
        ensures few { length self.new ≤ length self.old + directions_in images.now }
        ensures few_at_all { length self.new ≤ length self.old + MOST_DIFFERENCES }
    {
        if images.is_fan() {
            self.add_edges(images.as_slice());
        } else {
            self.add_differences(images.as_slice());
        }
    }

    /// Adds the edges of the cycle of the origin and the points in order. There is room for `MOST_DIFFERENCES`.
    fn add_edges(&mut self, points: &[Vec3])
        requires room { length self.old + MOST_DIFFERENCES ≤ MOST_DIRECTIONS }
        requires points { AreImages points.now }
        requires fits { length points.now ≤ MOST_PIECE_POINTS }
        ensures kept { All (Contains self.new) self.old }
        ensures settled { SettlesEdges self.new points.now }
        ensures few { length self.new ≤ length self.old + edges_of (length points.now) }
    {
        if points.is_empty() {
            return;
        }
        let mut from = Vec3::default();
        for point in points {
            self.add(difference(*point, from));
            from = *point;
        }
        self.add(from);
    }

    /// Adds the points of a list, which are their differences with the origin, and the differences of each two of them.
    /// There is room for `MOST_DIFFERENCES`.
    fn add_differences(&mut self, points: &[Vec3])
        requires room { length self.old + MOST_DIFFERENCES ≤ MOST_DIRECTIONS }
        requires points { AreImages points.now }
        requires fits { length points.now ≤ MOST_PIECE_POINTS }
        ensures kept { All (Contains self.new) self.old }
        ensures settled { SettlesDifferences self.new points.now }
        ensures few { length self.new ≤ length self.old + differences_of (length points.now) }
    {
        for (place, point) in points.iter().enumerate() {
            self.add(*point);
            self.add_differences_with(*point, &points[..place]);
        }
    }

    /// Adds the differences of a point and each of some others. There is room for as many.
    fn add_differences_with(&mut self, point: Vec3, others: &[Vec3])
        requires room { length self.old + length others.now ≤ MOST_DIRECTIONS }
        requires point { IsImage point }
        requires others { AreImages others.now }
        ensures kept { All (Contains self.new) self.old }
        ensures settled { All (λ other. Settles self.new (difference_of point other)) others.now }
        ensures few { length self.new ≤ length self.old + length others.now }
    {
        for other in others {
            self.add(difference(point, *other));
        }
    }

    /// The directions, in the order in which they were added.
    pub fn as_slice(&self) -> &[Vec3]
        ensures value { result.now ≡ self.now }
        ensures directions { All IsDirection result.now }
        ensures fits { length result.now ≤ MOST_DIRECTIONS }
    {
        &self.members
    }
}

/// The directions of the sums: the axes, for each marked list the edges of its cycle, and for each other list the
/// differences of its points, the origin among them. Of those along one line the first is taken.
pub fn directions_of(sums: &Sums) -> Directions
    ensures span { Spans result }
    ensures greatest { All (KeepsGreatest result) sums.now }
    ensures few { length result ≤ directions_of sums.now }
{
    let mut directions = Directions::axes();
    for images in sums.lists() {
        directions.add_list(images);
    }
    directions
}

/// Whether a direction lies along one of some others, as the zero vector does along any.
fn is_along_any(directions: &[Vec3], direction: Vec3) -> bool
    requires directions { All IsDirection directions.now }
    requires direction { IsDirection direction }
    ensures { IsTrue result → Settles directions.now direction }
{
    for member in directions {
        if is_along(*member, direction) {
            return true;
        }
    }
    false
}

/// Whether a vector is a multiple, by a fraction, of another that is not zero.
fn is_along(direction: Vec3, vector: Vec3) -> bool
    requires direction { IsDirection direction }
    requires vector { IsDirection vector }
    ensures { IsTrue result ↔ IsAlong direction vector }
{
    let normal = cross(direction, vector);
    normal.x == 0 && normal.y == 0 && normal.z == 0 && product(direction, direction) > 0
}
