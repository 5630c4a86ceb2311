//! What a thruster can give: rings of thrusts, the sectors that they forbid, the pieces into which they are
//! cut, and thrusts. A thrust stands for a point of the plane: x ahead and y to starboard, in kN. A ring goes
//! round the origin by the turn from x to y.

use crate::limits::{MOST_PIECE_POINTS, MOST_PIECES, MOST_RING_POINTS, MOST_THRUSTERS};
use arrayvec::ArrayVec;

/// A point of the plane: a thrust in kN, within [`crate::limits::MOST_THRUST`] along both axes, or a lever in
/// dm, within [`crate::limits::FARTHEST_LEVER`].
#[derive(Clone, Copy, Debug, Default, PartialEq, Eq)]
pub struct Point {
    pub x: i32,
    pub y: i32,
}

/// The border of what a thruster can give at full power. Its points are numbered by their places, from 0.
#[derive(Clone, Debug, Default, Drop)]
pub struct Ring {
    pub points: ArrayVec<Point, MOST_RING_POINTS>,
}

/// A sector of a ring that a thruster may not use: the angle from one place on, round the ring, to another. Its
/// two ends may be used.
#[derive(Clone, Copy, Debug, Default, PartialEq, Eq)]
pub struct Sector {
    pub from: u32,
    pub to: u32,
}

/// A convex part of what a thruster can give: the hull of the points and the origin.
#[derive(Clone, Debug, Default, Drop)]
pub struct Piece {
    pub points: ArrayVec<Point, MOST_PIECE_POINTS>,
}

/// The pieces of a thruster.
#[derive(Clone, Debug, Default, Drop)]
pub struct Pieces {
    pub list: ArrayVec<Piece, MOST_PIECES>,
}

/// A thrust as a numerator over a denominator that stands beside it.
#[derive(Clone, Copy, Debug, Default, PartialEq, Eq)]
pub struct Thrust {
    pub x: i128,
    pub y: i128,
}

/// A thrust for each thruster, in order.
#[derive(Clone, Debug, Default, PartialEq, Eq, Drop)]
pub struct Thrusts {
    pub list: ArrayVec<Thrust, MOST_THRUSTERS>,
}
