//! How many directions the lists of sums have at most.
ghost use Rattle.std.specs.Prelude.{◌≡◌, ◌≤◌};
ghost use Rattle.wrench_geometry.specs.Directions.{directions_in, directions_of};

use crate::sums::{Images, Sums};
use plant_model::limits::{MOST_PIECE_POINTS, MOST_THRUSTERS};

/// The differences of each two points of a piece, of which the origin is one.
pub const MOST_DIFFERENCES: usize = MOST_PIECE_POINTS * (MOST_PIECE_POINTS + 1) / 2;

/// The directions of sums: the three axes, and at most the differences of each list.
pub const MOST_DIRECTIONS: usize = 3 + MOST_THRUSTERS * MOST_DIFFERENCES;

/// How many directions a least cut of the sums is searched along at most: the three axes, and for
/// each list those of its edges where it is marked as the images of a fan, else those of the
/// differences of each two of its points, the origin among them.
pub fn directions(sums: &Sums) -> u32
    ensures count { result ≡ directions_of sums.now }
    ensures few { result ≤ MOST_DIRECTIONS }
{
    let mut count = 3;
    for images in sums.lists() {
        count += directions_in(images);
    }
    count
}

/// The directions of one list.
fn directions_in(images: &Images) -> u32
    ensures count { result ≡ directions_in images.now }
    ensures few { result ≤ MOST_DIFFERENCES }
{
    let points = images.as_slice().len() as u32;
    if images.is_fan() {
        if points == 0 { 0 } else { points + 1 }
    } else {
        points * (points + 1) / 2
    }
}
