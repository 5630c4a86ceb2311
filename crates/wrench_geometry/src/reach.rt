//! How far the sums of lists reach in a direction.
ghost use Rattle.std.specs.Prelude.{◌≡◌, ◌+◌, pos, ◌≤ℤ◌, ◌^◌, IsTrue};
ghost use Rattle.wrench_geometry.specs.Vectors.{greatest_of, support_of};
ghost use Rattle.wrench_geometry.specs.Vertices.{IsShort};
ghost use Rattle.wrench_geometry.specs.Wrenches.{AreImages};

use crate::steps::Steps;
use crate::sums::Sums;
use crate::vector::{Vec3, dot};
use crate::vertices::{SHORT_FORCE, SHORT_MOMENT, product};
use std::sync::ledger::Ledger;

/// The greatest product of `w` with an image of the list or with the origin.
pub fn greatest(images: &[Vec3], w: Vec3) -> i128
    requires { AreImages images.now }
    ensures value { result ≡ greatest_of w images.now }
    ensures low { pos 0 ≤ℤ result }
    ensures high { result ≤ℤ pos (2 ^ 87) }
{
    let mut greatest = 0;
    for image in images {
        greatest = greatest.max(dot(w, *image));
    }
    greatest
}

/// The greatest product of `w` with a sum of one image of each list, where the origin is an image
/// of each list.
pub fn support(sums: &Sums, w: Vec3) -> i128
    ensures { result ≡ support_of sums.now w }
{
    if is_short(w) {
        i128::from(short_support(sums, w))
    } else {
        wide_support(sums, w)
    }
}

/// [`support`], counted as one step.
pub fn support_counted<L: Ledger>(sums: &Sums, w: Vec3, steps: &mut Steps<L>) -> i128
    ensures value { result ≡ support_of sums.now w }
    ensures one_step { steps.new ≡ steps.old + 1 }
{
    steps.step();
    support(sums, w)
}

/// Whether the products of a vector with images can be taken in 64 bits.
fn is_short(w: Vec3) -> bool
    ensures { IsTrue result → IsShort w }
{
    -SHORT_FORCE <= w.x
        && w.x <= SHORT_FORCE
        && -SHORT_FORCE <= w.y
        && w.y <= SHORT_FORCE
        && -SHORT_MOMENT <= w.z
        && w.z <= SHORT_MOMENT
}

/// The greatest product of a short vector with an image of the list or with the origin.
fn short_greatest(images: &[Vec3], w: Vec3) -> i64
    requires images { AreImages images.now }
    requires short { IsShort w }
    ensures value { result ≡ greatest_of w images.now }
    ensures low { pos 0 ≤ℤ result }
    ensures high { result ≤ℤ pos (2 ^ 57) }
{
    let mut farthest = 0;
    for image in images {
        farthest = farthest.max(product(w, *image));
    }
    farthest
}

/// The support of a short vector.
fn short_support(sums: &Sums, w: Vec3) -> i64
    requires { IsShort w }
    ensures { result ≡ support_of sums.now w }
{
    let mut total = 0;
    for images in sums.lists() {
        total += short_greatest(images.as_slice(), w);
    }
    total
}

/// The support of any vector.
fn wide_support(sums: &Sums, w: Vec3) -> i128
    ensures { result ≡ support_of sums.now w }
{
    let mut total = 0;
    for images in sums.lists() {
        total += greatest(images.as_slice(), w);
    }
    total
}
