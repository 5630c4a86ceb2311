//! The farthest sum of lists in a direction, with the image that it has of each list, in numbers of
//! 64 bits.
ghost use Rattle.std.specs.Prelude.{◌≡◌, ◌≤◌, length};
ghost use Rattle.plant_model.specs.Numbers.{IsWithin};
ghost use Rattle.wrench_geometry.specs.Vectors.{det_of, dot_of, greatest_of, support_of};
ghost use Rattle.wrench_geometry.specs.Wrenches.{AreImages, IsSum, image_at};
ghost use Rattle.wrench_geometry.specs.Vertices.{IsShort, IsVertex};

use crate::sums::Sums;
use crate::vector::{Vec3, cross, sum};
use arrayvec::ArrayVec;
use plant_model::limits::{MOST_FORCE, MOST_MOMENT, MOST_THRUSTERS};

/// How far from 0 the first two components of a direction may be where its products are taken in 64
/// bits.
pub const SHORT_FORCE: i64 = 1 << 44;

/// How far from 0 the third component of such a direction may be.
pub const SHORT_MOMENT: i64 = 1 << 33;

/// A sum of one image of each list, with the places of these images. A list's length is the place
/// of the origin.
#[derive(Debug, Drop)]
pub struct Vertex {
    pub point: Vec3,
    pub places: ArrayVec<usize, MOST_THRUSTERS>,
}

/// The dot product of a direction with a sum of images. The direction is within `SHORT_FORCE` and
/// `SHORT_MOMENT`, the sum within the limits of a demand.
pub fn product(w: Vec3, point: Vec3) -> i64
    requires short { IsShort w }
    requires point { IsSum point }
    ensures { result ≡ dot_of w point }
{
    w.x * point.x + w.y * point.y + w.z * point.z
}

/// The greatest determinant of three sums of images, either way: of its six products each has two
/// forces and a moment.
pub const MOST_DETERMINANT: i64 = 6 * MOST_FORCE as i64 * MOST_FORCE as i64 * MOST_MOMENT as i64;

/// The determinant of three sums of images.
pub fn determinant(a: Vec3, b: Vec3, c: Vec3) -> i64
    requires a { IsSum a }
    requires b { IsSum b }
    requires c { IsSum c }
    ensures value { result ≡ det_of a b c }
    ensures within { IsWithin MOST_DETERMINANT result }
{
    product(cross(b, c), a)
}

/// The image at a place, and the origin past the last one.
fn image_at(images: &[Vec3], place: usize) -> Vec3
    ensures { result ≡ image_at images.now place }
{
    images.get(place).copied().unwrap_or_default()
}

/// The place of the image that is farthest along `w`: that of the origin where no image has a
/// product above 0, else the first such place.
fn farthest_place(images: &[Vec3], w: Vec3) -> usize
    requires images { AreImages images.now }
    requires short { IsShort w }
    ensures place { result ≤ length images.now }
    ensures greatest { dot_of w (image_at images.now result) ≡ greatest_of w images.now }
{
    let mut place = images.len();
    let mut greatest = 0;
    for (i, image) in images.iter().enumerate() {
        let product = product(w, *image);
        if product > greatest {
            place = i;
            greatest = product;
        }
    }
    place
}

/// The sum that is farthest along `w`, which is within `SHORT_FORCE` and `SHORT_MOMENT`. Of a list
/// of which several images are farthest the origin is taken where it is one of them, else the
/// first.
pub fn farthest(sums: &Sums, w: Vec3) -> Vertex
    requires { IsShort w }
    ensures vertex { IsVertex sums.now result }
    ensures farthest { dot_of w result.point ≡ support_of sums.now w }
    ensures within { IsSum result.point }
{
    let mut point = Vec3::default();
    let mut places = ArrayVec::new();
    for images in sums.lists() {
        let list = images.as_slice();
        let place = farthest_place(list, w);
        point = sum(point, image_at(list, place));
        places.push(place);
    }
    Vertex { point, places }
}
