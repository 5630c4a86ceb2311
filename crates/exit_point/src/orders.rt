//! The farthest sums of lists where, of images that are as far along one direction, those farthest
//! along a second one are taken, and of these those farthest along a third one.
ghost use Rattle.std.specs.Prelude.{◌≡◌, ◌≤◌, length, IsFalse, IsTrue};
ghost use Rattle.wrench_geometry.specs.Vectors.{zero_vector};
ghost use Rattle.wrench_geometry.specs.Wrenches.{AreImages, IsImage, image_at};
ghost use Rattle.exit_point.specs.Corners.{IsCorner};
ghost use Rattle.exit_point.specs.Orders.{AreFarthest, IsFarthest, IsNoFarther, IsTilt};

use arrayvec::ArrayVec;
use wrench_geometry::{Sums, Vec3, Vertex, cross, dot, sum};

/// An order of points: by their product with `w`, at the same one by that with `u`, and at the same
/// one by that with the normal of `w` and `t`.
#[derive(Clone, Copy)]
pub struct Order {
    pub w: Vec3,
    pub u: Vec3,
    pub t: Vec3,
}

/// The image at a place, and the origin past the last one.
pub fn image_at(images: &[Vec3], place: usize) -> Vec3
    ensures { result ≡ image_at images.now place }
{
    images.get(place).copied().unwrap_or_default()
}

/// Whether the second image is farther than the first one.
fn is_farther(order: Order, first: Vec3, second: Vec3) -> bool
    requires tilt { IsTilt order.t }
    requires first { IsImage first }
    requires second { IsImage second }
    ensures farther { IsTrue result → IsNoFarther order first second }
    ensures no_farther { IsFalse result → IsNoFarther order second first }
{
    let (a, b) = (dot(order.w, first), dot(order.w, second));
    if a != b {
        return a < b;
    }
    let (a, b) = (dot(order.u, first), dot(order.u, second));
    if a != b {
        return a < b;
    }
    dot(order.w, cross(order.t, first)) < dot(order.w, cross(order.t, second))
}

/// The place of the image that is farthest, the origin among the images: that of the origin where
/// no image is farther, else the first such place.
fn farthest_place(images: &[Vec3], order: Order) -> usize
    requires images { AreImages images.now }
    requires tilt { IsTilt order.t }
    ensures place { result ≤ length images.now }
    ensures farthest { IsFarthest order images.now (image_at images.now result) }
{
    let mut place = images.len();
    for i in 0..images.len() {
        if is_farther(order, image_at(images, place), image_at(images, i)) {
            place = i;
        }
    }
    place
}

/// The sum of the farthest image of each list.
pub fn farthest(sums: &Sums, order: Order) -> Vertex
    requires { IsTilt order.t }
    ensures corner { IsCorner sums.now result }
    ensures farthest { AreFarthest order sums.now result.places.items }
{
    let mut point = Vec3::default();
    let mut places = ArrayVec::new();
    for images in sums.lists() {
        let list = images.as_slice();
        let place = farthest_place(list, order);
        point = sum(point, image_at(list, place));
        places.push(place);
    }
    Vertex { point, places }
}

/// The sum of the origins of all lists.
pub fn origin(sums: &Sums) -> Vertex
    ensures corner { IsCorner sums.now result }
    ensures origin { result.point ≡ zero_vector }
{
    let mut places = ArrayVec::new();
    for images in sums.lists() {
        places.push(images.as_slice().len());
    }
    Vertex {
        point: Vec3::default(),
        places,
    }
}
