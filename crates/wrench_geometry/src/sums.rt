//! Lists of images, one list a thruster, and the sums of one image of each.
ghost use Rattle.std.specs.Prelude.{◌≡◌, ◌<◌, ◌≤◌, [], ◌∷◌, ◌++◌, All, length, map};
ghost use Rattle.plant_model.specs.declared.limits.TheConstants.{FARTHEST_LEVER, MOST_PIECE_POINTS};
ghost use Rattle.plant_model.specs.declared.limits.TheConstants.{MOST_THRUST, MOST_THRUSTERS};
ghost use Rattle.wrench_geometry.specs.Fans.{HaveOneLever, is_fan, thrust_of};
ghost use Rattle.wrench_geometry.specs.Wrenches.{IsImage, IsPointWithin, AreImages, image_of};

use crate::fans::is_fan;
use crate::lever::image;
use crate::vector::Vec3;
use arrayvec::ArrayVec;
use plant_model::limits::{MOST_PIECE_POINTS, MOST_THRUSTERS};
use plant_model::thrust::Point;
use std::marker::Model;

/// The images of a piece's points at one lever, in order: 0 to `MOST_PIECE_POINTS`. They stand for
/// the hull of themselves and the origin. Contracts see the list.
#[derive(Drop)]
pub struct Images {
    points: ArrayVec<Vec3, MOST_PIECE_POINTS>,
}

impl Model for Images {
    ghost use Rattle.std.specs.Prelude.{List};
    ghost use Rattle.wrench_geometry.specs.declared.vector.Vec3.{Vec3};
    ghost use Rattle.wrench_geometry.specs.Fans.{AreAtLever};

    ghost Value = { List Vec3 };

    ghost view = { λ images. images.points.items };

    ghost invariant = { λ images. AreAtLever images.points.items };
}

impl Images {
    /// The images of a piece's points at a lever. All of them are within the limits of a plant.
    pub fn at(lever: Point, points: &[Point]) -> Images
        requires lever { IsPointWithin FARTHEST_LEVER lever }
        requires points { All (IsPointWithin MOST_THRUST) points.now }
        requires fits { length points.now ≤ MOST_PIECE_POINTS }
        ensures { result ≡ map (image_of lever) points.now }
    {
        let mut images = ArrayVec::new();
        for point in points {
            images.push(image(lever, *point));
        }
        Images { points: images }
    }

    pub fn as_slice(&self) -> &[Vec3]
        ensures value { result.now ≡ self.now }
        ensures images { All IsImage result.now }
        ensures fits { length result.now ≤ MOST_PIECE_POINTS }
    {
        &self.points
    }

    /// Whether the list is marked: whether its images are those of a fan. They are at one lever.
    pub fn is_fan(&self) -> bool
        ensures fan { result ≡ is_fan (map thrust_of self.now) }
        ensures one_lever { HaveOneLever self.now }
    {
        let mut thrusts = ArrayVec::<Point, MOST_PIECE_POINTS>::new();
        for image in self.points.as_slice() {
            thrusts.push(thrust_of(*image));
        }
        is_fan(&thrusts)
    }
}

/// The thrust of which a vector is the image.
fn thrust_of(image: Vec3) -> Point
    requires { IsImage image }
    ensures { result ≡ thrust_of image }
{
    Point {
        x: image.x as i32,
        y: image.y as i32,
    }
}

/// No image, which fills unused places.
impl Default for Images {
    ghost use Rattle.std.specs.Prelude.{◌≡◌, []};

    ghost is_default = { λ images. images ≡ [] };

    fn default() -> Self {
        Images {
            points: ArrayVec::new(),
        }
    }
}

/// The images of a chosen piece of each thruster, in the order of thrusters: 0 to `MOST_THRUSTERS`
/// lists. Contracts see the list of lists.
#[derive(Drop)]
pub struct Sums {
    lists: ArrayVec<Images, MOST_THRUSTERS>,
}

impl Model for Sums {
    ghost use Rattle.std.specs.Prelude.{List, All};
    ghost use Rattle.wrench_geometry.specs.declared.vector.Vec3.{Vec3};
    ghost use Rattle.wrench_geometry.specs.Wrenches.{AreImages};

    ghost Value = { List (List Vec3) };

    ghost view = { λ sums. sums.lists.items };

    ghost invariant = { λ sums. All AreImages sums.lists.items };
}

impl Sums {
    pub fn new() -> Sums
        ensures { result ≡ [] }
    {
        Sums {
            lists: ArrayVec::new(),
        }
    }

    /// Adds the list of the next thruster. There is room for it.
    pub fn push(&mut self, images: Images)
        requires { length self.old < MOST_THRUSTERS }
        ensures { self.new ≡ self.old ++ images ∷ [] }
    {
        let _images = images.as_slice();
        self.lists.push(images);
    }

    /// The lists, in the order of thrusters.
    pub fn lists(&self) -> &[Images]
        ensures value { result.now ≡ self.now }
        ensures images { All AreImages result.now }
        ensures fits { length result.now ≤ MOST_THRUSTERS }
    {
        &self.lists
    }
}

impl Default for Sums {
    ghost use Rattle.std.specs.Prelude.{◌≡◌, []};

    ghost is_default = { λ sums. sums ≡ [] };

    fn default() -> Self {
        Sums::new()
    }
}
