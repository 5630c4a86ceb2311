//! What one thrust does to the vessel.
ghost use Rattle.std.specs.Prelude.{◌≡◌};
ghost use Rattle.wrench_geometry.specs.Wrenches.{IsImage, IsPointWithin, image_of};

use crate::vector::Vec3;
use plant_model::limits::{FARTHEST_LEVER, MOST_THRUST};
use plant_model::thrust::Point;

/// The greatest moment of one thrust, in kN·dm: of its two parts each has the farthest lever.
pub const MOST_TURN: i64 = 2 * FARTHEST_LEVER as i64 * MOST_THRUST as i64;

/// The force and the moment of a thrust at a lever: the thrust itself, and `lever × thrust` as a
/// number. The lever is in dm and within `FARTHEST_LEVER` along both axes, the thrust in kN and
/// within `MOST_THRUST`.
pub fn image(lever: Point, thrust: Point) -> Vec3
    requires lever { IsPointWithin FARTHEST_LEVER lever }
    requires thrust { IsPointWithin MOST_THRUST thrust }
    ensures value { result ≡ image_of lever thrust }
    ensures within { IsImage result }
{
    let (along, across) = (i64::from(thrust.x), i64::from(thrust.y));
    Vec3 {
        x: along,
        y: across,
        z: i64::from(lever.x) * across - i64::from(lever.y) * along,
    }
}
