//! Fixes, and how far a fix is from the one that is wanted.
ghost use Rattle.std.specs.Prelude.{◌≡◌, ◌^◌, pos, ◌-ℤ◌};
ghost use Rattle.plant_model.specs.Numbers.{IsWithin};
ghost use Rattle.pid.specs.Fixes.{IsInRange, IsTurned, turned, errors_of};

use plant_model::limits::{HALF_TURN, WHOLE_TURN};
use wind_axes::rotate;

/// A position with a heading: `x` to the north and `y` to the east, in cm, within `MOST_POSITION`
/// either way, and `heading` in centidegrees below a whole turn.
#[derive(Clone, Copy, Debug, Default, PartialEq, Eq)]
pub struct Fix {
    pub x: i32,
    pub y: i32,
    pub heading: u32,
}

/// How far a wanted fix is from the vessel's: `surge` ahead and `sway` to starboard, in cm, and `yaw`
/// clockwise, in centidegrees.
#[derive(Clone, Copy, Debug, Default, PartialEq, Eq)]
pub struct FixErrors {
    pub surge: i64,
    pub sway: i64,
    pub yaw: i64,
}

/// How far `set`, which is wanted, is from `at`, in the axes of a vessel at `at`. The error in yaw is
/// brought by whole turns to at least half a turn back and less than half a turn on.
pub fn errors(set: Fix, at: Fix) -> FixErrors
    requires set { IsInRange set }
    requires at { IsInRange at }
    ensures errors { result ≡ errors_of set at }
    ensures yaw { IsTurned (pos set.heading -ℤ pos at.heading) result.yaw }
{
    let north = set.x as i64 - at.x as i64;
    let east = set.y as i64 - at.y as i64;
    let (surge, sway) = rotate(north, east, at.heading);
    let yaw = turned(set.heading as i128 - at.heading as i128) as i64;
    FixErrors { surge, sway, yaw }
}

/// The angle brought by whole turns to at least half a turn back and less than half a turn on.
pub fn turned(angle: i128) -> i128
    requires { IsWithin (pos (2 ^ 64)) angle }
    ensures value { result ≡ turned angle }
    ensures law { IsTurned angle result }
{
    let half = i128::from(HALF_TURN);
    (angle + half).rem_euclid(i128::from(WHOLE_TURN)) - half
}
