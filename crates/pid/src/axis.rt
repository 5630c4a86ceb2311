//! What the controller computes for one axis. Errors are in cm or centidegrees, and moments in ms.
ghost use Rattle.std.specs.Prelude.{◌≡◌, ◌^◌, ◌*◌, ◌<◌, pos, ◌≤ℤ◌};
ghost use Rattle.plant_model.specs.Numbers.{IsWithin};
ghost use Rattle.pid.specs.Control.{sum_after, rate_of, output_of, asked_of};

use crate::position::FixErrors;
use dp_num::{clamp, floor_div};
use plant_model::controller::Gains;

/// A number for each axis of the controller.
#[derive(Clone, Copy, Debug, Default, PartialEq, Eq)]
pub struct PerAxis {
    pub surge: i128,
    pub sway: i128,
    pub yaw: i128,
}

/// The errors of a fix, and its moment in ms.
#[derive(Clone, Copy, Debug, Default, PartialEq, Eq)]
pub struct Sample {
    pub moment: u32,
    pub errors: FixErrors,
}

/// The sum of the errors, so many milliseconds on: it grows by their product with the error, up to its
/// limit either way.
pub fn sum_after(gains: Gains, sum: i128, error: i64, elapsed: u32) -> i128
    requires { IsWithin (pos (2 ^ 64)) sum }
    ensures value { result ≡ sum_after gains sum error elapsed }
    ensures within { IsWithin (pos (2 ^ 64)) result }
{
    let limit = gains.limit as i128;
    clamp(sum + error as i128 * elapsed as i128, -limit, limit)
}

/// How much an error changes in a second that changed so much in so many milliseconds, rounded down.
pub fn rate(change: i128, elapsed: u32) -> i128
    requires change { IsWithin (pos (2 ^ 64)) change }
    requires elapsed { 0 < elapsed }
    ensures value { result ≡ rate_of change elapsed }
    ensures within { IsWithin (pos (1000 * 2 ^ 64)) result }
{
    floor_div(change * 1000, elapsed as i128)
}

/// The error, the sum and the rate, each by its gain and each rounded down.
pub fn output(gains: Gains, error: i64, sum: i128, rate: i128) -> i128
    requires sum { IsWithin (pos (2 ^ 64)) sum }
    requires rate { IsWithin (pos (1000 * 2 ^ 64)) rate }
    ensures value { result ≡ output_of gains error sum rate }
    ensures within { IsWithin (pos (2 ^ 120)) result }
{
    floor_div(gains.kp as i128 * error as i128, 1000)
        + floor_div(gains.ki as i128 * sum, 1_000_000)
        + floor_div(gains.kd as i128 * rate, 1000)
}

/// The output less what the wind gives, at most `most` either way.
pub fn asked(output: i128, wind: i64, most: i32) -> i32
    requires output { IsWithin (pos (2 ^ 120)) output }
    requires most { pos 0 ≤ℤ most }
    ensures { result ≡ asked_of output wind most }
{
    clamp(output - wind as i128, -(most as i128), most as i128) as i32
}
