//! Sines, cosines and turned axes. Angles are in centidegrees.
ghost use Rattle.std.specs.Prelude.{◌≡◌, pos, ◌<◌, ◌≤◌, ◌+ℤ◌, ◌*ℤ◌, ◌≤ℤ◌};
ghost use Rattle.plant_model.specs.Numbers.{IsWithin};
ghost use Rattle.wind_axes.specs.Wind.{AreConstants, ahead_of, cosine_of, half_turn_sine, sine_of};
ghost use Rattle.wind_axes.specs.Wind.{starboard_of};
ghost use Rattle.dp_num.specs.Quotients.{floor_quotient};

use dp_num::floor_div;
use plant_model::limits::{HALF_TURN, MOST_POSITION, QUARTER_TURN, WHOLE_TURN};

/// The sine of a right angle: sines and cosines are in ten-thousandths.
pub const WHOLE_SINE: i32 = 10_000;

/// The factor of the sine's quotient: four whole sines.
const SINE_FACTOR: u64 = 4 * WHOLE_SINE as u64;

/// The square in the sine's quotient, in square centidegrees: five times that of a right angle.
const SINE_SQUARE: u64 = 5 * QUARTER_TURN as u64 * QUARTER_TURN as u64;

/// The farthest that two positions lie apart along an axis, in cm.
pub const MOST_OFFSET: i64 = 2 * MOST_POSITION as i64;

/// The sine of an angle below a whole turn, in ten-thousandths.
///
/// Up to half a turn it is Bhaskara's quotient, `4·c·(180 - c)` over `40500 - c·(180 - c)` for c
/// degrees, rounded down. Above, it is minus the sine of the angle less half a turn.
pub fn sine(angle: u32) -> i32
    requires { angle < WHOLE_TURN }
    ensures value { result ≡ sine_of angle }
    ensures within { IsWithin WHOLE_SINE result }
{
    if angle <= HALF_TURN {
        half_sine(angle)
    } else {
        -half_sine(angle - HALF_TURN)
    }
}

fn half_sine(angle: u32) -> i32
    requires { angle ≤ HALF_TURN }
    ensures value { result ≡ half_turn_sine angle }
    ensures low { pos 0 ≤ℤ result }
    ensures high { result ≤ℤ WHOLE_SINE }
{
    let product = u64::from(angle) * u64::from(HALF_TURN - angle);
    (SINE_FACTOR * product / (SINE_SQUARE - product)) as i32
}

/// The cosine of an angle below a whole turn, in ten-thousandths: the sine a quarter of a turn on.
pub fn cosine(angle: u32) -> i32
    requires { angle < WHOLE_TURN }
    ensures value { result ≡ cosine_of angle }
    ensures within { IsWithin WHOLE_SINE result }
{
    sine((angle + QUARTER_TURN) % WHOLE_TURN)
}

/// How far ahead and how far to starboard of a vessel a point lies, of which `north` and `east` say
/// how far it lies in these directions, each within `MOST_OFFSET` either way. `heading` is the vessel's,
/// below a whole turn. Each answer is rounded down, in the unit of `north` and `east`.
pub fn rotate(north: i64, east: i64, heading: u32) -> (i64, i64)
    requires north { IsWithin MOST_OFFSET north }
    requires east { IsWithin MOST_OFFSET east }
    requires heading { heading < WHOLE_TURN }
    ensures ahead { result.0 ≡ ahead_of north east heading }
    ensures starboard { result.1 ≡ starboard_of north east heading }
{
    let sine = sine(heading);
    let cosine = cosine(heading);
    (
        weighted(north, cosine, east, sine),
        weighted(east, cosine, -north, sine),
    )
}

/// `a` with the weight `p` and `b` with the weight `q`. The weights are in ten-thousandths.
fn weighted(a: i64, p: i32, b: i64, q: i32) -> i64
    requires a { IsWithin MOST_OFFSET a }
    requires p { IsWithin WHOLE_SINE p }
    requires b { IsWithin MOST_OFFSET b }
    requires q { IsWithin WHOLE_SINE q }
    ensures { result ≡ floor_quotient (a *ℤ p +ℤ b *ℤ q) WHOLE_SINE }
{
    let sum = a as i128 * p as i128 + b as i128 * q as i128;
    floor_div(sum, WHOLE_SINE as i128) as i64
}

/// The law of constants: the sine's factor and square, what a whole sine is, and how far a wind table's rows are apart,
/// as numbers. Calling it does nothing.
pub fn constants_are_told()
    ensures { AreConstants }
{}
