//! What three references say together.
ghost use Rattle.std.specs.Prelude.{◌≡◌, ◌<◌};
ghost use Rattle.sensor_vote.specs.Medians.{distance, heading_of, is_off, median_of, middle};

use crate::reference::Reference;
use plant_model::limits::WHOLE_TURN;

/// A reference is bad that is farther than this from the answer along an axis, in cm.
pub const MOST_OFF_POSITION: u32 = 500;
/// A reference is bad whose heading is farther than this from the answer's, in centidegrees.
pub const MOST_OFF_COURSE: u32 = 300;

/// Where the vessel is, as three references say together.
#[derive(Clone, Copy, Debug, PartialEq, Eq)]
pub struct Median {
    pub x: i32,
    pub y: i32,
    pub heading: u32,
}

/// The middle one of three numbers.
fn middle(a: i32, b: i32, c: i32) -> i32
    ensures { result ≡ middle a b c }
{
    a.min(b).max(a.max(b).min(c))
}

/// How far two headings are apart, the shorter way round.
fn distance(a: u32, b: u32) -> u32
    requires first { a < WHOLE_TURN }
    requires second { b < WHOLE_TURN }
    ensures { result ≡ distance a b }
{
    let difference = a.abs_diff(b);
    difference.min(WHOLE_TURN - difference)
}

/// The heading whose distances to the two others have the least sum, the first of such.
fn heading(a: u32, b: u32, c: u32) -> u32
    requires first { a < WHOLE_TURN }
    requires second { b < WHOLE_TURN }
    requires third { c < WHOLE_TURN }
    ensures value { result ≡ heading_of a b c }
    ensures within { result < WHOLE_TURN }
{
    let from_a = distance(a, b) + distance(a, c);
    let from_b = distance(b, a) + distance(b, c);
    let from_c = distance(c, a) + distance(c, b);
    if from_a <= from_b && from_a <= from_c {
        a
    } else if from_b <= from_c {
        b
    } else {
        c
    }
}

/// What the three say together.
pub fn median_of(a: &Reference, b: &Reference, c: &Reference) -> Median
    requires first { a.now.heading < WHOLE_TURN }
    requires second { b.now.heading < WHOLE_TURN }
    requires third { c.now.heading < WHOLE_TURN }
    ensures value { result ≡ median_of a.now b.now c.now }
    ensures within { result.heading < WHOLE_TURN }
{
    Median {
        x: middle(a.x, b.x, c.x),
        y: middle(a.y, b.y, c.y),
        heading: heading(a.heading, b.heading, c.heading),
    }
}

/// Whether the reference is bad: too far from what the three say together.
pub fn is_off(median: &Median, reference: &Reference) -> bool
    requires median { median.now.heading < WHOLE_TURN }
    requires reference { reference.now.heading < WHOLE_TURN }
    ensures { result ≡ is_off median.now reference.now }
{
    reference.x.abs_diff(median.x) > MOST_OFF_POSITION
        || reference.y.abs_diff(median.y) > MOST_OFF_POSITION
        || distance(reference.heading, median.heading) > MOST_OFF_COURSE
}
