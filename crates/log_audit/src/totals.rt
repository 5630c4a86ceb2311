//! The force and the moment of thrusts together, and whether they are a part of a demand.
ghost use Rattle.std.specs.Prelude.{◌≡◌, pos, ◌*ℤ◌, ◌≤ℤ◌, ◌↔◌, All, IsTrue, length, map};
ghost use Rattle.dp_num.specs.Fractions.{SameQuotient};
ghost use Rattle.plant_model.specs.Numbers.{IsWithin};
ghost use Rattle.plant_model.specs.declared.limits.TheConstants.{FARTHEST_LEVER};
ghost use Rattle.wrench_geometry.specs.Chosen.{levers_of};
ghost use Rattle.wrench_geometry.specs.Vectors.{IsVectorWithin, scaled_by, sum_of};
ghost use Rattle.wrench_geometry.specs.Wrenches.{IsPointWithin, image_of};
ghost use Rattle.certificate.specs.Beside.{IsTaken};
ghost use Rattle.certificate.specs.Losses.{demand_of};
ghost use Rattle.certificate.specs.Outcomes.{total_of};
ghost use Rattle.certificate.specs.Sides.{place_of};
ghost use Rattle.log_audit.specs.Totals.{vector_of};

use dp_num::{Fraction, compare_wide};
use plant_model::limits::{FARTHEST_LEVER, MOST_THRUSTERS};
use plant_model::plant::Plant;
use plant_model::thrust::{Point, Thrust};
use plant_model::wrench::Wrench;

/// A force and a moment over a denominator that stands beside them: `x` and `y` in kN, `z` in kN·dm.
#[derive(Clone, Copy, Default)]
pub(crate) struct Total {
    pub x: i128,
    pub y: i128,
    pub z: i128,
}

/// The farthest coordinate of a thrust that lies in a piece beside a fixed thrust, over some denominator.
const FARTHEST_TAKEN: i128 = (1 << 32) * i64::MAX as i128;

/// The greatest component of one thrust's force and moment: a moment has two parts, each with the farthest lever.
const MOST_SHARE: i128 = 2 * FARTHEST_LEVER as i128 * FARTHEST_TAKEN;

/// The greatest component of the forces and moments of all thrusts.
const MOST_TOTAL: i128 = MOST_THRUSTERS as i128 * MOST_SHARE;

/// The force and the moment of the thrusts at the levers of their thrusters, together.
pub(crate) fn sum_at_levers(plant: &Plant, thrusts: &[Thrust]) -> Total
    requires one_each { length thrusts.now ≡ length plant.now.thrusters.items }
    requires taken { All IsTaken thrusts.now }
    ensures value { vector_of result ≡ total_of (levers_of plant.now) (map place_of thrusts.now) }
    ensures within { IsVectorWithin MOST_TOTAL MOST_TOTAL (vector_of result) }
{
    let thrusters = plant.parts().thrusters.as_slice();
    let mut total = Total::default();
    for (i, thruster) in thrusters.iter().enumerate() {
        total = sum(total, share_of(thruster.lever, thrusts[i]));
    }
    total
}

/// The force and the moment of a thrust at a lever.
fn share_of(lever: Point, thrust: Thrust) -> Total
    requires lever { IsPointWithin FARTHEST_LEVER lever }
    requires taken { IsTaken thrust }
    ensures value { vector_of result ≡ image_of lever (place_of thrust) }
    ensures within { IsVectorWithin MOST_SHARE MOST_SHARE (vector_of result) }
{
    Total {
        x: thrust.x,
        y: thrust.y,
        z: lever.x as i128 * thrust.y - lever.y as i128 * thrust.x,
    }
}

/// A total with one thrust's share.
fn sum(total: Total, share: Total) -> Total
    requires total { IsVectorWithin MOST_TOTAL MOST_TOTAL (vector_of total) }
    requires share { IsVectorWithin MOST_SHARE MOST_SHARE (vector_of share) }
    ensures { vector_of result ≡ sum_of (vector_of total) (vector_of share) }
{
    Total {
        x: total.x + share.x,
        y: total.y + share.y,
        z: total.z + share.z,
    }
}

/// Whether the total over `q` is the part of the demand.
pub(crate) fn is_part(total: Total, q: i64, part: Fraction, demand: Wrench) -> bool
    requires from_1 { pos 1 ≤ℤ q }
    requires within { IsVectorWithin MOST_TOTAL MOST_TOTAL (vector_of total) }
    ensures { IsTrue result ↔ (scaled_by part.bottom (vector_of total)
        ≡ scaled_by (q *ℤ part.top) (demand_of demand)) }
{
    is_share(total.x, q, part, demand.x)
        && is_share(total.y, q, part, demand.y)
        && is_share(total.z, q, part, demand.n)
}

/// Whether the sum over `q` is the part of the component.
fn is_share(sum: i128, q: i64, part: Fraction, component: i32) -> bool
    requires from_1 { pos 1 ≤ℤ q }
    requires within { IsWithin MOST_TOTAL sum }
    ensures { IsTrue result ↔ (part.bottom *ℤ sum ≡ (q *ℤ part.top) *ℤ component) }
{
    let asked = part.top as i128 * component as i128;
    if sum < 0 {
        asked < 0 && are_one(-sum, q as i128, -asked, part.bottom as i128)
    } else {
        asked >= 0 && are_one(sum, q as i128, asked, part.bottom as i128)
    }
}

/// Whether `a / b` and `c / d` are one number.
fn are_one(a: i128, b: i128, c: i128, d: i128) -> bool
    requires a_from_0 { pos 0 ≤ℤ a }
    requires b_from_1 { pos 1 ≤ℤ b }
    requires c_from_0 { pos 0 ≤ℤ c }
    requires d_from_1 { pos 1 ≤ℤ d }
    ensures { IsTrue result ↔ SameQuotient a b c d }
{
    compare_wide(a, b, c, d).is_eq()
}
