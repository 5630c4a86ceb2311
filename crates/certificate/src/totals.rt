//! The force and the moment of thrusts together.
ghost use Rattle.std.specs.Prelude.{◌≡◌, ◌*ℤ◌, ◌↔◌, All, IsTrue, length, map};
ghost use Rattle.plant_model.specs.declared.limits.TheConstants.{FARTHEST_LEVER};
ghost use Rattle.wrench_geometry.specs.Chosen.{levers_of};
ghost use Rattle.wrench_geometry.specs.Vectors.{IsVectorWithin, scaled_by, sum_of};
ghost use Rattle.wrench_geometry.specs.Wrenches.{IsPointWithin, image_of};
ghost use Rattle.certificate.specs.Outcomes.{total_of};
ghost use Rattle.certificate.specs.Beside.{IsTaken};
ghost use Rattle.certificate.specs.Sides.{place_of};
ghost use Rattle.certificate.specs.Totals.{vector_of};

use crate::holds::FARTHEST_TAKEN;
use plant_model::limits::{FARTHEST_LEVER, MOST_THRUSTERS};
use plant_model::plant::Plant;
use plant_model::thrust::{Point, Thrust};
use wrench_geometry::Vec3;

/// A force and a moment over a denominator that stands beside them: `x` and `y` in kN, `z` in
/// kN·dm.
#[derive(Clone, Copy, Default)]
pub struct Total {
    pub x: i128,
    pub y: i128,
    pub z: i128,
}

/// The greatest component of one thrust's force and moment: a moment has two parts, each with the
/// farthest lever.
const MOST_SHARE: i128 = 2 * FARTHEST_LEVER as i128 * FARTHEST_TAKEN;

/// The greatest component of the forces and moments of all thrusts.
const MOST_TOTAL: i128 = MOST_THRUSTERS as i128 * MOST_SHARE;

/// The force and the moment of the thrusts at the levers of their thrusters, together.
pub fn sum_at_levers(plant: &Plant, thrusts: &[Thrust]) -> Total
    requires one_each { length thrusts.now ≡ length plant.now.thrusters.items }
    requires taken { All IsTaken thrusts.now }
    ensures { vector_of result ≡ total_of (levers_of plant.now) (map place_of thrusts.now) }
{
    let thrusters = plant.parts().thrusters.as_slice();
    let mut total = Total::default();
    for (i, thruster) in thrusters.iter().enumerate() {
        total = sum(total, share_of(thruster.lever, thrusts[i]));
    }
    total
}

/// The force and the moment of a thrust at a lever.
fn share_of(lever: Point, thrust: Thrust) -> Total
    requires lever { IsPointWithin FARTHEST_LEVER lever }
    requires taken { IsTaken thrust }
    ensures value { vector_of result ≡ image_of lever (place_of thrust) }
    ensures within { IsVectorWithin MOST_SHARE MOST_SHARE (vector_of result) }
{
    Total {
        x: thrust.x,
        y: thrust.y,
        z: lever.x as i128 * thrust.y - lever.y as i128 * thrust.x,
    }
}

/// A total with one thrust's share.
fn sum(total: Total, share: Total) -> Total
    requires total { IsVectorWithin MOST_TOTAL MOST_TOTAL (vector_of total) }
    requires share { IsVectorWithin MOST_SHARE MOST_SHARE (vector_of share) }
    ensures { vector_of result ≡ sum_of (vector_of total) (vector_of share) }
{
    Total {
        x: total.x + share.x,
        y: total.y + share.y,
        z: total.z + share.z,
    }
}

/// Whether the total is `q` times the demand.
pub fn is_product(total: Total, q: i64, demand: Vec3) -> bool
    ensures { IsTrue result ↔ (vector_of total ≡ scaled_by q demand) }
{
    is_times(total.x, q, demand.x)
        && is_times(total.y, q, demand.y)
        && is_times(total.z, q, demand.z)
}

/// Whether `z` is `q` times a component.
fn is_times(z: i128, q: i64, component: i64) -> bool
    ensures { IsTrue result ↔ (z ≡ q *ℤ component) }
{
    z == q as i128 * component as i128
}
