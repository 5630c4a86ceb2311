//! Thrusts and cuts in lowest terms.
ghost use Rattle.std.specs.Prelude.{◌≡◌, pos, ◌≤ℤ◌, map};
ghost use Rattle.dp_num.specs.Fractions.{IsGreatestCommonDivisor};
ghost use Rattle.wrench_geometry.specs.Vectors.{dot_of};
ghost use Rattle.wrench_geometry.specs.declared.vector.Vec3.{Vec3};
ghost use Rattle.feasibility.specs.Lowest.{AreReduced, IsGreatestDivisor, IsGreatestOf};
ghost use Rattle.feasibility.specs.Lowest.{IsShortened, divided_by};

use dp_num::gcd;
use plant_model::thrust::{Thrust, Thrusts};
use wrench_geometry::{Cut, Vec3};

/// Thrusts over a denominator.
#[derive(Drop)]
pub struct Shared {
    pub q: i64,
    pub thrusts: Thrusts,
}

/// The same thrusts in lowest terms. The denominator is at least 1.
pub fn lowest(shared: &Shared) -> Shared
    requires { pos 1 ≤ℤ shared.now.q }
    ensures { AreReduced shared.now.q shared.now.thrusts.list.items
        result.q result.thrusts.list.items }
{
    let common = common_divisor(shared.q, shared.thrusts.list.as_slice());
    Shared {
        q: shared.q.div_euclid(common),
        thrusts: divided(&shared.thrusts, common),
    }
}

/// The greatest common divisor of the denominator, which is at least 1, and all coordinates.
fn common_divisor(q: i64, thrusts: &[Thrust]) -> i64
    requires { pos 1 ≤ℤ q }
    ensures { IsGreatestDivisor q thrusts.now result }
{
    let mut common = q;
    for thrust in thrusts {
        common = gcd_with(gcd_with(common, thrust.x), thrust.y);
    }
    common
}

/// The greatest common divisor of two numbers, of which the first is at least 1.
fn gcd_with(a: i64, b: i128) -> i64
    requires { pos 1 ≤ℤ a }
    ensures greatest { IsGreatestCommonDivisor a b result }
    ensures from_1 { pos 1 ≤ℤ result }
{
    gcd(a, b.rem_euclid(a as i128) as i64)
}

/// The floors of the coordinates over a divisor of at least 1.
fn divided(thrusts: &Thrusts, common: i64) -> Thrusts
    requires { pos 1 ≤ℤ common }
    ensures { result.list.items ≡ map (divided_by common) thrusts.now.list.items }
{
    let mut quotients = Thrusts::default();
    for thrust in thrusts.list.as_slice() {
        quotients.list.push(Thrust {
            x: thrust.x.div_euclid(common as i128),
            y: thrust.y.div_euclid(common as i128),
        });
    }
    quotients
}

/// The direction of the cut in lowest terms.
pub fn direction(cut: &Cut) -> Vec3
    requires { pos 1 ≤ℤ cut.now.bottom }
    ensures { (d : Vec3) → cut.now.bottom ≡ dot_of cut.now.w d → IsShortened cut.now.w result }
{
    let common = common_factor(cut);
    Vec3 {
        x: cut.w.x.div_euclid(common),
        y: cut.w.y.div_euclid(common),
        z: cut.w.z.div_euclid(common),
    }
}

/// The greatest common divisor of the components of the cut's direction. It divides the direction's
/// product with any demand, which for the cut's is at least 1.
fn common_factor(cut: &Cut) -> i64
    requires { pos 1 ≤ℤ cut.now.bottom }
    ensures from_1 { pos 1 ≤ℤ result }
    ensures greatest { (d : Vec3) → cut.now.bottom ≡ dot_of cut.now.w d →
        IsGreatestOf cut.now.w result }
{
    let Vec3 { x, y, z } = cut.w;
    gcd_with(
        gcd_with(gcd_with(cut.bottom, x as i128), y as i128),
        z as i128,
    )
}
