//! The search for a least cut among the normals of each two directions.
ghost use Rattle.std.specs.Prelude.{◌≡◌, ◌≢◌, ◌+◌, ◌-◌, ◌*◌, ◌<◌, ◌≤◌, pos, ◌*ℤ◌, ◌≤ℤ◌, ◌⊎◌, All, length};
ghost use Rattle.std.specs.Prelude.{IfNone, IfSome};
ghost use Rattle.plant_model.specs.Numbers.{IsWithin};
ghost use Rattle.wrench_geometry.specs.Cuts.{IsCut, IsLeastCut};
ghost use Rattle.wrench_geometry.specs.Directions.{directions_of};
ghost use Rattle.wrench_geometry.specs.Vectors.{dot_of, opposite_of, zero_vector};
ghost use Rattle.wrench_geometry.specs.Wrenches.{IsDemandVector};
ghost use Rattle.separation.specs.Candidates.{IsAtMost, IsAtMostAlong, IsAtMostWith, IsNormal};
ghost use Rattle.separation.specs.Directions.{IsDirection};

use crate::directions::directions_of;
use std::marker::Brand;
use std::sync::ledger::{Blank, Ledger};
use wrench_geometry::{Cut, Steps, Sums, Vec3, cross, opposite, product, support_counted};

/// The cut with the least `top / bottom` of all whole directions that have a product of at least 1 with `d`. `d` is a
/// demand within its limits, in kN and kN·dm, and not zero. One of two directions with the same quotient is found.
///
/// It is found among the normals, both ways, of each two directions of the sums: any whole vector turns into one of
/// these, past no direction's wall, without that its quotient grows.
pub fn least_cut(sums: &Sums, d: Vec3) -> Cut
    requires demand { IsDemandVector d }
    requires not_zero { d ≢ zero_vector }
    ensures least { IsLeastCut sums.now d result }
{
    least_cut_from::<Brand>(sums, d, Blank::new(1))
}

/// [`least_cut`] with a blank of its own.
fn least_cut_from<L: Ledger>(sums: &Sums, d: Vec3, blank: Blank) -> Cut
    requires demand { IsDemandVector d }
    requires not_zero { d ≢ zero_vector }
    requires name { blank.name ≡ L.name }
    requires parts { blank.parts ≡ L.parts }
    requires some { 0 < blank.parts }
    ensures least { IsLeastCut sums.now d result }
{
    let mut steps = Steps::<L>::none(blank);
    least_cut_counted(sums, d, &mut steps)
}

/// [`least_cut`], with its steps counted: the supports of candidates that it takes. With `n` for the number that
/// [`wrench_geometry::directions`] gives there are at most `n * (n - 1)`.
pub fn least_cut_counted<L: Ledger>(sums: &Sums, d: Vec3, steps: &mut Steps<L>) -> Cut
    requires demand { IsDemandVector d }
    requires not_zero { d ≢ zero_vector }
    ensures least { IsLeastCut sums.now d result }
    ensures few_steps { steps.new
        ≤ steps.old + directions_of sums.now * (directions_of sums.now - 1) }
{
    let directions = directions_of(sums);
    let members = directions.as_slice();
    let mut least = axis_cut(sums, d, steps);
    for (place, member) in members.iter().enumerate() {
        least = least_with(sums, d, least, *member, &members[..place], steps);
    }
    least
}

/// The cut of a signed axis along which the demand is not 0.
fn axis_cut<L: Ledger>(sums: &Sums, d: Vec3, steps: &mut Steps<L>) -> Cut
    requires demand { IsDemandVector d }
    requires not_zero { d ≢ zero_vector }
    ensures cut { IsCut sums.now d result }
    ensures one_step { steps.new ≡ steps.old + 1 }
{
    cut_of(sums, d, axis_of(d), steps)
}

/// A signed axis along which the demand is not 0.
fn axis_of(d: Vec3) -> Vec3
    requires { d ≢ zero_vector }
    ensures normal { IsNormal result }
    ensures ahead { pos 1 ≤ℤ dot_of result d }
{
    if d.x != 0 {
        Vec3 {
            x: sign(d.x),
            y: 0,
            z: 0,
        }
    } else if d.y != 0 {
        Vec3 {
            x: 0,
            y: sign(d.y),
            z: 0,
        }
    } else {
        Vec3 {
            x: 0,
            y: 0,
            z: sign(d.z),
        }
    }
}

/// 1 or -1, whichever has the number's sign.
fn sign(z: i64) -> i64
    requires { z ≢ pos 0 }
    ensures one { IsWithin (pos 1) result }
    ensures ahead { pos 1 ≤ℤ (result *ℤ z) }
{
    if z > 0 { 1 } else { -1 }
}

/// The least of a cut and those of the normals of one direction and each of some others.
fn least_with<L: Ledger>(
    sums: &Sums,
    d: Vec3,
    cut: Cut,
    direction: Vec3,
    others: &[Vec3],
    steps: &mut Steps<L>,
) -> Cut
    requires demand { IsDemandVector d }
    requires cut { IsCut sums.now d cut }
    requires direction { IsDirection direction }
    requires others { All IsDirection others.now }
    ensures cut { IsCut sums.now d result }
    ensures at_most { IsAtMost result cut }
    ensures at_most_others { IsAtMostWith sums.now d result direction others.now }
    ensures few_steps { steps.new ≤ steps.old + length others.now }
{
    let mut least = cut;
    for other in others {
        least = least_along(sums, d, least, cross(direction, *other), steps);
    }
    least
}

/// The lesser of a cut and that of a normal or of its opposite, whichever is ahead of the demand. Neither is where the
/// normal is perpendicular to the demand, as where it is zero.
fn least_along<L: Ledger>(sums: &Sums, d: Vec3, cut: Cut, normal: Vec3, steps: &mut Steps<L>) -> Cut
    requires demand { IsDemandVector d }
    requires cut { IsCut sums.now d cut }
    requires normal { IsNormal normal }
    ensures cut { IsCut sums.now d result }
    ensures at_most { IsAtMost result cut }
    ensures at_most_normal { IsAtMostAlong sums.now d result normal }
    ensures few_steps { steps.new ≤ steps.old + 1 }
{
    match ahead_of(normal, d) {
        Some(w) => lesser(cut, cut_of(sums, d, w, steps)),
        None => cut,
    }
}

/// The normal or its opposite, whichever is ahead of the demand: whose product with it is at least 1. None where the
/// normal is perpendicular to the demand.
fn ahead_of(normal: Vec3, d: Vec3) -> Option<Vec3>
    requires demand { IsDemandVector d }
    requires normal { IsNormal normal }
    ensures none { IfNone result (dot_of normal d ≡ pos 0) }
    ensures either { IfSome result (λ w. (w ≡ normal) ⊎ (w ≡ opposite_of normal)) }
    ensures within { IfSome result IsNormal }
    ensures ahead { IfSome result (λ w. pos 1 ≤ℤ dot_of w d) }
{
    let along = product(normal, d);
    if along > 0 {
        Some(normal)
    } else if along < 0 {
        Some(opposite(normal))
    } else {
        None
    }
}

/// The cut of a direction that is ahead of the demand, whose support is one step.
fn cut_of<L: Ledger>(sums: &Sums, d: Vec3, w: Vec3, steps: &mut Steps<L>) -> Cut
    requires demand { IsDemandVector d }
    requires normal { IsNormal w }
    requires ahead { pos 1 ≤ℤ dot_of w d }
    ensures direction { result.w ≡ w }
    ensures cut { IsCut sums.now d result }
    ensures one_step { steps.new ≡ steps.old + 1 }
{
    let _lists = sums.lists();
    Cut {
        w,
        top: support_counted(sums, w, steps) as i64,
        bottom: product(w, d),
    }
}

/// The cut with the lesser quotient, and the first where they are equal.
fn lesser(first: Cut, second: Cut) -> Cut
    ensures one { (result ≡ first) ⊎ (result ≡ second) }
    ensures at_most_first { IsAtMost result first }
    ensures at_most_second { IsAtMost result second }
{
    if across(second.top, first.bottom) < across(first.top, second.bottom) {
        second
    } else {
        first
    }
}

fn across(a: i64, b: i64) -> i128
    ensures { result ≡ a *ℤ b }
{
    a as i128 * b as i128
}
