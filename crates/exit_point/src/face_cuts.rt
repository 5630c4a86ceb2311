//! The face on which a cut is reached, and the least cut of the face along what is left of the
//! demand past a corner of it.
ghost use Rattle.std.specs.Prelude.{◌≡◌, ◌≢◌, pos, ◌-ℤ◌, ◌*ℤ◌, ◌≤ℤ◌, ◌↔◌, ◌⊎◌, IsTrue};
ghost use Rattle.std.specs.Prelude.{IfNone, IfSome};
ghost use Rattle.plant_model.specs.Numbers.{IsWithin};
ghost use Rattle.separation.specs.Directions.{IsDirection};
ghost use Rattle.wrench_geometry.specs.declared.cut.TheConstants.{CUT_PARTS_BELOW};
ghost use Rattle.wrench_geometry.specs.Vectors.{dot_of, opposite_of, zero_vector};
ghost use Rattle.wrench_geometry.specs.Wrenches.{AreImages, IsDemandVector, IsImage, IsSum};
ghost use Rattle.exit_point.specs.Orders.{IsTilt};
ghost use Rattle.exit_point.specs.Faces.{IsFaceAt, IsFaceCut, IsLeastAlong, IsNoMore};
ghost use Rattle.exit_point.specs.Faces.{IsNoMoreAcross, IsNoMoreAlong, IsNoMoreAmong};
ghost use Rattle.exit_point.specs.Faces.{IsNoMoreBetween, IsNoMoreFrom, IsRest, IsUnit};
ghost use Rattle.exit_point.specs.Faces.{faces_at, rest_of, vector_of};

use crate::orders::{Order, farthest, image_at};
use dp_num::compare_wide;
use plant_model::limits::{MOST_FORCE, MOST_MOMENT};
use std::cmp::Ordering;
use wrench_geometry::{CUT_PARTS_BELOW, Cut, Sums, Vec3, Vertex, cross, difference, dot, opposite};

/// How far from 0 the first two components of a rest may be.
pub const REST_FORCE: i128 = 2 * CUT_PARTS_BELOW as i128 * MOST_FORCE as i128;

/// How far from 0 the third component of a rest may be.
pub const REST_MOMENT: i128 = 2 * CUT_PARTS_BELOW as i128 * MOST_MOMENT as i128;

/// What is left of a demand, times the top of a cut, past a corner, times the cut's bottom.
#[derive(Clone, Copy)]
pub struct Rest {
    pub x: i128,
    pub y: i128,
    pub z: i128,
}

/// The points of the sums that are farthest along `w`, one corner of them, and what is left of the
/// demand past it.
#[derive(Drop)]
pub struct Face {
    pub w: Vec3,
    pub corner: Vertex,
    pub rest: Rest,
}

/// A direction with its product `bottom` with a face's rest, which is at least 1, and the greatest
/// product `top` that it has with what a point of the face is more than its corner.
#[derive(Clone, Copy)]
pub struct FaceCut {
    pub u: Vec3,
    pub top: i128,
    pub bottom: i128,
}

/// What is left of the demand, as far as the cut lets it go, past a corner.
pub fn rest_past(cut: &Cut, d: Vec3, point: Vec3) -> Rest
    requires demand { IsDemandVector d }
    requires point { IsSum point }
    requires top { IsWithin CUT_PARTS_BELOW cut.now.top }
    requires bottom { IsWithin CUT_PARTS_BELOW cut.now.bottom }
    ensures value { vector_of result ≡ rest_of cut.now.top d cut.now.bottom point }
    ensures within { IsRest result }
{
    Rest {
        x: part_past(cut.top, d.x, cut.bottom, point.x),
        y: part_past(cut.top, d.y, cut.bottom, point.y),
        z: part_past(cut.top, d.z, cut.bottom, point.z),
    }
}

/// One component of what is left of a demand past a point.
fn part_past(top: i64, d: i64, bottom: i64, point: i64) -> i128
    requires top { IsWithin CUT_PARTS_BELOW top }
    requires bottom { IsWithin CUT_PARTS_BELOW bottom }
    ensures { result ≡ top *ℤ d -ℤ bottom *ℤ point }
{
    top as i128 * d as i128 - bottom as i128 * point as i128
}

/// A signed axis that is ahead of a rest that is not zero.
pub fn axis(rest: Rest) -> Vec3
    requires not_zero { vector_of rest ≢ zero_vector }
    ensures unit { IsUnit result }
    ensures ahead { pos 1 ≤ℤ dot_of result (vector_of rest) }
{
    if rest.x != 0 {
        Vec3 {
            x: sign(rest.x),
            y: 0,
            z: 0,
        }
    } else if rest.y != 0 {
        Vec3 {
            x: 0,
            y: sign(rest.y),
            z: 0,
        }
    } else {
        Vec3 {
            x: 0,
            y: 0,
            z: sign(rest.z),
        }
    }
}

fn sign(z: i128) -> i64
    ensures unit { IsWithin (pos 1) result }
    ensures ahead { z ≢ pos 0 → pos 1 ≤ℤ (result *ℤ z) }
{
    if z > 0 { 1 } else { -1 }
}

/// The product of a direction with a rest.
fn along(u: Vec3, rest: Rest) -> i128
    requires tilt { IsTilt u }
    requires rest { IsRest rest }
    ensures { result ≡ dot_of u (vector_of rest) }
{
    u.x as i128 * rest.x + u.y as i128 * rest.y + u.z as i128 * rest.z
}

/// The least cut of a face. It is found among the normals, both ways, of an axis and of another
/// axis or a difference of two points that one list has on the face: the normal of two such
/// differences is that of the face, and not ahead of the rest.
pub fn least_beside(sums: &Sums, face: &Face) -> FaceCut
    requires face { IsFaceAt sums.now face.now }
    requires not_zero { vector_of face.now.rest ≢ zero_vector }
    ensures cut { IsFaceCut sums.now face.now result }
    ensures least { IsLeastAlong (faces_at sums.now face.now) (vector_of face.now.rest) result.u
        result.top result.bottom }
{
    let start = cut_of(sums, face, axis(face.rest));
    let x = least_across(sums, face, start, Vec3 { x: 1, y: 0, z: 0 });
    let y = least_across(sums, face, x, Vec3 { x: 0, y: 1, z: 0 });
    let mut least = least_across(sums, face, y, Vec3 { x: 0, y: 0, z: 1 });
    for (i, images) in sums.lists().iter().enumerate() {
        let list = images.as_slice();
        let chosen = image_at(list, face.corner.places[i]);
        least = least_of(sums, face, least, list, chosen);
    }
    least
}

/// The least of a cut and those of the normals of the differences of a list's points that are as
/// far along the face's direction as the chosen one.
fn least_of(sums: &Sums, face: &Face, cut: FaceCut, images: &[Vec3], chosen: Vec3) -> FaceCut
    requires face { IsFaceAt sums.now face.now }
    requires cut { IsFaceCut sums.now face.now cut }
    requires images { AreImages images.now }
    requires chosen { IsImage chosen }
    ensures cut { IsFaceCut sums.now face.now result }
    ensures at_most { IsNoMore result cut }
    ensures at_most_pairs { IsNoMoreAmong sums.now face.now result images.now chosen images.now }
{
    let mut least = least_from(sums, face, cut, images, chosen, Vec3::default());
    for point in images {
        least = least_from(sums, face, least, images, chosen, *point);
    }
    least
}

/// The least of a cut and those of the normals of what one point of a list is more than the others.
/// Of all points only those count that are as far along the face's direction as the chosen one.
fn least_from(
    sums: &Sums,
    face: &Face,
    cut: FaceCut,
    images: &[Vec3],
    chosen: Vec3,
    point: Vec3,
) -> FaceCut
    requires face { IsFaceAt sums.now face.now }
    requires cut { IsFaceCut sums.now face.now cut }
    requires images { AreImages images.now }
    requires chosen { IsImage chosen }
    requires point { IsImage point }
    ensures cut { IsFaceCut sums.now face.now result }
    ensures at_most { IsNoMore result cut }
    ensures at_most_point { IsNoMoreFrom sums.now face.now result images.now chosen point }
{
    if !is_level(face.w, chosen, point) {
        return cut;
    }
    let mut least = least_between(sums, face, cut, chosen, point, Vec3::default());
    for other in images {
        least = least_between(sums, face, least, chosen, point, *other);
    }
    least
}

/// The least of a cut and those of the normals of the difference of two points, where the second
/// one is as far along the face's direction as the chosen one.
fn least_between(
    sums: &Sums,
    face: &Face,
    cut: FaceCut,
    chosen: Vec3,
    point: Vec3,
    other: Vec3,
) -> FaceCut
    requires face { IsFaceAt sums.now face.now }
    requires cut { IsFaceCut sums.now face.now cut }
    requires chosen { IsImage chosen }
    requires point { IsImage point }
    requires other { IsImage other }
    ensures cut { IsFaceCut sums.now face.now result }
    ensures at_most { IsNoMore result cut }
    ensures at_most_difference { IsNoMoreBetween sums.now face.now result chosen point other }
{
    if is_level(face.w, chosen, other) {
        least_across(sums, face, cut, difference(point, other))
    } else {
        cut
    }
}

/// Whether two images are as far along a direction.
fn is_level(w: Vec3, first: Vec3, second: Vec3) -> bool
    requires first { IsImage first }
    requires second { IsImage second }
    ensures { IsTrue result ↔ (dot_of w second ≡ dot_of w first) }
{
    dot(w, second) == dot(w, first)
}

/// The least of a cut and those of the normals of each axis and a difference of two images.
fn least_across(sums: &Sums, face: &Face, cut: FaceCut, e: Vec3) -> FaceCut
    requires face { IsFaceAt sums.now face.now }
    requires cut { IsFaceCut sums.now face.now cut }
    requires direction { IsDirection e }
    ensures cut { IsFaceCut sums.now face.now result }
    ensures at_most { IsNoMore result cut }
    ensures at_most_normals { IsNoMoreAcross sums.now face.now result e }
{
    let first = least_along(sums, face, cut, cross(Vec3 { x: 1, y: 0, z: 0 }, e));
    let second = least_along(sums, face, first, cross(Vec3 { x: 0, y: 1, z: 0 }, e));
    least_along(sums, face, second, cross(Vec3 { x: 0, y: 0, z: 1 }, e))
}

/// The lesser of a cut and that of a normal or of its opposite, whichever is ahead of the rest.
/// Neither is where the normal is perpendicular to the rest.
fn least_along(sums: &Sums, face: &Face, cut: FaceCut, normal: Vec3) -> FaceCut
    requires face { IsFaceAt sums.now face.now }
    requires cut { IsFaceCut sums.now face.now cut }
    requires tilt { IsTilt normal }
    ensures cut { IsFaceCut sums.now face.now result }
    ensures at_most { IsNoMore result cut }
    ensures at_most_normal { IsNoMoreAlong sums.now face.now result normal }
{
    match ahead_of(normal, face.rest) {
        Some(u) => lesser(cut, cut_of(sums, face, u)),
        None => cut,
    }
}

/// The normal or its opposite, whichever is ahead of the rest. None where the normal is
/// perpendicular to it.
fn ahead_of(normal: Vec3, rest: Rest) -> Option<Vec3>
    requires tilt { IsTilt normal }
    requires rest { IsRest rest }
    ensures none { IfNone result (dot_of normal (vector_of rest) ≡ pos 0) }
    ensures either { IfSome result (λ u. (u ≡ normal) ⊎ (u ≡ opposite_of normal)) }
    ensures tilt { IfSome result IsTilt }
    ensures ahead { IfSome result (λ u. pos 1 ≤ℤ dot_of u (vector_of rest)) }
{
    let along = along(normal, rest);
    if along > 0 {
        Some(normal)
    } else if along < 0 {
        Some(opposite(normal))
    } else {
        None
    }
}

/// The cut of a face in a direction that is ahead of its rest.
fn cut_of(sums: &Sums, face: &Face, u: Vec3) -> FaceCut
    requires face { IsFaceAt sums.now face.now }
    requires tilt { IsTilt u }
    requires ahead { pos 1 ≤ℤ dot_of u (vector_of face.now.rest) }
    ensures direction { result.u ≡ u }
    ensures cut { IsFaceCut sums.now face.now result }
{
    let order = Order {
        w: face.w,
        u,
        t: Vec3::default(),
    };
    let past = difference(farthest(sums, order).point, face.corner.point);
    FaceCut {
        u,
        top: dot(u, past),
        bottom: along(u, face.rest),
    }
}

/// The cut with the lesser quotient, and the first where they are equal.
fn lesser(first: FaceCut, second: FaceCut) -> FaceCut
    requires first_top { pos 0 ≤ℤ first.top }
    requires first_bottom { pos 1 ≤ℤ first.bottom }
    requires second_top { pos 0 ≤ℤ second.top }
    requires second_bottom { pos 1 ≤ℤ second.bottom }
    ensures one { (result ≡ first) ⊎ (result ≡ second) }
    ensures at_most_first { IsNoMore result first }
    ensures at_most_second { IsNoMore result second }
{
    match compare_wide(second.top, second.bottom, first.top, first.bottom) {
        Ordering::Less => second,
        _ => first,
    }
}
