//! Where the ray of a demand leaves the sums of lists, found by a search that may give up. What it
//! finds proves itself.
ghost use Rattle.std.specs.Prelude.{◌≡◌, ◌↔◌, pos, ◌≤ℤ◌, IfSome, IsTrue};
ghost use Rattle.wrench_geometry.specs.Cuts.{IsCut};
ghost use Rattle.wrench_geometry.specs.Vectors.{dot_of};
ghost use Rattle.wrench_geometry.specs.Vertices.{IsShort};
ghost use Rattle.wrench_geometry.specs.Wrenches.{IsDemandVector, IsSum};
ghost use Rattle.exit_point.specs.Exits.{IsExit};
ghost use Rattle.exit_point.specs.Corners.{AreCorners, AreShares, AreSharesOf, DividesEach};
ghost use Rattle.exit_point.specs.Corners.{IsMultiple, total_of};

use crate::corners::Corners;
use crate::search::{Found, search};
use crate::weights::{ExitWeights, Shares, total, weights};
use dp_num::gcd;
use wrench_geometry::{CUT_PARTS_BELOW, Cut, Sums, Vec3, determinant, farthest, product};

/// Weights that show where the ray of the demand leaves the sums of the lists, with a least cut.
/// The demand is within its limits. None is no answer: the search gave up, as it does where all
/// sums lie on one line.
pub fn exit(sums: &Sums, d: Vec3) -> Option<ExitWeights>
    requires { IsDemandVector d }
    ensures { IfSome result (IsExit sums.now d) }
{
    match search(sums, d)? {
        Found::Wall(w) => at_origin(sums, d, w),
        Found::Face(w, corners) => on_face(sums, d, w, &corners),
    }
}

/// The weights where the ray leaves the sums at the origin: all are the origin's.
fn at_origin(sums: &Sums, d: Vec3, w: Vec3) -> Option<ExitWeights>
    requires demand { IsDemandVector d }
    requires short { IsShort w }
    ensures { IfSome result (IsExit sums.now d) }
{
    let cut = cut_along(sums, d, w)?;
    let origin = farthest(sums, cut.w);
    let Vec3 { x, y, z } = origin.point;
    if cut.top != 0 || x != 0 || y != 0 || z != 0 {
        return None;
    }
    let shares = Shares {
        first: 1,
        second: 0,
        third: 0,
    };
    Some(ExitWeights {
        cut,
        q: 1,
        t: 0,
        weights: weights(sums, &origin, &origin, &origin, shares),
    })
}

/// The weights where the ray leaves the sums between three corners that the cut along `w` touches.
/// By Cramer's rule each corner's share is the determinant of the demand and the other two, and `t`
/// is that of the corners.
fn on_face(sums: &Sums, d: Vec3, w: Vec3, corners: &Corners) -> Option<ExitWeights>
    requires demand { IsDemandVector d }
    requires short { IsShort w }
    requires corners { AreCorners sums.now corners.now }
    ensures { IfSome result (IsExit sums.now d) }
{
    let cut = cut_along(sums, d, w)?;
    let Corners {
        first,
        second,
        third,
    } = corners;
    let (a, b, c) = (first.point, second.point, third.point);
    if !touches(&cut, a) || !touches(&cut, b) || !touches(&cut, c) {
        return None;
    }
    let shares = shares_of(d, a, b, c)?;
    Some(ExitWeights {
        cut,
        q: total(shares),
        t: determinant(a, b, c),
        weights: weights(sums, first, second, third, shares),
    })
}

/// Whether the cut's direction has its top with the point.
fn touches(cut: &Cut, point: Vec3) -> bool
    requires short { IsShort cut.now.w }
    requires point { IsSum point }
    ensures { IsTrue result ↔ (dot_of cut.now.w point ≡ cut.now.top) }
{
    product(cut.w, point) == cut.top
}

/// The shares of three points in the demand, where none is below 0 and some are above.
fn shares_of(d: Vec3, a: Vec3, b: Vec3, c: Vec3) -> Option<Shares>
    requires demand { IsDemandVector d }
    requires a { IsSum a }
    requires b { IsSum b }
    requires c { IsSum c }
    ensures within { IfSome result AreShares }
    ensures of_demand { IfSome result (AreSharesOf d a b c) }
    ensures some { IfSome result (λ shares. pos 1 ≤ℤ total_of shares) }
{
    let first = determinant(d, b, c);
    let second = determinant(d, c, a);
    let third = determinant(d, a, b);
    if first < 0 || second < 0 || third < 0 || first + second + third < 1 {
        return None;
    }
    Some(Shares {
        first,
        second,
        third,
    })
}

/// The cut along a direction, divided by the greatest whole number that divides it. None where the
/// demand isn't ahead, or where a part isn't below `CUT_PARTS_BELOW`.
fn cut_along(sums: &Sums, d: Vec3, w: Vec3) -> Option<Cut>
    requires demand { IsDemandVector d }
    requires short { IsShort w }
    ensures cut { IfSome result (IsCut sums.now d) }
    ensures short { IfSome result (λ cut. IsShort cut.w) }
{
    let w = shortest(w);
    let bottom = product(w, d);
    let top = product(w, farthest(sums, w).point);
    if bottom < 1 || bottom >= CUT_PARTS_BELOW || top >= CUT_PARTS_BELOW {
        return None;
    }
    Some(Cut { w, top, bottom })
}

/// The direction divided by the greatest common divisor of its components.
fn shortest(w: Vec3) -> Vec3
    requires { IsShort w }
    ensures short { IsShort result }
    ensures multiple { IsMultiple result w }
{
    let common = common_divisor(w);
    Vec3 {
        x: w.x.div_euclid(common),
        y: w.y.div_euclid(common),
        z: w.z.div_euclid(common),
    }
}

/// The greatest common divisor of the components, and 1 where all are 0.
fn common_divisor(w: Vec3) -> i64
    requires { IsShort w }
    ensures from_1 { pos 1 ≤ℤ result }
    ensures divides { DividesEach result w }
{
    let (x, y, z) = (w.x.abs(), w.y.abs(), w.z.abs());
    if x != 0 {
        gcd(gcd(x, y), z)
    } else if y != 0 {
        gcd(y, z)
    } else if z != 0 {
        z
    } else {
        1
    }
}
