//! Demands that are met between the same three sums of lists. Neighbours on a path nearly always are,
//! and one product with each of three normals shows it.
ghost use Rattle.std.specs.Prelude.{◌↔◌, pos, ◌≤ℤ◌, IfSome, IsTrue, List};
ghost use Rattle.wrench_geometry.specs.Vectors.{IsVectorWithin, cross_of, det_of};
ghost use Rattle.wrench_geometry.specs.Wrenches.{IsDemandVector, IsSum};
ghost use Rattle.wrench_geometry.specs.declared.vector.TheConstants.{MOST_PLAIN};
ghost use Rattle.wrench_geometry.specs.declared.vector.Vec3.{Vec3};
ghost use Rattle.exit_point.specs.Corners.{AreCorners};
ghost use Rattle.exit_point.specs.Tents.{Covers, IsTent};

use crate::corners::{Corners, normal};
use crate::search::{Found, search};
use wrench_geometry::{Sums, Vec3, determinant, dot};

/// The vectors between the origin and three corners, which are sums of lists. Of each corner it has
/// the normal of the other two, with which the products of the other two are 0.
#[derive(Clone, Copy, Debug)]
pub struct Tent {
    pub first: Vec3,
    pub second: Vec3,
    pub third: Vec3,
    /// The determinant of the corners: the product of each normal with its own corner.
    pub height: i64,
}

impl Tent {
    /// Whether the vector lies in the tent: its product with each normal is the corner's share of
    /// it, and what is left of the height is the origin's. No share is below 0.
    pub fn covers(&self, d: Vec3) -> bool
        requires { IsVectorWithin MOST_PLAIN MOST_PLAIN d }
        ensures { IsTrue result ↔ Covers self.now d }
    {
        let height = i128::from(self.height);
        if height < 1 {
            return false;
        }
        let first = dot(self.first, d);
        if !is_share(first, height) {
            return false;
        }
        let left = height - first;
        let second = dot(self.second, d);
        if !is_share(second, left) {
            return false;
        }
        is_share(dot(self.third, d), left - second)
    }
}

/// Whether a share isn't below 0 and no more than the rest.
fn is_share(share: i128, rest: i128) -> bool
    ensures { IsTrue result ↔ ((pos 0 ≤ℤ share) × (share ≤ℤ rest)) }
{
    share >= 0 && share <= rest
}

/// The tent of the corners between which the ray of the demand leaves the sums of the lists.
/// Whatever it covers is a mean of the lists' images and the origin. The demand is within its
/// limits. None is no answer: the search gave up, or the ray leaves the sums at the origin.
pub fn tent_about(sums: &Sums, d: Vec3) -> Option<Tent>
    requires { IsDemandVector d }
    ensures { IfSome result (IsTent sums.now) }
{
    match search(sums, d)? {
        Found::Wall(_) => None,
        Found::Face(_, corners) => Some(tent_of(&corners)),
    }
}

/// The tent of three corners.
fn tent_of(corners: &Corners) -> Tent
    requires first { IsSum corners.now.first.point }
    requires second { IsSum corners.now.second.point }
    requires third { IsSum corners.now.third.point }
    ensures { (lists : List (List Vec3)) → AreCorners lists corners.now → IsTent lists result }
{
    let (a, b, c) = (
        corners.first.point,
        corners.second.point,
        corners.third.point,
    );
    Tent {
        first: normal(b, c),
        second: normal(c, a),
        third: normal(a, b),
        height: determinant(a, b, c),
    }
}
