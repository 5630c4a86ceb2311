//! Where the ray of a demand leaves the sums of lists, found by a least cut and by a least cut of
//! its face. There is always an answer.
ghost use Rattle.std.specs.Prelude.{◌≡◌, ◌≢◌, pos, ◌≤ℤ◌};
ghost use Rattle.wrench_geometry.specs.Cuts.{IsLeastCut};
ghost use Rattle.wrench_geometry.specs.Vectors.{scaled_by, zero_vector};
ghost use Rattle.wrench_geometry.specs.Wrenches.{IsDemandVector};
ghost use Rattle.exit_point.specs.Corners.{AreCorners, IsBetween, IsBetweenTwo, IsCorner, IsShare};
ghost use Rattle.exit_point.specs.Exits.{EachHasWeights, IsExit, weighted_sum};
ghost use Rattle.exit_point.specs.Faces.{IsLeastAlong, along_only, faces_of, rest_of};
ghost use Rattle.exit_point.specs.Orders.{AreFarthest, IsTilt};

use crate::corners::Corners;
use crate::face_cuts::{Face, FaceCut, Rest, axis, least_beside, rest_past};
use crate::orders::{Order, farthest, origin};
use crate::weights::{ExitWeights, Shares, total, weights};
use separation::least_cut;
use wrench_geometry::{Cut, Sums, Vec3, Vertex, cross, determinant, opposite};

/// Weights that show where the ray of the demand leaves the sums of the lists, with a least cut.
/// The demand is within its limits, and not zero.
pub fn exit(sums: &Sums, d: Vec3) -> ExitWeights
    requires demand { IsDemandVector d }
    requires not_zero { d ≢ zero_vector }
    ensures { IsExit sums.now d result }
{
    let cut = least_cut(sums, d);
    if cut.top == 0 {
        return at_corner(sums, cut, &origin(sums), 1, 0);
    }
    let w = cut.w;
    let none = Vec3::default();
    let corner = farthest(
        sums,
        Order {
            w,
            u: none,
            t: none,
        },
    );
    let rest = rest_past(&cut, d, corner.point);
    if rest.x == 0 && rest.y == 0 && rest.z == 0 {
        return at_corner(sums, cut, &corner, cut.bottom, cut.top);
    }
    let face = Face { w, corner, rest };
    let beside = least_beside(sums, &face);
    on_edge(sums, d, cut, face.corner, beside)
}

/// The weights of a corner alone.
fn at_corner(sums: &Sums, cut: Cut, corner: &Vertex, q: i64, t: i64) -> ExitWeights
    requires corner { IsCorner sums.now corner.now }
    requires share { IsShare q }
    ensures cut { result.cut ≡ cut }
    ensures q { result.q ≡ q }
    ensures t { result.t ≡ t }
    ensures weights { EachHasWeights q sums.now result.weights.items }
    ensures sum { weighted_sum result.weights.items sums.now ≡ scaled_by q corner.now.point }
{
    let shares = Shares {
        first: q,
        second: 0,
        third: 0,
    };
    ExitWeights {
        cut,
        q,
        t,
        weights: weights(sums, corner, corner, corner, shares),
    }
}

/// The weights where the ray leaves the face of the cut at the edge that the cut of the face
/// touches: those of a corner of the face and of the edge's two ends.
fn on_edge(sums: &Sums, d: Vec3, cut: Cut, corner: Vertex, beside: FaceCut) -> ExitWeights
    requires demand { IsDemandVector d }
    requires cut { IsLeastCut sums.now d cut }
    requires top { pos 1 ≤ℤ cut.top }
    requires corner { IsCorner sums.now corner }
    requires farthest { AreFarthest (along_only cut.w) sums.now corner.places.items }
    requires tilt { IsTilt beside.u }
    requires least { IsLeastAlong (faces_of cut.w sums.now corner.places.items)
        (rest_of cut.top d cut.bottom corner.point) beside.u beside.top beside.bottom }
    ensures { IsExit sums.now d result }
{
    let (w, u) = (cut.w, beside.u);
    let behind = opposite(u);
    let second = farthest(sums, Order { w, u, t: behind });
    let third = farthest(sums, Order { w, u, t: u });
    if second.point == third.point {
        between_two(sums, d, cut, &corner, &second)
    } else {
        let corners = Corners {
            first: corner,
            second,
            third,
        };
        between_three(sums, d, cut, &corners)
    }
}

/// The weights where the ray leaves the sums between three corners, by Cramer's rule.
fn between_three(sums: &Sums, d: Vec3, cut: Cut, corners: &Corners) -> ExitWeights
    requires demand { IsDemandVector d }
    requires cut { IsLeastCut sums.now d cut }
    requires corners { AreCorners sums.now corners.now }
    requires between { IsBetween d cut.w corners.now.first.point corners.now.second.point
        corners.now.third.point cut.top }
    ensures { IsExit sums.now d result }
{
    let Corners {
        first,
        second,
        third,
    } = corners;
    let (a, b, c) = (first.point, second.point, third.point);
    let shares = Shares {
        first: determinant(d, b, c),
        second: determinant(d, c, a),
        third: determinant(d, a, b),
    };
    ExitWeights {
        cut,
        q: total(shares),
        t: determinant(a, b, c),
        weights: weights(sums, first, second, third, shares),
    }
}

/// The weights where the ray leaves the sums between two corners that are not on one line with the
/// origin, by Cramer's rule with an axis as the third vector.
fn between_two(sums: &Sums, d: Vec3, cut: Cut, first: &Vertex, second: &Vertex) -> ExitWeights
    requires demand { IsDemandVector d }
    requires cut { IsLeastCut sums.now d cut }
    requires first { IsCorner sums.now first.now }
    requires second { IsCorner sums.now second.now }
    requires between { IsBetweenTwo d cut.w first.now.point second.now.point cut.top }
    ensures { IsExit sums.now d result }
{
    let (a, b) = (first.point, second.point);
    let normal = cross(a, b);
    let axis = axis(Rest {
        x: normal.x as i128,
        y: normal.y as i128,
        z: normal.z as i128,
    });
    let shares = Shares {
        first: determinant(axis, d, b),
        second: determinant(axis, a, d),
        third: 0,
    };
    ExitWeights {
        cut,
        q: total(shares),
        t: determinant(axis, a, b),
        weights: weights(sums, first, second, second, shares),
    }
}
