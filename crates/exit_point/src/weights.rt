//! Weights of the images of lists.
ghost use Rattle.std.specs.Prelude.{◌≡◌, ◌≤◌, ◌<◌, pos, ◌+ℤ◌, length, slice_index_or, FitsSigned};
ghost use Rattle.std.specs.Int.{w64};
ghost use Rattle.arrayvec.specs.ArrayVec.{array_vec_len};
ghost use Rattle.wrench_geometry.specs.Wrenches.{image_at};
ghost use Rattle.exit_point.specs.Exits.{AreWeights, EachHasWeights, weighted, weighted_sum};
ghost use Rattle.exit_point.specs.Corners.{AreShares, IsCorner, shared, total_of, with_share};

use arrayvec::ArrayVec;
use plant_model::limits::{MOST_PIECE_POINTS, MOST_THRUSTERS};
use wrench_geometry::{Cut, Sums, Vec3, Vertex};

/// The weights of one list: one for each image, and the origin's.
pub const MOST_WEIGHTS: usize = MOST_PIECE_POINTS + 1;

/// The greatest sum of the weights of a list.
pub const MOST_WEIGHT: i64 = 1_000_000_000_000_000_000;

/// Where the ray of a demand leaves the sums of lists: at `t / q` of the demand.
#[derive(Debug, Drop)]
pub struct ExitWeights {
    /// No sum of the lists lies further along the demand, by this cut.
    pub cut: Cut,
    /// What the weights of each list sum to: 1 to [`MOST_WEIGHT`].
    pub q: i64,
    /// The weighted images of all lists sum to `t` times the demand.
    pub t: i64,
    /// The weights of each list's images, none below 0, the origin's last.
    pub weights: ArrayVec<ArrayVec<i64, MOST_WEIGHTS>, MOST_THRUSTERS>,
}

/// How much of a weight each of three corners has.
#[derive(Clone, Copy)]
pub struct Shares {
    pub first: i64,
    pub second: i64,
    pub third: i64,
}

/// The places of the images that three corners have of one list.
#[derive(Clone, Copy)]
pub struct Places {
    pub first: usize,
    pub second: usize,
    pub third: usize,
}

/// What the shares sum to.
pub fn total(shares: Shares) -> i64
    requires { AreShares shares }
    ensures { result ≡ total_of shares }
{
    shares.first + shares.second + shares.third
}

/// The weights of each list where three corners have their shares.
pub fn weights(
    sums: &Sums,
    first: &Vertex,
    second: &Vertex,
    third: &Vertex,
    shares: Shares,
) -> ArrayVec<ArrayVec<i64, MOST_WEIGHTS>, MOST_THRUSTERS>
    requires first { IsCorner sums.now first.now }
    requires second { IsCorner sums.now second.now }
    requires third { IsCorner sums.now third.now }
    requires shares { AreShares shares }
    ensures weights { EachHasWeights (total_of shares) sums.now result.items }
    ensures sum { weighted_sum result.items sums.now
        ≡ shared shares first.now.point second.now.point third.now.point }
{
    let mut rows = ArrayVec::new();
    for (i, images) in sums.lists().iter().enumerate() {
        let places = Places {
            first: first.places[i],
            second: second.places[i],
            third: third.places[i],
        };
        rows.push(list_weights(images.as_slice(), places, shares));
    }
    rows
}

/// The weights of one list where the images at three places have their shares.
fn list_weights(images: &[Vec3], places: Places, shares: Shares) -> ArrayVec<i64, MOST_WEIGHTS>
    requires images { length images.now ≤ MOST_PIECE_POINTS }
    requires first { places.first ≤ length images.now }
    requires second { places.second ≤ length images.now }
    requires third { places.third ≤ length images.now }
    requires shares { AreShares shares }
    ensures weights { AreWeights (total_of shares) images.now result.items }
    ensures sum { weighted result.items images.now
        ≡ shared shares (image_at images.now places.first) (image_at images.now places.second)
        (image_at images.now places.third) }
{
    let mut weights = ArrayVec::from([0; MOST_WEIGHTS]);
    weights.truncate(images.len() + 1);
    give(&mut weights, places.first, shares.first);
    give(&mut weights, places.second, shares.second);
    give(&mut weights, places.third, shares.third);
    weights
}

/// Adds to the weight at a place.
fn give(weights: &mut ArrayVec<i64, MOST_WEIGHTS>, place: usize, share: i64)
    requires place { place < array_vec_len weights.old }
    requires fits { FitsSigned w64 (slice_index_or weights.old.items place (pos 0) +ℤ share) }
    ensures { weights.new.items ≡ with_share weights.old.items place share }
{
    weights[place] += share;
}
