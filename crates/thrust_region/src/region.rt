//! What one thruster can give, as its pieces at full thrust lend it.
ghost use Rattle.std.specs.Prelude.{◌≡◌, ◌<◌, ◌≤◌, [], ◌∷◌, ◌==◌, length, map, slice_index_or};
ghost use Rattle.std.specs.Prelude.{IfNone, IfSome, IsTrue};
ghost use Rattle.std.specs.Int.{bit_at};
ghost use Rattle.std.specs.List.{list_all};
ghost use Rattle.plant_model.specs.Rings.{is_ring_point};
ghost use Rattle.plant_model.specs.declared.limits.TheConstants.{MOST_PIECES, QUARTERS};
ghost use Rattle.thrust_region.specs.Left.{free, left_of};
ghost use Rattle.thrust_region.specs.Pieces.{all_points, are_thrusts, is_thrust, points_of};
ghost use Rattle.thrust_region.specs.Scaling.{are_whole_points};

use crate::scaling::scaled_piece;
use plant_model::thrust::{Piece, Pieces};
use std::marker::Model;

/// Pieces at so many quarters of their thrust without those that a mask bars, where bit `k` stands for piece `k`. They
/// are lent, and scaled one by one as they are asked for. Contracts see the pieces.
#[derive(Debug, Drop)]
pub struct Region<'a> {
    pieces: &'a [Piece],
    quarter: u32,
    barred: u16,
}

impl<'a> Model for Region<'a> {
    ghost use Rattle.plant_model.specs.declared.thrust.Pieces.{Pieces};
    ghost use Rattle.thrust_region.specs.Left.{IsRegion, region_view};

    ghost Value = { Pieces };

    ghost view = { region_view };

    ghost invariant = { IsRegion };
}

/// The origin alone: one piece without points.
impl<'a> Default for Region<'a> {
    ghost use Rattle.std.specs.Prelude.{◌≡◌, [], ◌∷◌};
    ghost use Rattle.thrust_region.specs.Left.{pieces_with};

    ghost is_default = { λ region. region ≡ pieces_with ([] ∷ []) };

    fn default() -> Self {
        Region {
            pieces: Default::default(),
            quarter: 0,
            barred: 0,
        }
    }
}

impl<'a> Region<'a> {
    /// The pieces at so many quarters of their thrust, 0 to [`plant_model::limits::QUARTERS`], without the barred ones.
    /// Where the quarter is 0 or all pieces are barred it is the origin alone. The coordinates are within the greatest
    /// thrust and multiples of four.
    pub fn of(pieces: &'a Pieces, quarter: u32, barred: u16) -> Region<'a>
        requires points { IsTrue (are_whole_points (all_points pieces.now)) }
        requires quarter { quarter ≤ QUARTERS }
        ensures left { all_points result ≡ left_of quarter barred (all_points pieces.now) }
        ensures within { IsTrue (are_thrusts (all_points result)) }
    {
        if quarter == 0 {
            return Region::default();
        }
        Region {
            pieces: pieces.list.as_slice(),
            quarter,
            barred,
        }
    }

    /// How many pieces there are: 1 to [`plant_model::limits::MOST_PIECES`].
    pub fn len(&self) -> usize
        ensures count { result ≡ length (all_points self.now) }
        ensures some { 1 ≤ result }
        ensures few { result ≤ MOST_PIECES }
    {
        count_free(self.pieces, self.barred).max(1)
    }

    /// The piece at a place. Past the last one it has no points.
    pub fn piece(&self, place: usize) -> Piece
        ensures points { points_of result ≡ slice_index_or (all_points self.now) place [] }
        ensures within { IsTrue (list_all is_thrust (points_of result)) }
    {
        match free_piece(self.pieces, self.barred, place) {
            Some(piece) => scaled_piece(piece, self.quarter),
            None => Piece::default(),
        }
    }
}

/// Whether the mask doesn't bar the piece at a place.
fn is_free(barred: u16, place: usize) -> bool
    requires { place < MOST_PIECES }
    ensures { result ≡ (bit_at barred place == 0) }
{
    barred >> place & 1 == 0
}

/// How many pieces the mask doesn't bar.
fn count_free(pieces: &[Piece], barred: u16) -> usize
    requires { length pieces.now ≤ MOST_PIECES }
    ensures count { result ≡ length (free barred (map points_of pieces.now)) }
    ensures few { result ≤ MOST_PIECES }
{
    let mut count = 0;
    for place in 0..pieces.len() {
        if is_free(barred, place) {
            count += 1;
        }
    }
    count
}

/// The piece at a place among those that the mask doesn't bar. None past the last one.
fn free_piece<'a>(pieces: &'a [Piece], barred: u16, place: usize) -> Option<&'a Piece>
    requires few { length pieces.now ≤ MOST_PIECES }
    requires whole { IsTrue (are_whole_points (map points_of pieces.now)) }
    ensures some { IfSome result (λ piece. points_of piece.now
        ≡ slice_index_or (free barred (map points_of pieces.now)) place []) }
    ensures whole { IfSome result (λ piece. IsTrue (list_all is_ring_point (points_of piece.now))) }
    ensures none { IfNone result
        ([] ≡ slice_index_or (free barred (map points_of pieces.now)) place []) }
{
    let mut left = place;
    for (k, piece) in pieces.iter().enumerate() {
        if is_free(barred, k) {
            if left == 0 {
                return Some(piece);
            }
            left -= 1;
        }
    }
    None
}
