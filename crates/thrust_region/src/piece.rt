//! Pieces of given points.
ghost use Rattle.std.specs.Prelude.{◌≡◌, ◌≤◌, length};
ghost use Rattle.plant_model.specs.declared.limits.TheConstants.{MOST_PIECE_POINTS};

use arrayvec::ArrayVec;
use plant_model::limits::MOST_PIECE_POINTS;
use plant_model::thrust::{Piece, Point};

/// The piece of these points.
pub fn piece_of(points: &[Point]) -> Piece
    requires { length points.now ≤ MOST_PIECE_POINTS }
    ensures { result.points.items ≡ points.now }
{
    let mut piece = Piece::default();
    piece.points.try_extend_from_slice(points).unwrap();
    piece
}
