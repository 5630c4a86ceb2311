//! Rings cut into pieces, pieces at a part of their power, and choices of pieces.
ghost use Rattle.std.specs.Prelude.{◌≡◌, ◌≤◌, [], ◌∷◌, length};
ghost use Rattle.plant_model.specs.declared.limits.TheConstants.{MOST_PIECE_POINTS, MOST_RING_POINTS};
ghost use Rattle.thrust_region.specs.Pieces.{all_points};

use arrayvec::ArrayVec;
use plant_model::limits::{MOST_PIECE_POINTS, MOST_RING_POINTS, QUARTERS};
use plant_model::thrust::{Piece, Pieces, Point, Ring, Sector};
use std::alloc::{AllocError, Global};
use std::test::Fail;
use thrust_region::{Region, Regions, choice, choices, cut_ring, scaled};

const AHEAD: Point = Point { x: 400, y: 0 };

const STARBOARD: Point = Point { x: 0, y: 400 };

const ASTERN: Point = Point { x: -400, y: 0 };

const PORT: Point = Point { x: 0, y: -400 };

fn ring_of(points: &[Point]) -> Ring
    requires { length points.now ≤ MOST_RING_POINTS }
    ensures { result.points.items ≡ points.now }
{
    let mut ring = Ring::default();
    ring.points.try_extend_from_slice(points).unwrap();
    ring
}

fn piece_of(points: &[Point]) -> Piece
    requires { length points.now ≤ MOST_PIECE_POINTS }
    ensures { result.points.items ≡ points.now }
{
    let mut piece = Piece::default();
    piece.points.try_extend_from_slice(points).unwrap();
    piece
}

/// The points of pieces: each with a blank after it, and `;` after each piece.
fn text_of(alloc: Global, pieces: &[Piece]) -> Result<String, AllocError> {
    let mut text = String::new(alloc);
    for piece in pieces {
        for point in piece.points.as_slice() {
            write!(&mut text, "{},{} ", point.x, point.y)?;
        }
        text.push(';')?;
    }
    Ok(text)
}

#[test]
fn leaves_a_sector_out(rt: HostRuntime) -> Result<(), Fail> {
    let ring = ring_of(&[AHEAD, STARBOARD, ASTERN, PORT]);
    let pieces = cut_ring(&ring, &[Sector { from: 0, to: 1 }]);
    let text = text_of(rt.alloc(), pieces.list.as_slice())?;
    assert_eq!(rt; text.as_str(), "0,400 -400,0 0,-400 ;0,-400 400,0 ;");
    Ok(())
}

#[test]
fn cuts_a_whole_ring_at_half_a_turn(rt: HostRuntime) -> Result<(), Fail> {
    let pieces = cut_ring(&ring_of(&[AHEAD, STARBOARD, ASTERN, PORT]), &[]);
    let text = text_of(rt.alloc(), pieces.list.as_slice())?;
    assert_eq!(rt; text.as_str(), "400,0 0,400 -400,0 ;-400,0 0,-400 400,0 ;");
    Ok(())
}

#[test]
fn keeps_a_line(rt: HostRuntime) -> Result<(), Fail> {
    let pieces = cut_ring(&ring_of(&[PORT, STARBOARD]), &[]);
    let text = text_of(rt.alloc(), pieces.list.as_slice())?;
    assert_eq!(rt; text.as_str(), "0,-400 0,400 ;");
    Ok(())
}

/// A main propeller with a rudder, which gives thrust ahead to both sides, and astern along one line alone.
#[test]
fn keeps_a_single_place(rt: HostRuntime) -> Result<(), Fail> {
    let port = Point { x: 1_000, y: -300 };
    let starboard = Point { x: 1_000, y: 300 };
    let sectors = [Sector { from: 1, to: 2 }, Sector { from: 2, to: 0 }];
    let pieces = cut_ring(&ring_of(&[port, starboard, ASTERN]), &sectors);
    let text = text_of(rt.alloc(), pieces.list.as_slice())?;
    assert_eq!(rt; text.as_str(), "1000,-300 1000,300 ;-400,0 ;");
    Ok(())
}

#[test]
fn halves_a_tunnel(rt: HostRuntime) -> Result<(), Fail> {
    let mut pieces = Pieces::default();
    pieces.list.push(piece_of(&[PORT, STARBOARD]));
    let half = scaled(&pieces, 2);
    let text = text_of(rt.alloc(), half.list.as_slice())?;
    assert_eq!(rt; text.as_str(), "0,-200 0,200 ;");
    let nothing = scaled(&pieces, 0);
    let text = text_of(rt.alloc(), nothing.list.as_slice())?;
    assert_eq!(rt; text.as_str(), "0,0 0,0 ;");
    Ok(())
}

fn two_pieces(first: Point, second: Point) -> Pieces
    ensures { all_points result ≡ (first ∷ []) ∷ (second ∷ []) ∷ [] }
{
    let mut pieces = Pieces::default();
    pieces.list.push(piece_of(&[first]));
    pieces.list.push(piece_of(&[second]));
    pieces
}

#[test]
fn numbers_choices_with_the_last_thruster_fastest(rt: HostRuntime) -> Result<(), Fail> {
    let (along, across) = (two_pieces(AHEAD, ASTERN), two_pieces(PORT, STARBOARD));
    let mut list = ArrayVec::new();
    list.push(Region::of(&along, QUARTERS, 0));
    list.push(Region::of(&across, QUARTERS, 0));
    let regions = Regions {
        list,
        fixed: ArrayVec::new(),
    };
    assert_eq!(rt; choices(&regions), 4);
    let second = choice(&regions, 1);
    let text = text_of(rt.alloc(), second.pieces.as_slice())?;
    assert_eq!(rt; text.as_str(), "400,0 ;0,400 ;");
    let third = choice(&regions, 2);
    let text = text_of(rt.alloc(), third.pieces.as_slice())?;
    assert_eq!(rt; text.as_str(), "-400,0 ;0,-400 ;");
    Ok(())
}
