//! Rings cut into pieces.
ghost use Rattle.std.specs.Prelude.{◌≡◌, ◌+◌, ◌<◌, ◌≤◌, ◌++◌, [], ◌∷◌, pos, int_le, map, length};
ghost use Rattle.std.specs.Prelude.{◌==◌, ◌≢◌, IsTrue};
ghost use Rattle.std.specs.List.{list_any};
ghost use Rattle.plant_model.specs.Rings.{cross, cut, first_wedge, is_ring, are_sectors, point_at};
ghost use Rattle.plant_model.specs.Rings.{run_from, wedges};
ghost use Rattle.thrust_region.specs.Pieces.{all_points};
ghost use Rattle.plant_model.specs.declared.limits.TheConstants.{MOST_PIECES};

use crate::piece::piece_of;
use arrayvec::ArrayVec;
use plant_model::limits::{FEWEST_RING_POINTS, MOST_RING_POINTS};
use plant_model::thrust::{Piece, Pieces, Point, Ring, Sector};

/// The points of the longest run: all of a ring, and its first one again.
const MOST_RUN_POINTS: usize = MOST_RING_POINTS + 1;

type Run = ArrayVec<Point, MOST_RUN_POINTS>;

/// Whether some sector begins at the place.
fn begins(sectors: &[Sector], place: usize) -> bool
    ensures { result ≡ list_any (λ s. s.from == place) sectors.now }
{
    sectors.iter().any(|sector| sector.from as usize == place)
}

/// Whether some sector ends at the place.
fn ends(sectors: &[Sector], place: usize) -> bool
    ensures { result ≡ list_any (λ s. s.to == place) sectors.now }
{
    sectors.iter().any(|sector| sector.to as usize == place)
}

/// The plane's cross product: above 0 where the shorter turn from `a` to `b` is from x to y.
fn cross(a: Point, b: Point) -> i64
    ensures { result ≡ cross a b }
{
    a.x as i64 * b.y as i64 - a.y as i64 * b.x as i64
}

/// Whether the turn from `a` to `b` is at most half a turn, by the way from x to y.
fn is_half_turn(a: Point, b: Point) -> bool
    ensures { result ≡ int_le (pos 0) (cross a b) }
{
    cross(a, b) >= 0
}

/// The wedge that is the longest front of the run.
fn first_wedge(run: &[Point]) -> Piece
    requires { 0 < length run.now }
    ensures { result.points.items ≡ first_wedge run.now }
{
    let mut wedge = Piece::default();
    let first = run[0];
    for point in run {
        if wedge.points.is_full() || !is_half_turn(first, *point) {
            break;
        }
        wedge.points.push(*point);
    }
    wedge
}

/// Adds the wedges of the run, of which each begins where the one before ends.
fn cut_run(run: &[Point], pieces: &mut Pieces)
    requires points { 0 < length run.now }
    requires room { length pieces.old.list.items + length (wedges (length run.now) run.now)
        ≤ MOST_PIECES }
    ensures { all_points pieces.new ≡ all_points pieces.old ++ wedges (length run.now) run.now }
{
    let mut rest = run;
    for _ in 0..run.len() {
        let wedge = first_wedge(rest);
        let taken = wedge.points.len();
        pieces.list.push(wedge);
        if taken >= rest.len() {
            break;
        }
        rest = &rest[taken - 1..];
    }
}

/// The run from a place on, round the ring to the next place at which a sector begins.
fn run_from(ring: &[Point], sectors: &[Sector], start: usize) -> Run
    requires place { start < length ring.now }
    requires fits { length ring.now ≤ MOST_RING_POINTS }
    ensures { result.items
        ≡ map (point_at ring.now) (run_from (length ring.now) sectors.now start) }
{
    let mut run = Run::new();
    let mut place = start;
    for _ in 0..ring.len() {
        run.push(ring[place]);
        if begins(sectors, place) {
            break;
        }
        place = (place + 1) % ring.len();
    }
    run
}

/// The run round a ring without sectors, which ends where it begins.
fn whole_run(ring: &[Point]) -> Run
    requires some { 0 < length ring.now }
    requires fits { length ring.now ≤ MOST_RING_POINTS }
    ensures { result.items ≡ ring.now ++ point_at ring.now 0 ∷ [] }
{
    let mut run = Run::new();
    run.try_extend_from_slice(ring).unwrap();
    run.push(ring[0]);
    run
}

/// Adds the pieces of a ring that hasn't two points: the wedges of its runs.
fn cut_round(ring: &[Point], sectors: &[Sector], pieces: &mut Pieces)
    requires empty { pieces.old.list.items ≡ [] }
    requires ring { IsTrue (is_ring ring.now) }
    requires sectors { IsTrue (are_sectors (length ring.now) sectors.now) }
    requires longer { length ring.now ≢ FEWEST_RING_POINTS }
    ensures { all_points pieces.new ≡ cut ring.now sectors.now }
{
    if sectors.is_empty() {
        cut_run(&whole_run(ring), pieces);
        return;
    }
    for place in 0..ring.len() {
        if ends(sectors, place) {
            cut_run(&run_from(ring, sectors, place), pieces);
        }
    }
}

/// The pieces into which the sectors cut the ring, whose points stand in the order of the turn from x to y. A ring
/// of two points has no sectors and is one piece. Without sectors a run goes round the whole ring; else runs go from
/// the end of a sector to the next place at which one begins. A piece is a wedge of a run: at most half a turn, and
/// no more points than a piece has. There are at most [`MOST_PIECES`].
pub fn cut_ring(ring: &Ring, sectors: &[Sector]) -> Pieces
    requires ring { IsTrue (is_ring ring.now.points.items) }
    requires sectors { IsTrue (are_sectors (length ring.now.points.items) sectors.now) }
    ensures { all_points result ≡ cut ring.now.points.items sectors.now }
{
    let points = ring.points.as_slice();
    let mut pieces = Pieces::default();
    if points.len() == FEWEST_RING_POINTS {
        pieces.list.push(piece_of(points));
    } else {
        cut_round(points, sectors, &mut pieces);
    }
    pieces
}
