//! Whether points are a ring, and sectors those of a ring.
ghost use Rattle.std.specs.Prelude.{◌≡◌, ◌<◌, ◌≤◌, ◌==◌, ◌||◌, ◌*ℤ◌, ◌-ℤ◌, pos, int_lt, nat_le};
ghost use Rattle.std.specs.Prelude.{length};
ghost use Rattle.std.specs.List.{list_all, count_by};
ghost use Rattle.plant_model.specs.Rings.{are_sectors, cross, dot, is_border, is_covered_by};
ghost use Rattle.plant_model.specs.Rings.{is_line, is_ring, is_ring_point, is_round, is_sector};
ghost use Rattle.plant_model.specs.Rings.{is_zero, places, point_at, same_point, side};

use plant_model::limits::{
    FEWEST_RING_POINTS, MOST_RING_POINTS, MOST_SECTORS, MOST_THRUST, QUARTERS,
};
use plant_model::thrust::{Point, Sector};

/// The fewest points of a ring that goes round the origin.
const FEWEST_ROUND_POINTS: usize = 3;

const ORIGIN: Point = Point { x: 0, y: 0 };

/// The plane's cross product: above 0 where the shorter turn from `a` to `b` is from x to y.
fn cross(a: Point, b: Point) -> i64
    ensures { result ≡ cross a b }
{
    i64::from(a.x) * i64::from(b.y) - i64::from(a.y) * i64::from(b.x)
}

fn dot(a: Point, b: Point) -> i128
    ensures { result ≡ dot a b }
{
    i128::from(a.x) * i128::from(b.x) + i128::from(a.y) * i128::from(b.y)
}

/// The way from one coordinate to another.
fn along(from: i32, to: i32) -> i64
    ensures { result ≡ to -ℤ from }
{
    i64::from(to) - i64::from(from)
}

/// The cross product of two ways, each by its two coordinates.
fn turn(ax: i64, ay: i64, bx: i64, by: i64) -> i128
    ensures { result ≡ ax *ℤ by -ℤ ay *ℤ bx }
{
    i128::from(ax) * i128::from(by) - i128::from(ay) * i128::from(bx)
}

/// How far `p` stands to the left of the line from `a` to `b`, by a positive factor. Below 0 to the
/// right.
fn side(a: Point, b: Point, p: Point) -> i128
    ensures { result ≡ side a b p }
{
    turn(
        along(a.x, b.x),
        along(a.y, b.y),
        along(a.x, p.x),
        along(a.y, p.y),
    )
}

/// The point at a place of a ring. The origin where there is none.
fn point_at(ring: &[Point], place: usize) -> Point
    ensures { result ≡ point_at ring.now place }
{
    match ring.get(place) {
        Some(point) => *point,
        None => ORIGIN,
    }
}

fn is_same(a: Point, b: Point) -> bool
    ensures { result ≡ same_point a b }
{
    a.x == b.x && a.y == b.y
}

/// Whether the two points are on one line with the origin.
fn are_in_line(a: Point, b: Point) -> bool
    ensures { result ≡ is_zero (cross a b) }
{
    cross(a, b) == 0
}

/// Whether the ring is two different points on one line with the origin, and not on the same side
/// of it.
fn is_line(ring: &[Point]) -> bool
    ensures { result ≡ is_line ring.now }
{
    let a = point_at(ring, 0);
    let b = point_at(ring, 1);
    ring.len() == FEWEST_RING_POINTS && !is_same(a, b) && are_in_line(a, b) && dot(a, b) <= 0
}

/// Whether the point at a place is one of an edge's ends, or strictly to the left of the edge.
fn is_inside(ring: &[Point], edge: usize, after: usize, place: usize) -> bool
    ensures { result ≡ (place == edge || place == after
        || int_lt (pos 0)
        (side (point_at ring.now edge) (point_at ring.now after) (point_at ring.now place))) }
{
    place == edge
        || place == after
        || side(
            point_at(ring, edge),
            point_at(ring, after),
            point_at(ring, place),
        ) > 0
}

/// Whether the origin and each other point of the ring are strictly to the left of an edge.
fn is_border(ring: &[Point], edge: usize) -> bool
    requires { edge < length ring.now }
    ensures { result ≡ is_border ring.now edge }
{
    let after = (edge + 1) % ring.len();
    if side(point_at(ring, edge), point_at(ring, after), ORIGIN) <= 0 {
        return false;
    }
    for place in 0..ring.len() {
        if !is_inside(ring, edge, after, place) {
            return false;
        }
    }
    true
}

/// Whether the ring has at least three points, and each edge is a border.
fn is_round(ring: &[Point]) -> bool
    ensures { result ≡ is_round ring.now }
{
    if ring.len() < FEWEST_ROUND_POINTS {
        return false;
    }
    for edge in 0..ring.len() {
        if !is_border(ring, edge) {
            return false;
        }
    }
    true
}

/// Whether a ring may have the point: it is within the greatest thrust, and each quarter of it is
/// whole.
fn is_ring_point(point: Point) -> bool
    ensures { result ≡ is_ring_point point }
{
    point.x.unsigned_abs() <= MOST_THRUST.unsigned_abs()
        && point.y.unsigned_abs() <= MOST_THRUST.unsigned_abs()
        && point.x.unsigned_abs() % QUARTERS == 0
        && point.y.unsigned_abs() % QUARTERS == 0
}

fn are_ring_points(points: &[Point]) -> bool
    ensures { result ≡ list_all is_ring_point points.now }
{
    points.iter().all(|point| is_ring_point(*point))
}

/// Whether the points are a ring that is convex round the origin.
pub fn is_ring(ring: &[Point]) -> bool
    ensures { result ≡ is_ring ring.now }
{
    ring.len() <= MOST_RING_POINTS && are_ring_points(ring) && (is_line(ring) || is_round(ring))
}

/// Whether the sector covers an edge of a ring of so many points.
fn is_covered_by(points: usize, edge: usize, sector: Sector) -> bool
    requires edge { edge < points }
    requires few { points ≤ MOST_RING_POINTS }
    ensures { result ≡ is_covered_by points edge sector }
{
    let from = sector.from as usize;
    let to = sector.to as usize;
    (edge + points).saturating_sub(from) % points < (to + points).saturating_sub(from) % points
}

fn is_sector(points: usize, sector: Sector) -> bool
    ensures { result ≡ is_sector points sector }
{
    (sector.from as usize) < points && (sector.to as usize) < points && sector.from != sector.to
}

/// Whether each of the sectors leads from one place of a ring of so many points to another.
fn are_on_ring(points: usize, sectors: &[Sector]) -> bool
    ensures { result ≡ list_all (is_sector points) sectors.now }
{
    sectors.iter().all(|sector| is_sector(points, *sector))
}

/// How many of the sectors cover an edge.
fn covers(points: usize, edge: usize, sectors: &[Sector]) -> usize
    requires edge { edge < points }
    requires few { points ≤ MOST_RING_POINTS }
    ensures { result ≡ count_by (is_covered_by points edge) sectors.now }
{
    let mut covers = 0;
    for sector in sectors {
        if is_covered_by(points, edge, *sector) {
            covers += 1;
        }
    }
    covers
}

/// Whether no edge of a ring of so many points is covered twice.
fn are_apart(points: usize, sectors: &[Sector]) -> bool
    requires few { points ≤ MOST_RING_POINTS }
    ensures { result
        ≡ list_all
        (λ edge. nat_le (count_by (is_covered_by points edge) sectors.now) 1)
        (places points) }
{
    for edge in 0..points {
        if covers(points, edge, sectors) > 1 {
            return false;
        }
    }
    true
}

/// Whether a ring of so many points may have the sectors.
pub fn are_sectors(points: usize, sectors: &[Sector]) -> bool
    requires few { points ≤ MOST_RING_POINTS }
    ensures { result ≡ are_sectors points sectors.now }
{
    sectors.len() <= MOST_SECTORS
        && (points > FEWEST_RING_POINTS || sectors.is_empty())
        && are_on_ring(points, sectors)
        && are_apart(points, sectors)
}
