//! The sums that are timed.
ghost use Rattle.std.specs.Prelude.{All};
ghost use Rattle.plant_model.specs.declared.limits.TheConstants.{FARTHEST_LEVER, MOST_THRUST};
ghost use Rattle.wrench_geometry.specs.Wrenches.{IsPointWithin};

use arrayvec::ArrayVec;
use plant_model::limits::{FARTHEST_LEVER, MOST_PIECE_POINTS, MOST_THRUST, MOST_THRUSTERS};
use plant_model::thrust::Point;
use wrench_geometry::{Images, Sums};

/// Points as pairs of x and y.
type Pair = (i32, i32);

const TUNNEL: [Pair; 2] = [(0, -200), (0, 200)];

const AZIMUTH: [Pair; 3] = [(400, 0), (0, 400), (-400, 0)];

const LONG_TUNNEL: [Pair; 2] = [(0, -2_000), (0, 2_000)];

const HALF_RING: [Pair; 3] = [(2_000, 0), (0, 2_000), (-2_000, 0)];

const EIGHT_POINTS: [Pair; 8] = [
    (2_000, 0),
    (1_800, 800),
    (1_400, 1_400),
    (800, 1_800),
    (0, 2_000),
    (-800, 1_800),
    (-1_400, 1_400),
    (-2_000, 0),
];

const CORNERS: [Pair; 4] = [
    (1_600, 1_600),
    (1_600, -1_600),
    (-1_600, 1_600),
    (-1_600, -1_600),
];

/// The pair, brought to at most so far from 0 along both axes.
fn lever_at(pair: Pair) -> Point
    ensures { IsPointWithin FARTHEST_LEVER result }
{
    Point {
        x: pair.0.clamp(-FARTHEST_LEVER, FARTHEST_LEVER),
        y: pair.1.clamp(-FARTHEST_LEVER, FARTHEST_LEVER),
    }
}

/// The same of a thrust.
fn thrust_of(pair: Pair) -> Point
    ensures { IsPointWithin MOST_THRUST result }
{
    Point {
        x: pair.0.clamp(-MOST_THRUST, MOST_THRUST),
        y: pair.1.clamp(-MOST_THRUST, MOST_THRUST),
    }
}

/// The thrusts, as many as a piece has room for.
fn points_of(thrusts: &[Pair]) -> ArrayVec<Point, MOST_PIECE_POINTS>
    ensures { All (IsPointWithin MOST_THRUST) result.items }
{
    let mut points = ArrayVec::new();
    for thrust in thrusts {
        if !points.is_full() {
            points.push(thrust_of(*thrust));
        }
    }
    points
}

/// Adds the images of a thruster's thrusts, as many as there is room for.
fn add(sums: &mut Sums, lever: Pair, thrusts: &[Pair]) {
    if sums.lists().len() < MOST_THRUSTERS {
        sums.push(Images::at(lever_at(lever), &points_of(thrusts)));
    }
}

/// The first choice of the built-in plant.
pub fn demo() -> Sums {
    let mut sums = Sums::new();
    add(&mut sums, (400, 0), &TUNNEL);
    add(&mut sums, (360, 0), &TUNNEL);
    add(&mut sums, (-400, -100), &AZIMUTH);
    add(&mut sums, (-400, 100), &AZIMUTH);
    sums
}

/// Three thrusters at each corner of a square, half of them tunnels.
pub fn corners() -> Sums {
    let mut sums = Sums::new();
    for corner in CORNERS {
        add(&mut sums, corner, &HALF_RING);
        add(&mut sums, corner, &LONG_TUNNEL);
    }
    add(&mut sums, (1_600, 1_600), &HALF_RING);
    add(&mut sums, (1_600, -1_600), &HALF_RING);
    add(&mut sums, (-1_600, 1_600), &LONG_TUNNEL);
    add(&mut sums, (-1_600, -1_600), &LONG_TUNNEL);
    sums
}

/// As many lists as there may be, each of as many points as it may have.
pub fn greatest() -> Sums {
    let mut sums = Sums::new();
    for ahead in [1_600, 0, -1_600] {
        for corner in CORNERS {
            add(
                &mut sums,
                (corner.0 / 2 + ahead / 2, corner.1),
                &EIGHT_POINTS,
            );
        }
    }
    sums
}
