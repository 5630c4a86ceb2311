//! Sums of lists, and demands.
ghost use Rattle.std.specs.Prelude.{pos, ◌≤ℤ◌, All};
ghost use Rattle.plant_model.specs.Numbers.{IsWithin};
ghost use Rattle.plant_model.specs.declared.limits.TheConstants.{FARTHEST_LEVER, MOST_THRUST};
ghost use Rattle.wrench_geometry.specs.Wrenches.{IsDemandVector, IsPointWithin};

use arrayvec::ArrayVec;
use plant_model::limits::{
    FARTHEST_LEVER, MOST_FORCE, MOST_MOMENT, MOST_PIECE_POINTS, MOST_THRUST, MOST_THRUSTERS,
};
use plant_model::thrust::Point;
use wrench_geometry::{Images, Sums, Vec3};

pub(crate) const TUNNEL: [(i32, i32); 2] = [(0, -200), (0, 200)];

/// The first piece of an azimuth.
pub(crate) const AZIMUTH: [(i32, i32); 3] = [(400, 0), (0, 400), (-400, 0)];

const LONG: [(i32, i32); 2] = [(0, 2_000), (0, -2_000)];

const WIDE: [(i32, i32); 3] = [(2_000, 0), (0, 2_000), (-2_000, 0)];

const WIDE_TO_PORT: [(i32, i32); 3] = [(-2_000, 0), (0, -2_000), (2_000, 0)];

/// The vector with these components, each brought within the limits of a demand.
pub(crate) fn at(x: i32, y: i32, z: i32) -> Vec3
    ensures { IsDemandVector result }
{
    Vec3 {
        x: within(x, MOST_FORCE),
        y: within(y, MOST_FORCE),
        z: within(z, MOST_MOMENT),
    }
}

/// The number, brought within so far of zero.
fn within(number: i32, most: i32) -> i64
    requires { pos 0 ≤ℤ most }
    ensures { IsWithin most result }
{
    i64::from(number.clamp(-most, most))
}

fn lever_at(place: (i32, i32)) -> Point
    ensures { IsPointWithin FARTHEST_LEVER result }
{
    Point {
        x: place.0.clamp(-FARTHEST_LEVER, FARTHEST_LEVER),
        y: place.1.clamp(-FARTHEST_LEVER, FARTHEST_LEVER),
    }
}

fn thrust_of(thrust: (i32, i32)) -> Point
    ensures { IsPointWithin MOST_THRUST result }
{
    Point {
        x: thrust.0.clamp(-MOST_THRUST, MOST_THRUST),
        y: thrust.1.clamp(-MOST_THRUST, MOST_THRUST),
    }
}

/// The thrusts, as many as a piece has room for.
fn points_of(thrusts: &[(i32, i32)]) -> ArrayVec<Point, MOST_PIECE_POINTS>
    ensures { All (IsPointWithin MOST_THRUST) result.items }
{
    let mut points = ArrayVec::new();
    for thrust in thrusts {
        if !points.is_full() {
            points.push(thrust_of(*thrust));
        }
    }
    points
}

/// Adds the list of a thruster's images, of as many as there is room for.
pub(crate) fn add(sums: &mut Sums, lever: (i32, i32), thrusts: &[(i32, i32)]) {
    if sums.lists().len() < MOST_THRUSTERS {
        sums.push(Images::at(lever_at(lever), &points_of(thrusts)));
    }
}

/// A tunnel at the lever.
pub(crate) fn one_tunnel() -> Sums {
    let mut sums = Sums::new();
    add(&mut sums, (360, 0), &TUNNEL);
    sums
}

/// The tunnels of the built-in plant.
pub(crate) fn two_tunnels() -> Sums {
    let mut sums = Sums::new();
    add(&mut sums, (400, 0), &TUNNEL);
    add(&mut sums, (360, 0), &TUNNEL);
    sums
}

/// BOW2 and STBD of the built-in plant, with the points of STBD's first piece.
pub(crate) fn after_a_loss() -> Sums {
    let mut sums = Sums::new();
    add(&mut sums, (400, 0), &[]);
    add(&mut sums, (360, 0), &TUNNEL);
    add(&mut sums, (-400, -100), &[]);
    add(&mut sums, (-400, 100), &AZIMUTH);
    sums
}

/// The built-in plant, with the points of PORT's and STBD's first pieces.
pub(crate) fn whole() -> Sums {
    let mut sums = two_tunnels();
    add(&mut sums, (-400, -100), &AZIMUTH);
    add(&mut sums, (-400, 100), &AZIMUTH);
    sums
}

/// A piece of a ring of the square: its first where the choice is even, else its second.
fn wide(choice: u32) -> [(i32, i32); 3] {
    if choice % 2 == 0 { WIDE } else { WIDE_TO_PORT }
}

/// Three thrusters at each corner of a square: two that turn and a tunnel at its starboard corners,
/// one that turns and two tunnels at the others. Each bit of the choice is that of one that turns.
pub(crate) fn square(choice: u32) -> Sums {
    let mut sums = Sums::new();
    let mut rest = choice;
    for ahead in [1_600, -1_600] {
        add(&mut sums, (ahead, 1_600), &wide(rest));
        add(&mut sums, (ahead, 1_600), &wide(rest / 2));
        add(&mut sums, (ahead, 1_600), &LONG);
        add(&mut sums, (ahead, -1_600), &wide(rest / 4));
        add(&mut sums, (ahead, -1_600), &LONG);
        add(&mut sums, (ahead, -1_600), &LONG);
        rest /= 8;
    }
    sums
}
