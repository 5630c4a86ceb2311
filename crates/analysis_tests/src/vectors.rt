//! Vectors, images of thrusts, and how far sums reach.
ghost use Rattle.std.specs.Prelude.{◌≡◌};

use crate::sums::after_a_loss;
use plant_model::thrust::Point;
use wrench_geometry::{
    Vec3, cross, determinant, difference, dot, farthest, greatest, image, opposite, product, sum,
    support,
};

fn vector(x: i64, y: i64, z: i64) -> Vec3
    ensures { result ≡ record { x = x; y = y; z = z } }
{
    Vec3 { x, y, z }
}

#[test]
fn products(rt: HostRuntime) {
    let (a, b, c) = (vector(1, 2, 3), vector(4, 5, 6), vector(7, 8, 10));
    assert_eq!(rt; dot(a, b), 32);
    assert_eq!(rt; cross(a, b), vector(-3, 6, -3));
    assert_eq!(rt; determinant(a, b, c), -3);
    assert_eq!(rt; product(a, c), 53);
}

#[test]
fn sums_and_differences(rt: HostRuntime) {
    let (a, b) = (vector(1, 2, 3), vector(4, 5, 6));
    assert_eq!(rt; difference(a, b), vector(-3, -3, -3));
    assert_eq!(rt; sum(a, b), vector(5, 7, 9));
    assert_eq!(rt; opposite(a), vector(-1, -2, -3));
}

#[test]
fn a_thrust_ahead_to_starboard_turns_to_port(rt: HostRuntime) {
    let aft = Point { x: -400, y: 100 };
    let ahead = image(aft, Point { x: 400, y: 0 });
    assert_eq!(rt; ahead, vector(400, 0, -40_000));
    let across = image(aft, Point { x: 0, y: 400 });
    assert_eq!(rt; across, vector(0, 400, -160_000));
}

#[test]
fn how_far_the_sums_reach(rt: HostRuntime) {
    let sums = after_a_loss();
    let w = vector(100, 400, 1);
    assert_eq!(rt; support(&sums, w), 152_000);
    for list in sums.lists() {
        let reach = greatest(list.as_slice(), w);
        assert!(rt; reach == 152_000 || reach == 0);
    }
}

#[test]
fn which_sum_is_farthest(rt: HostRuntime) {
    let farthest = farthest(&after_a_loss(), vector(100, 400, 1));
    assert_eq!(rt; farthest.point, vector(0, 200, 72_000));
    assert_eq!(rt; farthest.places.as_slice(), [0, 1, 0, 3].as_slice());
}
