//! Thrusts in pieces, and cuts of them.

use crate::sums::add;
use arrayvec::ArrayVec;
use certificate::{check_cut, lies};
use plant_model::thrust::{Piece, Point, Thrust};
use wrench_geometry::{Sums, Vec3, fan};

const AHEAD: Vec3 = Vec3 { x: 1, y: 0, z: 0 };

const STARBOARD: Vec3 = Vec3 { x: 0, y: 1, z: 0 };

/// 200 kN to port and to starboard.
fn tunnel() -> Piece {
    let mut points = ArrayVec::new();
    points.push(Point { x: 0, y: -200 });
    points.push(Point { x: 0, y: 200 });
    Piece { points }
}

/// 400 kN ahead, to starboard and astern.
fn starboard() -> Piece {
    let mut points = ArrayVec::new();
    points.push(Point { x: 400, y: 0 });
    points.push(Point { x: 0, y: 400 });
    points.push(Point { x: -400, y: 0 });
    Piece { points }
}

/// 400 kN ahead and to starboard, and a point between them that is inside.
fn dented() -> Piece {
    let mut points = ArrayVec::new();
    points.push(Point { x: 400, y: 0 });
    points.push(Point { x: 100, y: 100 });
    points.push(Point { x: 0, y: 400 });
    Piece { points }
}

/// The same without the point inside, in the other order.
fn turned() -> Piece {
    let mut points = ArrayVec::new();
    points.push(Point { x: 0, y: 400 });
    points.push(Point { x: 400, y: 0 });
    Piece { points }
}

#[test]
fn fans_go_round_by_the_left(rt: HostRuntime) {
    let cases = [
        (Piece::default(), true),
        (tunnel(), true),
        (starboard(), true),
        (dented(), false),
        (turned(), false),
    ];
    for (piece, is_fan) in cases {
        assert_eq!(rt; fan(&piece), is_fan);
    }
}

/// Whether the piece gives the thrust over `q`, which is at least 1.
fn gives(piece: &Piece, x: i128, y: i128, q: i64) -> bool {
    q >= 1 && lies(piece, Thrust { x, y }, q)
}

#[test]
fn tunnel_gives_across(rt: HostRuntime) {
    let piece = tunnel();
    let cases = [
        (0, 200, 1, true),
        (0, -399, 2, true),
        (0, 0, 1, true),
        (0, 201, 1, false),
        (1, 100, 1, false),
    ];
    for (x, y, q, lies_in) in cases {
        assert_eq!(rt; gives(&piece, x, y, q), lies_in, "{x} {y} {q}");
    }
}

#[test]
fn azimuth_gives_to_starboard(rt: HostRuntime) {
    let piece = starboard();
    let cases = [
        (401, 399, 2, true),
        (-400, 0, 1, true),
        (-1, 0, 1, true),
        (401, 400, 2, false),
        (0, -1, 1, false),
    ];
    for (x, y, q, lies_in) in cases {
        assert_eq!(rt; gives(&piece, x, y, q), lies_in, "{x} {y} {q}");
    }
}

#[test]
fn no_thrust_is_too_far_to_judge(rt: HostRuntime) {
    let piece = starboard();
    let last = i128::from(i64::MAX);
    let cases = [
        (i128::MAX, i128::MAX, 1, false),
        (i128::MIN, 0, i64::MAX, false),
        (0, 400 * last, i64::MAX, true),
    ];
    for (x, y, q, lies_in) in cases {
        assert_eq!(rt; gives(&piece, x, y, q), lies_in, "{x} {y} {q}");
    }
}

#[test]
fn no_point_leaves_the_origin(rt: HostRuntime) {
    let piece = Piece::default();
    assert!(rt; gives(&piece, 0, 0, 3));
    assert!(rt; !gives(&piece, 1, 0, 3));
}

/// The piece from starboard over astern to port of a thruster at the origin.
fn astern_sums() -> Sums {
    let mut sums = Sums::new();
    add(&mut sums, (0, 0), &[(0, 400), (-400, 0), (0, -400)]);
    sums
}

/// Its piece from port to ahead.
fn port_sums() -> Sums {
    let mut sums = Sums::new();
    add(&mut sums, (0, 0), &[(0, -400), (400, 0)]);
    sums
}

#[test]
fn each_piece_has_its_own_cut(rt: HostRuntime) {
    let demand = Vec3 {
        x: 100,
        y: 100,
        z: 0,
    };
    assert!(rt; check_cut(&astern_sums(), AHEAD, demand));
    assert!(rt; check_cut(&port_sums(), STARBOARD, demand));
    assert!(rt; !check_cut(&port_sums(), AHEAD, demand));
}

#[test]
fn border_is_not_cut_off(rt: HostRuntime) {
    let sums = port_sums();
    assert!(rt; !check_cut(&sums, AHEAD, Vec3 { x: 400, y: 0, z: 0 }));
    assert!(rt; check_cut(&sums, AHEAD, Vec3 { x: 401, y: 0, z: 0 }));
}
