//! How plants stand after losses, and what their thrusters can give then.
ghost use Rattle.redundancy_groups.specs.Standing.{IsLossOf};

use crate::statuses::{
    BOW1_ALONE, BOW1_AND_SECTION_A, BUT_FIRST, CLOSED, FIRST, FIVE, G1, OPEN, PORT_ALONE,
    SECTION_A, SIX, THIRD,
};
use example_plants::{built_in, guarded_ship, ship, ship_of_five, ship_of_six};
use feasibility::{cut_off_from, spread};
use plant_model::plant::Plant;
use plant_model::status::{Loss, Status};
use plant_model::thrust::Point;
use plant_model::wrench::Load;
use redundancy_groups::{fixed_load, standing, surviving};
use thrust_region::{Regions, choices};
use wrench_geometry::Vec3;

const AHEAD: Point = Point { x: 400, y: 0 };

const STARBOARD: Point = Point { x: 0, y: 400 };

const ASTERN: Point = Point { x: -400, y: 0 };

const PORT: Point = Point { x: 0, y: -400 };

const ORIGIN: Point = Point { x: 0, y: 0 };

/// What a tunnel gives at two, three and four quarters.
const HALF: [Point; 2] = [Point { x: 0, y: -100 }, Point { x: 0, y: 100 }];

const THREE_QUARTERS: [Point; 2] = [Point { x: 0, y: -150 }, Point { x: 0, y: 150 }];

const ALL_ACROSS: [Point; 2] = [Point { x: 0, y: -200 }, Point { x: 0, y: 200 }];

/// Whether the thruster has one piece, with these points.
fn has_piece(regions: &Regions, place: usize, points: &[Point]) -> bool {
    match regions.list.as_slice().get(place) {
        Some(region) => region.len() == 1 && region.piece(0).points.as_slice() == points,
        None => false,
    }
}

/// Whether the thruster has two pieces, with these points.
fn has_pieces(regions: &Regions, place: usize, first: &[Point], second: &[Point]) -> bool {
    match regions.list.as_slice().get(place) {
        Some(region) => {
            region.len() == 2
                && region.piece(0).points.as_slice() == first
                && region.piece(1).points.as_slice() == second
        }
        None => false,
    }
}

#[test]
fn a_plant_stands_as_it_opens(rt: HostRuntime) {
    let plant = built_in();
    let intact = standing(&plant, plant.opening(), Loss::Intact);
    assert_eq!(rt; intact.selected, plant.opening().selected);
    assert_eq!(rt; intact.running, plant.opening().running);
    let live = [true, true, false, false, false, false, false, false];
    assert_eq!(rt; intact.live, live);
}

#[test]
fn a_lost_section_takes_what_it_feeds(rt: HostRuntime) {
    let plant = built_in();
    let lost = standing(&plant, plant.opening(), SECTION_A);
    let second = [false, true, false, false, false, false, false, false];
    assert_eq!(rt; lost.live, second);
    assert_eq!(rt; lost.running, second);
    let selected = [
        false, true, false, true, false, false, false, false, false, false, false, false,
    ];
    assert_eq!(rt; lost.selected, selected);
}

#[test]
fn thrusters_share_the_power_that_is_left(rt: HostRuntime) {
    let plant = ship();
    let regions = surviving(&plant, &CLOSED, G1);
    assert_eq!(rt; regions.list.len(), 4);
    assert!(rt; has_piece(&regions, 0, &HALF));
    assert_eq!(rt; choices(&regions), 4);
}

#[test]
fn an_island_without_power_leaves_the_origin(rt: HostRuntime) {
    let plant = ship();
    let regions = surviving(&plant, &OPEN, G1);
    assert!(rt; has_piece(&regions, 0, &[]));
    assert!(rt; has_piece(&regions, 1, &ALL_ACROSS));
    assert_eq!(rt; choices(&regions), 2);
}

/// The first two of three generators run, which is three quarters of the power.
const TWO_GENERATORS: Status = Status {
    running: [true, true, false, false, false, false, false, false],
    ..CLOSED
};

#[test]
fn three_quarters_of_the_power_give_three_quarters_of_the_thrust(rt: HostRuntime) {
    let plant = ship();
    let regions = surviving(&plant, &TWO_GENERATORS, Loss::Intact);
    assert!(rt; has_piece(&regions, 0, &THREE_QUARTERS));
}

#[test]
fn the_quarter_is_that_after_the_loss(rt: HostRuntime) {
    let plant = ship();
    let regions = surviving(&plant, &TWO_GENERATORS, PORT_ALONE);
    assert!(rt; has_piece(&regions, 0, &ALL_ACROSS));
    assert!(rt; has_piece(&regions, 2, &[]));
    assert_eq!(rt; regions.fixed.as_slice(), [ORIGIN; 4].as_slice());
}

#[test]
fn forbidden_sectors_stay_forbidden(rt: HostRuntime) {
    let plant = guarded_ship();
    let regions = surviving(&plant, &FIRST, Loss::Intact);
    assert_eq!(rt; choices(&regions), 2);
    let guarded = has_pieces(&regions, 0, &[STARBOARD, ASTERN, PORT], &[PORT, AHEAD]);
    assert!(rt; guarded);
}

#[test]
fn two_propellers_with_rudders_leave_eight_choices(rt: HostRuntime) {
    let plant = ship_of_five();
    let regions = surviving(&plant, &FIVE, Loss::Intact);
    assert_eq!(rt; regions.list.len(), 5);
    assert_eq!(rt; choices(&regions), 8);
    let ahead = [Point { x: 1_000, y: -300 }, Point { x: 1_000, y: 300 }];
    assert!(rt; has_pieces(&regions, 3, &ahead, &[ASTERN]));
    assert!(rt; has_pieces(&regions, 4, &ahead, &[ASTERN]));
}

#[test]
fn six_azimuths_leave_64_choices(rt: HostRuntime) {
    let plant = ship_of_six();
    let regions = surviving(&plant, &SIX, Loss::Intact);
    assert_eq!(rt; choices(&regions), 64);
    assert!(rt;
        has_pieces(
            &regions,
            5,
            &[AHEAD, STARBOARD, ASTERN],
            &[ASTERN, PORT, AHEAD]
        )
    );
}

#[test]
fn a_thruster_that_is_lost_alone_stays_at_its_thrust(rt: HostRuntime) {
    let plant = ship();
    let regions = surviving(&plant, &CLOSED, BOW1_ALONE);
    let stays = [Point { x: 0, y: 100 }, ORIGIN, ORIGIN, ORIGIN];
    assert_eq!(rt; regions.fixed.as_slice(), stays.as_slice());
    assert!(rt; has_piece(&regions, 0, &[]));
    assert!(rt; has_piece(&regions, 1, &ALL_ACROSS));
    let load = Load {
        x: 0,
        y: 100,
        n: 40_000,
    };
    assert_eq!(rt; fixed_load(&plant, &regions), load);
}

/// Whether no thruster of a plant of four stays at a thrust.
fn nothing_stays(plant: &Plant, status: &Status, loss: Loss) -> bool
    requires { IsLossOf plant.now loss }
{
    surviving(plant, status, loss).fixed.as_slice() == [ORIGIN; 4].as_slice()
}

#[test]
fn no_other_thruster_stays(rt: HostRuntime) {
    let plant = ship();
    assert!(rt; nothing_stays(&plant, &CLOSED, Loss::Intact));
    assert!(rt; nothing_stays(&plant, &CLOSED, SECTION_A));
    assert!(rt; nothing_stays(&plant, &CLOSED, BOW1_AND_SECTION_A));
    assert!(rt; nothing_stays(&plant, &BUT_FIRST, BOW1_ALONE));
}

/// How the plant of five stands with its azimuth alone, of which these pieces are barred.
fn with_barred(mask: u16) -> Status {
    let mut status = THIRD;
    status.barred[2] = mask;
    status
}

/// Whether the azimuth has one piece then, with these points.
fn leaves_piece(mask: u16, points: &[Point]) -> bool {
    let plant = ship_of_five();
    has_piece(
        &surviving(&plant, &with_barred(mask), Loss::Intact),
        2,
        points,
    )
}

#[test]
fn barred_pieces_are_left_out(rt: HostRuntime) {
    assert!(rt; leaves_piece(1, &[ASTERN, PORT, AHEAD]));
    assert!(rt; leaves_piece(2, &[AHEAD, STARBOARD, ASTERN]));
    assert!(rt; leaves_piece(3, &[]));
}

#[test]
fn a_barred_piece_halves_the_choices(rt: HostRuntime) {
    let plant = ship_of_five();
    for (mask, count) in [(0, 2), (1, 1), (2, 1), (3, 1)] {
        let regions = surviving(&plant, &with_barred(mask), Loss::Intact);
        assert_eq!(rt; choices(&regions), count, "at {mask}");
    }
}

#[test]
fn one_direction_cuts_off_both_choices(rt: HostRuntime) {
    let plant = built_in();
    let regions = surviving(&plant, &OPEN, SECTION_A);
    let w = Vec3 {
        x: 100,
        y: 400,
        z: 1,
    };
    assert_eq!(rt; spread(&plant, &regions, &[], w), 152_000);
    assert_eq!(rt; cut_off_from(&plant, &regions, 0, w, 152_001), 2);
    assert_eq!(rt; cut_off_from(&plant, &regions, 0, w, 152_000), 0);
}
