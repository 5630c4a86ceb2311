//! Islands, shares of power and quarters of the thrust.

use bus_topology::{islands, quarter, share};
use example_plants::{built_in, ship};
use plant_model::limits::{MOST_THRUSTERS, MOST_TIES, THRESHOLDS};
use plant_model::status::Standing;

const EVEN_THRESHOLDS: [u32; THRESHOLDS] = [25, 50, 75, 100];

const FOUR_SELECTED: [bool; MOST_THRUSTERS] = [
    true, true, true, true, false, false, false, false, false, false, false, false,
];

/// The second generator runs, and the first tie is closed.
const ONE_GENERATOR: Standing = Standing {
    selected: FOUR_SELECTED,
    running: [false, true, false, false, false, false, false, false],
    closed: [true, false, false, false, false, false, false, false],
    live: [true, true, false, false, false, false, false, false],
};

/// The first two generators run, and the first tie is closed.
const TWO_GENERATORS: Standing = Standing {
    running: [true, true, false, false, false, false, false, false],
    live: [true, true, true, false, false, false, false, false],
    ..ONE_GENERATOR
};

#[test]
fn a_quarter_counts_the_thresholds_that_are_met(rt: HostRuntime) {
    for (share, wanted) in [
        (0, 0),
        (24, 0),
        (25, 1),
        (50, 2),
        (75, 3),
        (99, 3),
        (100, 4),
    ] {
        assert_eq!(rt; quarter(share, &EVEN_THRESHOLDS), wanted, "at {share}");
    }
}

#[test]
fn one_generator_is_left(rt: HostRuntime) {
    let plant = built_in();
    let map = islands(&plant, &ONE_GENERATOR);
    assert_eq!(rt; map.of, [0, 0, 8, 8, 8, 8, 8, 8]);
    assert_eq!(rt; share(&plant, &ONE_GENERATOR, &map, 0), 50);
    assert_eq!(rt; share(&plant, &ONE_GENERATOR, &map, 1), 50);
}

#[test]
fn an_island_without_power_has_no_share(rt: HostRuntime) {
    let plant = built_in();
    let standing = Standing {
        closed: [false; MOST_TIES],
        ..ONE_GENERATOR
    };
    let map = islands(&plant, &standing);
    assert_eq!(rt; map.of, [0, 1, 8, 8, 8, 8, 8, 8]);
    assert_eq!(rt; share(&plant, &standing, &map, 0), 0);
    assert_eq!(rt; share(&plant, &standing, &map, 1), 100);
}

#[test]
fn three_quarters_of_the_power_are_there(rt: HostRuntime) {
    let plant = ship();
    let map = islands(&plant, &TWO_GENERATORS);
    assert_eq!(rt; share(&plant, &TWO_GENERATORS, &map, 0), 75);
}

#[test]
fn all_of_the_power_is_there_once_a_thruster_is_lost(rt: HostRuntime) {
    let plant = ship();
    let standing = Standing {
        selected: [
            true, true, false, true, false, false, false, false, false, false, false, false,
        ],
        ..TWO_GENERATORS
    };
    let map = islands(&plant, &standing);
    assert_eq!(rt; share(&plant, &standing, &map, 0), 100);
}

#[test]
fn a_lost_section_parts_those_beside_it(rt: HostRuntime) {
    let plant = ship();
    let chain = Standing {
        closed: [true, true, false, false, false, false, false, false],
        ..TWO_GENERATORS
    };
    assert_eq!(rt; islands(&plant, &chain).of, [0, 0, 0, 8, 8, 8, 8, 8]);
    let parted = Standing {
        live: [true, false, true, false, false, false, false, false],
        ..chain
    };
    assert_eq!(rt; islands(&plant, &parted).of, [0, 8, 2, 8, 8, 8, 8, 8]);
}
