//! The errors of a fix, and what the controller asks for.

use pid::{Controller, Fix, FixErrors, errors};
use plant_model::controller::Gains;
use plant_model::wrench::{Load, Wrench};

#[test]
fn errors_in_the_vessels_axes(rt: HostRuntime) {
    let set = Fix {
        x: 100,
        y: 0,
        heading: 9000,
    };
    let at = Fix {
        x: 0,
        y: 0,
        heading: 9000,
    };
    assert_eq!(rt;
        errors(set, at),
        FixErrors {
            surge: 0,
            sway: -100,
            yaw: 0
        }
    );
}

#[test]
fn the_shorter_way_round(rt: HostRuntime) {
    let ahead = Fix {
        x: 0,
        y: 0,
        heading: 35_000,
    };
    let north = Fix::default();
    assert_eq!(rt; errors(ahead, north).yaw, -1000);
    assert_eq!(rt; errors(north, ahead).yaw, 1000);
    let south = Fix {
        x: 0,
        y: 0,
        heading: 18_000,
    };
    assert_eq!(rt; errors(south, north).yaw, -18_000);
    assert_eq!(rt; errors(north, south).yaw, -18_000);
}

fn demo_gains() -> [Gains; 3] {
    let across = Gains {
        kp: 200,
        ki: 10,
        kd: 500,
        limit: 1_000_000_000,
    };
    let yaw = Gains {
        kp: 200_000,
        ki: 1000,
        kd: 500_000,
        limit: 1_000_000_000,
    };
    [across, across, yaw]
}

#[test]
fn a_first_fix_moves_no_sum(rt: HostRuntime) {
    let set = Fix {
        x: 100,
        y: 0,
        heading: 9000,
    };
    let at = Fix {
        x: 0,
        y: 0,
        heading: 9000,
    };
    let mut controller = Controller::new(demo_gains());
    let demand = controller.step(1000, errors(set, at), Load::default());
    assert_eq!(rt; demand, Wrench { x: 0, y: -20, n: 0 });
}

#[test]
fn a_second_fix_adds_up_and_brakes(rt: HostRuntime) {
    let set = Fix::default();
    let mut controller = Controller::new(demo_gains());
    let first = errors(
        set,
        Fix {
            x: -100,
            y: 0,
            heading: 0,
        },
    );
    let second = errors(
        set,
        Fix {
            x: -80,
            y: 0,
            heading: 0,
        },
    );
    assert_eq!(rt;
        controller.step(1000, first, Load::default()),
        Wrench { x: 20, y: 0, n: 0 }
    );
    assert_eq!(rt;
        controller.step(2000, second, Load::default()),
        Wrench { x: 6, y: 0, n: 0 }
    );
    controller.reset();
    let wind = Load {
        x: -15,
        y: 30_000,
        n: 1,
    };
    assert_eq!(rt;
        controller.step(500, first, wind),
        Wrench {
            x: 35,
            y: -24_000,
            n: -1
        }
    );
}
