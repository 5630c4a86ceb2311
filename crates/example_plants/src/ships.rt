//! The plants.
ghost use Rattle.std.specs.Prelude.{◌≡◌, length};

use crate::parts::{five_groups, name, one_generator, one_group, sections, three_generators, ties};
use crate::thrusters::{five_thrusters, four_thrusters, guarded_thruster, six_thrusters};
use plant_model::controller::Gains;
use plant_model::demo::demo;
use plant_model::demo::wind::WIND;
use plant_model::limits::{AXES, MOST_GENERATORS, MOST_THRUSTERS, MOST_TIES};
use plant_model::plant::{Parts, Plant};
use plant_model::status::Status;

const GAINS: Gains = Gains {
    kp: 0,
    ki: 0,
    kd: 0,
    limit: 0,
};

const NOTHING: Status = Status {
    selected: [false; MOST_THRUSTERS],
    running: [false; MOST_GENERATORS],
    closed: [false; MOST_TIES],
    barred: [0; MOST_THRUSTERS],
};

/// The built-in plant: the sections A and B with a generator of 4000 kW each, a tie, two thrusters on
/// each of them, and a group of each section.
pub fn built_in() -> Plant
    ensures sections { length result.sections.items ≡ 2 }
    ensures groups { length result.groups.items ≡ 2 }
{
    demo()
}

/// The sections A, B and C, with a tie between A and B and one between B and C. A has a generator of
/// 4000 kW, and B has two of 2000 kW. The thrusters are those of the built-in plant, of which BOW1
/// freezes at 100 kN to starboard. A group is section A, G1, PORT, BOW1, or BOW1 with section A.
pub fn ship() -> Plant
    ensures sections { length result.sections.items ≡ 3 }
    ensures groups { length result.groups.items ≡ 5 }
{
    Plant::of(Parts {
        name: name(b"SHIP"),
        band: [0; AXES],
        gains: [GAINS; AXES],
        wind: WIND,
        sections: sections(),
        ties: ties(),
        generators: three_generators(),
        thrusters: four_thrusters(),
        groups: five_groups(),
        opening: NOTHING,
    })
}

/// One azimuth at the origin with a sector from ahead to starboard, on section A with 12000 kW. The
/// group is the azimuth.
pub fn guarded_ship() -> Plant
    ensures { length result.groups.items ≡ 1 }
{
    Plant::of(Parts {
        name: name(b"ONE"),
        band: [0; AXES],
        gains: [GAINS; AXES],
        wind: WIND,
        sections: sections(),
        ties: ties(),
        generators: one_generator(),
        thrusters: guarded_thruster(),
        groups: one_group(),
        opening: NOTHING,
    })
}

/// Two tunnels, one azimuth at the origin and two main propellers, all on section A with 12000 kW.
/// The group is the first tunnel.
pub fn ship_of_five() -> Plant
    ensures { length result.groups.items ≡ 1 }
{
    Plant::of(Parts {
        name: name(b"FIVE"),
        band: [0; AXES],
        gains: [GAINS; AXES],
        wind: WIND,
        sections: sections(),
        ties: ties(),
        generators: one_generator(),
        thrusters: five_thrusters(),
        groups: one_group(),
        opening: NOTHING,
    })
}

/// Six azimuths at the origin, all on section A with 12000 kW. The group is the first of them.
pub fn ship_of_six() -> Plant
    ensures { length result.groups.items ≡ 1 }
{
    Plant::of(Parts {
        name: name(b"SIX"),
        band: [0; AXES],
        gains: [GAINS; AXES],
        wind: WIND,
        sections: sections(),
        ties: ties(),
        generators: one_generator(),
        thrusters: six_thrusters(),
        groups: one_group(),
        opening: NOTHING,
    })
}
