//! How the example plants stand.

use plant_model::limits::{MOST_THRUSTERS, MOST_TIES};
use plant_model::status::{Loss, Status};

/// The first four thrusters are selected, all generators of the ship run, and the ties are open.
pub(crate) const OPEN: Status = Status {
    selected: [
        true, true, true, true, false, false, false, false, false, false, false, false,
    ],
    running: [true, true, true, false, false, false, false, false],
    closed: [false; MOST_TIES],
    barred: [0; MOST_THRUSTERS],
};

/// The same with the first tie closed.
pub(crate) const CLOSED: Status = Status {
    closed: [true, false, false, false, false, false, false, false],
    ..OPEN
};

/// The first thruster is selected.
pub(crate) const FIRST: Status = Status {
    selected: [
        true, false, false, false, false, false, false, false, false, false, false, false,
    ],
    running: [true, false, false, false, false, false, false, false],
    ..OPEN
};

/// The third thruster is selected.
pub(crate) const THIRD: Status = Status {
    selected: [
        false, false, true, false, false, false, false, false, false, false, false, false,
    ],
    ..FIRST
};

/// The first two thrusters are selected.
pub(crate) const TUNNELS: Status = Status {
    selected: [
        true, true, false, false, false, false, false, false, false, false, false, false,
    ],
    running: [true, true, false, false, false, false, false, false],
    ..OPEN
};

/// All but the first of four thrusters are selected.
pub(crate) const BUT_FIRST: Status = Status {
    selected: [
        false, true, true, true, false, false, false, false, false, false, false, false,
    ],
    ..CLOSED
};

/// The first five thrusters are selected.
pub(crate) const FIVE: Status = Status {
    selected: [
        true, true, true, true, true, false, false, false, false, false, false, false,
    ],
    ..FIRST
};

/// The first six thrusters are selected.
pub(crate) const SIX: Status = Status {
    selected: [
        true, true, true, true, true, true, false, false, false, false, false, false,
    ],
    ..FIRST
};

/// No thruster is selected.
pub(crate) const NONE: Status = Status {
    selected: [false; MOST_THRUSTERS],
    ..TUNNELS
};

/// The loss of section A, of the built-in plant and of the ship.
pub(crate) const SECTION_A: Loss = Loss::Group(0);

/// The other losses of the ship.
pub(crate) const G1: Loss = Loss::Group(1);

pub(crate) const PORT_ALONE: Loss = Loss::Group(2);

pub(crate) const BOW1_ALONE: Loss = Loss::Group(3);

pub(crate) const BOW1_AND_SECTION_A: Loss = Loss::Group(4);
