//! How the parts of a plant stand.

use crate::limits::{MOST_GENERATORS, MOST_SECTIONS, MOST_THRUSTERS, MOST_TIES};
use crate::wrench::Wrench;
use std::marker::Model;

/// Which thrusters are selected, which generators run, which ties are closed and which pieces of each thruster
/// are barred, each by its place. Places past the plant's count are false.
#[derive(Clone, Copy, Debug, Default, PartialEq, Eq)]
pub struct Status {
    pub selected: [bool; MOST_THRUSTERS],
    pub running: [bool; MOST_GENERATORS],
    pub closed: [bool; MOST_TIES],
    /// A mask for each thruster, of which bit k stands for its piece k. Bits past its pieces are 0.
    pub barred: [u16; MOST_THRUSTERS],
}

/// What of a plant stands after a loss: the thrusters that are still selected, the generators that run, the ties
/// that are closed, and the sections that are live.
#[derive(Clone, Copy, Debug, Default, PartialEq, Eq)]
pub struct Standing {
    pub selected: [bool; MOST_THRUSTERS],
    pub running: [bool; MOST_GENERATORS],
    pub closed: [bool; MOST_TIES],
    pub live: [bool; MOST_SECTIONS],
}

/// A loss that a plant must stand: none, or all members of a redundancy group, by its place.
#[derive(Clone, Copy, Debug, PartialEq, Eq)]
pub enum Loss {
    Intact,
    Group(u32),
}

/// A status with what is asked of the thrusters in it. Each change makes a new version with the next number.
/// Its demand is within the demand's limits. Contracts see the three fields.
#[derive(Clone, Copy, Debug, PartialEq, Eq)]
pub struct Version {
    pub number: u32,
    pub status: Status,
    pub demand: Wrench,
}

impl Model for Version {
    ghost use Rattle.plant_model.specs.Versions.{Version, IsDemand};

    ghost Value = { Version };

    ghost view = { λ v. record { number = v.number; status = v.status; demand = v.demand } };

    ghost invariant = { λ v. IsDemand v.demand };

    ghost inverse = { λ v. record { number = v.number; status = v.status; demand = v.demand } };
}
