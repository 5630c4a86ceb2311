//! What the machine is in between two calls.

use pid::{Controller, Fix};
use plant_model::limits::MOST_GROUPS;
use plant_model::status::Version;
use plant_model::wrench::{Load, Wrench};

/// A verdict that was shown: the version that it is about, and whether the demand holds after the loss.
#[derive(Clone, Copy, Debug, PartialEq, Eq)]
pub struct Verdict {
    pub version: u32,
    pub holds: bool,
}

/// What the machine is in between two calls, but for its alarms.
#[derive(Clone, Copy, Debug, PartialEq, Eq)]
pub struct State {
    /// The latest version. Its status is how the plant stands.
    pub latest: Version,
    /// What was asked of the thrusters at the last position that was taken; nothing before the first.
    pub demand: Wrench,
    /// Whether the operators make the demand, and not the controller.
    pub is_manual: bool,
    /// The demand that the operators make.
    pub manual: Wrench,
    /// Where the vessel is to be.
    pub set_point: Fix,
    pub controller: Controller,
    /// The moment of the last position that was taken.
    pub last_position: Option<u32>,
    /// The moment of the last wind that was taken.
    pub last_wind: Option<u32>,
    /// What that wind does to the vessel; nothing before the first.
    pub wind: Load,
    /// The verdict that was last shown of each group's loss.
    pub shown: [Option<Verdict>; MOST_GROUPS],
    /// How many telegrams and notes were answered.
    pub events: u32,
    /// Whether a session was ended.
    pub is_closed: bool,
}
