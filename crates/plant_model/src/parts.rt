//! The parts of a plant, and the groups of them that one failure takes away.
//!
//! Sections, ties, generators, thrusters and groups are numbered by their places in the plant, from 0.

use crate::limits::{MOST_MEMBERS, MOST_SECTORS, THRESHOLDS};
use crate::name::Name;
use crate::thrust::{Pieces, Point, Ring, Sector};
use arrayvec::ArrayVec;

/// A bus tie: it joins two sections of the switchboard where it is closed.
#[derive(Clone, Debug, Default, Drop)]
pub struct Tie {
    pub name: Name,
    /// The two sections.
    pub first: u32,
    pub second: u32,
}

/// A generator.
#[derive(Clone, Debug, Default, Drop)]
pub struct Generator {
    pub name: Name,
    /// The section that it feeds.
    pub section: u32,
    /// What it gives while it runs, in kW: 1 to [`crate::limits::MOST_POWER`].
    pub power: u32,
}

/// A thruster.
#[derive(Clone, Debug, Default, Drop)]
pub struct Thruster {
    pub name: Name,
    /// The section that feeds it.
    pub section: u32,
    /// Where it stands, in dm.
    pub lever: Point,
    /// What it takes at full thrust, in kW: 1 to [`crate::limits::MOST_POWER`].
    pub rated: u32,
    /// The least shares of power, in percent, at which it may give one to four quarters of its thrust: 1 to
    /// [`crate::limits::MOST_THRESHOLD`], none less than the one before.
    pub thresholds: [u32; THRESHOLDS],
    /// What it can give at full power: see [`crate::thrust`].
    pub ring: Ring,
    /// The sectors of the ring that it may not use.
    pub sectors: ArrayVec<Sector, MOST_SECTORS>,
    /// The convex pieces into which the sectors cut the ring.
    pub pieces: Pieces,
    /// The thrust at which it stays where it fails by itself. None where it then gives nothing.
    pub frozen: Option<Point>,
}

/// A part that a redundancy group has.
#[derive(Clone, Copy, Debug, PartialEq, Eq)]
pub enum Member {
    Section(u32),
    Tie(u32),
    Generator(u32),
    Thruster(u32),
}

/// Section 0, which fills unused places.
impl Default for Member {
    ghost use Rattle.std.specs.Prelude.{◌≡◌};
    ghost use Rattle.plant_model.specs.declared.parts.Member.TheVariants.{Section};

    ghost is_default = { λ member. member ≡ Section 0 };

    fn default() -> Self {
        Member::Section(0)
    }
}

/// A redundancy group: the parts that one failure takes away together.
#[derive(Clone, Debug, Default, Drop)]
pub struct Group {
    pub name: Name,
    /// At least one member.
    pub members: ArrayVec<Member, MOST_MEMBERS>,
}
