//! A whole plant.
ghost use Rattle.std.specs.Prelude.{◌≡◌, IfOk, IsTrue};
ghost use Rattle.plant_model.specs.Plants.{is_plant};

use crate::controller::{Gains, WindRow};
use crate::limits::{
    AXES, MOST_GENERATORS, MOST_GROUPS, MOST_SECTIONS, MOST_THRUSTERS, MOST_TIES, WIND_ROWS,
};
use crate::name::Name;
use crate::parts::{Generator, Group, Thruster, Tie};
use crate::status::Status;
use arrayvec::ArrayVec;
use std::alloc::AllocError;
use std::marker::Model;

/// What a plant is made of.
#[derive(Clone, Debug, Drop)]
pub struct Parts {
    pub name: Name,
    /// How far a demand may move along each axis before a new version is made: kN, kN and kN·dm.
    pub band: [u32; AXES],
    /// The controller's gains of surge, sway and yaw.
    pub gains: [Gains; AXES],
    /// The wind coefficients at every ten degrees from the bow towards starboard.
    pub wind: [WindRow; WIND_ROWS],
    /// The sections of the switchboard.
    pub sections: ArrayVec<Name, MOST_SECTIONS>,
    pub ties: ArrayVec<Tie, MOST_TIES>,
    pub generators: ArrayVec<Generator, MOST_GENERATORS>,
    pub thrusters: ArrayVec<Thruster, MOST_THRUSTERS>,
    pub groups: ArrayVec<Group, MOST_GROUPS>,
    /// How the parts stand when a session opens.
    pub opening: Status,
}

/// A plant whose parts fit together: there is a section, a thruster and a group; no two sections, ties,
/// generators and thrusters have one name, and no two groups; each section, tie, generator and thruster that a
/// part names is there; a tie has two different ends; a group has members, none of them twice. All numbers are
/// within their limits, each ring is convex round the origin, its sectors cover no edge twice, and each
/// thruster's pieces are those into which its sectors cut its ring. Contracts see its parts.
#[derive(Debug, Drop)]
pub struct Plant {
    parts: Parts,
}

impl Model for Plant {
    ghost use Rattle.std.specs.Prelude.{IsTrue};
    ghost use Rattle.plant_model.specs.declared.plant.Parts.{Parts};
    ghost use Rattle.plant_model.specs.Plants.{is_plant};

    ghost Value = { Parts };

    ghost view = { λ plant. plant.parts };

    ghost invariant = { λ plant. IsTrue (is_plant plant.parts) };
}

impl Plant {
    /// The plant of these parts, which fit together.
    pub fn of(parts: Parts) -> Plant
        requires { IsTrue (is_plant parts) }
        ensures { result ≡ parts }
    {
        Plant { parts }
    }

    /// Another plant of the same parts.
    pub fn copied(&self) -> Result<Plant, AllocError>
        ensures { IfOk result (λ plant. plant ≡ self.now) }
    {
        let parts = self.parts.clone()?;
        Ok(Plant { parts })
    }

    /// What the plant is made of, which fits together.
    pub fn parts(&self) -> &Parts
        ensures parts { result.now ≡ self.now }
        ensures fit { IsTrue (is_plant self.now) }
    {
        &self.parts
    }

    pub fn name(&self) -> &Name
        ensures { result.now ≡ self.now.name }
    {
        &self.parts.name
    }

    /// How far a demand may move along each axis before a new version is made: kN, kN and kN·dm.
    pub fn band(&self) -> &[u32; AXES]
        ensures { result.now ≡ self.now.band }
    {
        &self.parts.band
    }

    /// The controller's gains of surge, sway and yaw.
    pub fn gains(&self) -> &[Gains; AXES]
        ensures { result.now ≡ self.now.gains }
    {
        &self.parts.gains
    }

    /// The wind coefficients at every ten degrees from the bow towards starboard.
    pub fn wind(&self) -> &[WindRow; WIND_ROWS]
        ensures { result.now ≡ self.now.wind }
    {
        &self.parts.wind
    }

    /// The sections of the switchboard.
    pub fn sections(&self) -> &ArrayVec<Name, MOST_SECTIONS>
        ensures { result.now ≡ self.now.sections }
    {
        &self.parts.sections
    }

    pub fn ties(&self) -> &ArrayVec<Tie, MOST_TIES>
        ensures { result.now ≡ self.now.ties }
    {
        &self.parts.ties
    }

    pub fn generators(&self) -> &ArrayVec<Generator, MOST_GENERATORS>
        ensures { result.now ≡ self.now.generators }
    {
        &self.parts.generators
    }

    pub fn thrusters(&self) -> &ArrayVec<Thruster, MOST_THRUSTERS>
        ensures { result.now ≡ self.now.thrusters }
    {
        &self.parts.thrusters
    }

    /// The redundancy groups.
    pub fn groups(&self) -> &ArrayVec<Group, MOST_GROUPS>
        ensures { result.now ≡ self.now.groups }
    {
        &self.parts.groups
    }

    /// How the parts stand when a session opens.
    pub fn opening(&self) -> &Status
        ensures { result.now ≡ self.now.opening }
    {
        &self.parts.opening
    }
}
