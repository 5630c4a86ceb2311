//! Switching the parts of a plant, which the operators name.
ghost use Rattle.std.specs.Prelude.{◌≡◌, ◌+◌, ◌<◌, ◌^◌, IfSome};
ghost use Rattle.plant_model.specs.Versions.{IsDemand};
ghost use Rattle.plant_core.specs.Switching.{after_switching, bar_switching, generator_place};
ghost use Rattle.plant_core.specs.Switching.{generator_switching, is_barred, pieces_of, switched};
ghost use Rattle.plant_core.specs.Switching.{switching_reply, thruster_place, thruster_switching};
ghost use Rattle.plant_core.specs.Switching.{tie_place, tie_switching};

use crate::call::Reply;
use crate::state::State;
use plant_model::limits::{MOST_GENERATORS, MOST_PIECES, MOST_THRUSTERS, MOST_TIES};
use plant_model::name::Name;
use plant_model::plant::Plant;
use plant_model::status::{Status, Version};

/// How a part would be switched.
#[derive(Clone, Copy, Debug, PartialEq, Eq)]
pub enum Switching {
    /// No part of that kind has the name.
    Unknown,
    /// The thruster has no such piece.
    NoPiece,
    /// The part stands so already.
    Same,
    /// The status with the part so.
    To(Status),
}

/// The place of the thruster of that name.
fn thruster_place(plant: &Plant, name: &Name) -> Option<usize>
    ensures place { result ≡ thruster_place plant.now name.now }
    ensures fits { IfSome result (λ place. place < MOST_THRUSTERS) }
{
    let wanted = name.bytes();
    let thrusters = plant.thrusters().as_slice();
    thrusters
        .iter()
        .position(|part| part.name.bytes() == wanted)
}

/// The place of the generator of that name.
fn generator_place(plant: &Plant, name: &Name) -> Option<usize>
    ensures place { result ≡ generator_place plant.now name.now }
    ensures fits { IfSome result (λ place. place < MOST_GENERATORS) }
{
    let wanted = name.bytes();
    let generators = plant.generators().as_slice();
    generators
        .iter()
        .position(|part| part.name.bytes() == wanted)
}

/// The place of the bus tie of that name.
fn tie_place(plant: &Plant, name: &Name) -> Option<usize>
    ensures place { result ≡ tie_place plant.now name.now }
    ensures fits { IfSome result (λ place. place < MOST_TIES) }
{
    let wanted = name.bytes();
    let ties = plant.ties().as_slice();
    ties.iter().position(|part| part.name.bytes() == wanted)
}

/// The switches with the one at this place so. None where it stands so already.
fn switched<const N: usize>(switches: &[bool; N], place: usize, value: bool) -> Option<[bool; N]>
    requires { place < N }
    ensures { result ≡ switched switches.now place value }
{
    if switches[place] == value {
        return None;
    }
    let mut switches = *switches;
    switches[place] = value;
    Some(switches)
}

/// How the thruster of that name would be selected or taken out.
pub(crate) fn thruster_switching(
    plant: &Plant,
    status: &Status,
    name: &Name,
    selected: bool,
) -> Switching
    ensures { result ≡ thruster_switching plant.now status.now name.now selected }
{
    let Some(place) = thruster_place(plant, name) else {
        return Switching::Unknown;
    };
    let Some(selected) = switched(&status.selected, place, selected) else {
        return Switching::Same;
    };
    Switching::To(Status {
        selected,
        ..*status
    })
}

/// How the generator of that name would be run or stopped.
pub(crate) fn generator_switching(
    plant: &Plant,
    status: &Status,
    name: &Name,
    running: bool,
) -> Switching
    ensures { result ≡ generator_switching plant.now status.now name.now running }
{
    let Some(place) = generator_place(plant, name) else {
        return Switching::Unknown;
    };
    let Some(running) = switched(&status.running, place, running) else {
        return Switching::Same;
    };
    Switching::To(Status { running, ..*status })
}

/// How the bus tie of that name would be closed or opened.
pub(crate) fn tie_switching(plant: &Plant, status: &Status, name: &Name, closed: bool) -> Switching
    ensures { result ≡ tie_switching plant.now status.now name.now closed }
{
    let Some(place) = tie_place(plant, name) else {
        return Switching::Unknown;
    };
    let Some(closed) = switched(&status.closed, place, closed) else {
        return Switching::Same;
    };
    Switching::To(Status { closed, ..*status })
}

/// How many pieces the thruster at this place has.
fn pieces_of(plant: &Plant, place: usize) -> usize
    ensures { result ≡ pieces_of plant.now place }
{
    let thrusters = plant.thrusters().as_slice();
    thrusters
        .get(place)
        .map_or(0, |thruster| thruster.pieces.list.len())
}

/// Whether the mask bars the piece of this number.
fn is_barred(mask: u16, piece: u32) -> bool
    requires { piece < MOST_PIECES }
    ensures { result ≡ is_barred mask piece }
{
    mask >> piece & 1 == 1
}

/// How the piece of the thruster of that name would be barred or freed.
pub(crate) fn bar_switching(
    plant: &Plant,
    status: &Status,
    name: &Name,
    piece: u32,
    barred: bool,
) -> Switching
    requires { piece < MOST_PIECES }
    ensures { result ≡ bar_switching plant.now status.now name.now piece barred }
{
    let Some(place) = thruster_place(plant, name) else {
        return Switching::Unknown;
    };
    if pieces_of(plant, place) <= piece as usize {
        return Switching::NoPiece;
    }
    if is_barred(status.barred[place], piece) == barred {
        return Switching::Same;
    }
    let mut status = *status;
    status.barred[place] ^= 1 << piece;
    Switching::To(status)
}

/// The reply where a part would be switched so, and the state after it.
pub(crate) fn switch(state: &State, switching: Switching) -> (Reply, State)
    requires number { state.now.latest.number + 1 < 2 ^ 32 }
    requires demand { IsDemand state.now.demand }
    ensures reply { result.0 ≡ switching_reply state.now switching }
    ensures state { result.1 ≡ after_switching state.now switching }
{
    match switching {
        Switching::Unknown => (Reply::UnknownName, *state),
        Switching::NoPiece => (Reply::NoPiece, *state),
        Switching::Same => (Reply::Same, *state),
        Switching::To(status) => {
            let number = state.latest.number + 1;
            let latest = Version {
                number,
                status,
                demand: state.demand,
            };
            (Reply::Version(number), State { latest, ..*state })
        }
    }
}
