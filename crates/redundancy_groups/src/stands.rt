//! How a plant stands after a loss.
ghost use Rattle.std.specs.Prelude.{◌≡◌, ◌<◌};
ghost use Rattle.std.specs.List.{list_any};
ghost use Rattle.plant_model.specs.Plants.{member_eq};
ghost use Rattle.redundancy_groups.specs.Standing.{IsLossOf, at_places, is_closed_after};
ghost use Rattle.redundancy_groups.specs.Standing.{is_live_after, is_lost, is_selected_after};
ghost use Rattle.redundancy_groups.specs.Standing.{runs_after, standing_of};

use plant_model::limits::{MOST_GENERATORS, MOST_SECTIONS, MOST_THRUSTERS, MOST_TIES};
use plant_model::parts::Member;
use plant_model::plant::{Parts, Plant};
use plant_model::status::{Loss, Standing, Status};

/// How the plant stands after the loss. The members of a lost group are unselected, stopped, open
/// or not live; all other sections are live, and the rest is as in the status, but that a generator
/// on a section that isn't live doesn't run, and a thruster on one isn't selected. A group's number
/// is below the count of groups.
pub fn standing(plant: &Plant, status: &Status, loss: Loss) -> Standing
    requires { IsLossOf plant.now loss }
    ensures { result ≡ standing_of plant.now status.now loss }
{
    let parts = plant.parts();
    Standing {
        selected: selected(parts, status, loss),
        running: running(parts, status, loss),
        closed: closed(parts, status, loss),
        live: live(parts, loss),
    }
}

fn selected(parts: &Parts, status: &Status, loss: Loss) -> [bool; MOST_THRUSTERS]
    requires { IsLossOf parts.now loss }
    ensures { result ≡ at_places MOST_THRUSTERS (is_selected_after parts.now status.now loss) }
{
    let mut selected = [false; MOST_THRUSTERS];
    for place in 0..MOST_THRUSTERS {
        selected[place] = is_selected(parts, status, loss, place);
    }
    selected
}

fn running(parts: &Parts, status: &Status, loss: Loss) -> [bool; MOST_GENERATORS]
    requires { IsLossOf parts.now loss }
    ensures { result ≡ at_places MOST_GENERATORS (runs_after parts.now status.now loss) }
{
    let mut running = [false; MOST_GENERATORS];
    for place in 0..MOST_GENERATORS {
        running[place] = runs(parts, status, loss, place);
    }
    running
}

fn closed(parts: &Parts, status: &Status, loss: Loss) -> [bool; MOST_TIES]
    requires { IsLossOf parts.now loss }
    ensures { result ≡ at_places MOST_TIES (is_closed_after parts.now status.now loss) }
{
    let mut closed = [false; MOST_TIES];
    for place in 0..MOST_TIES {
        closed[place] = is_closed(parts, status, loss, place);
    }
    closed
}

fn live(parts: &Parts, loss: Loss) -> [bool; MOST_SECTIONS]
    requires { IsLossOf parts.now loss }
    ensures { result ≡ at_places MOST_SECTIONS (is_live_after parts.now loss) }
{
    let mut live = [false; MOST_SECTIONS];
    for section in 0..MOST_SECTIONS {
        live[section] = is_live(parts, loss, section as u32);
    }
    live
}

fn is_closed(parts: &Parts, status: &Status, loss: Loss, place: usize) -> bool
    requires loss { IsLossOf parts.now loss }
    requires place { place < MOST_TIES }
    ensures { result ≡ is_closed_after parts.now status.now loss place }
{
    status.closed[place] && !is_lost(parts, loss, Member::Tie(place as u32))
}

fn is_selected(parts: &Parts, status: &Status, loss: Loss, place: usize) -> bool
    requires loss { IsLossOf parts.now loss }
    requires place { place < MOST_THRUSTERS }
    ensures { result ≡ is_selected_after parts.now status.now loss place }
{
    if !status.selected[place] || is_lost(parts, loss, Member::Thruster(place as u32)) {
        return false;
    }
    match parts.thrusters.get(place) {
        Some(thruster) => is_live(parts, loss, thruster.section),
        None => true,
    }
}

fn runs(parts: &Parts, status: &Status, loss: Loss, place: usize) -> bool
    requires loss { IsLossOf parts.now loss }
    requires place { place < MOST_GENERATORS }
    ensures { result ≡ runs_after parts.now status.now loss place }
{
    if !status.running[place] || is_lost(parts, loss, Member::Generator(place as u32)) {
        return false;
    }
    match parts.generators.get(place) {
        Some(generator) => is_live(parts, loss, generator.section),
        None => true,
    }
}

/// Whether the section is there and isn't lost.
pub(crate) fn is_live(parts: &Parts, loss: Loss, section: u32) -> bool
    requires { IsLossOf parts.now loss }
    ensures { result ≡ is_live_after parts.now loss section }
{
    (section as usize) < parts.sections.len() && !is_lost(parts, loss, Member::Section(section))
}

/// Whether the part is itself a member of the lost group.
pub(crate) fn is_lost(parts: &Parts, loss: Loss, member: Member) -> bool
    requires { IsLossOf parts.now loss }
    ensures { result ≡ is_lost parts.now loss member }
{
    match loss {
        Loss::Intact => false,
        Loss::Group(group) => is_among(&parts.groups[group as usize].members, member),
    }
}

fn is_among(members: &[Member], member: Member) -> bool
    ensures { result ≡ list_any (member_eq member) members.now }
{
    members.iter().any(|other| is_same(member, *other))
}

fn is_same(a: Member, b: Member) -> bool
    ensures { result ≡ member_eq a b }
{
    a == b
}
