//! The board, and the verdicts that are published for it.
ghost use Rattle.std.specs.Prelude.{◌≡◌, ◌<◌, ◌≤◌, length, map};
ghost use Rattle.plant_model.specs.Versions.{IsDemand};
ghost use Rattle.plant_core.specs.Board.{IsPublishReply, after_publish, cell_of, cells_of, holds};
ghost use Rattle.plant_core.specs.Board.{is_shown};

use crate::call::Reply;
use crate::state::{State, Verdict};
use arrayvec::ArrayVec;
use certificate::{Outcome, check};
use plant_model::board::{Cell, Cells};
use plant_model::limits::MOST_GROUPS;
use plant_model::plant::Plant;
use plant_model::status::Loss;

/// What the board shows of a group, of which this verdict was last shown.
fn cell(latest: u32, verdict: Option<Verdict>) -> Cell
    ensures { result ≡ cell_of latest verdict }
{
    match verdict {
        None => Cell::Pending,
        Some(Verdict { version, holds }) => Cell::Seen {
            version,
            holds,
            current: version == latest,
        },
    }
}

fn listed(latest: u32, verdicts: &[Option<Verdict>]) -> ArrayVec<Cell, MOST_GROUPS>
    requires { length verdicts.now ≤ MOST_GROUPS }
    ensures { result.items ≡ map (cell_of latest) verdicts.now }
{
    let mut list = ArrayVec::new();
    for verdict in verdicts {
        list.push(cell(latest, *verdict));
    }
    list
}

/// The board.
pub(crate) fn cells(plant: &Plant, state: &State) -> Cells
    ensures { result ≡ cells_of plant.now state.now }
{
    let latest = state.latest.number;
    let list = listed(latest, &state.shown[..plant.groups().len()]);
    Cells { latest, list }
}

/// The place of a group's verdict, of which there is one for each group that a plant may have.
fn place_of(plant: &Plant, group: u32) -> usize
    requires { group < length plant.now.groups.items }
    ensures place { result ≡ group }
    ensures within { result < MOST_GROUPS }
{
    let groups = plant.groups().len();
    prove!(groups <= MOST_GROUPS);
    group as usize
}

/// Whether the board shows a verdict of the latest version for the group at this place.
fn is_shown(state: &State, place: usize) -> bool
    requires { place < MOST_GROUPS }
    ensures { result ≡ is_shown state.now place }
{
    let latest = state.latest.number;
    state.shown[place].is_some_and(|verdict| verdict.version == latest)
}

fn holds(outcome: &Outcome) -> bool
    ensures { result ≡ holds outcome.now }
{
    matches!(outcome, Outcome::Holds { .. })
}

/// The reply to a verdict of a version on the loss of a group.
fn publish_reply(plant: &Plant, state: &State, version: u32, group: u32, outcome: &Outcome) -> Reply
    requires demand { IsDemand state.now.latest.demand }
    requires group { group < length plant.now.groups.items }
    ensures { IsPublishReply plant.now state.now version group outcome.now result }
{
    let latest = state.latest.number;
    if latest < version {
        return Reply::Unknown { latest };
    }
    if version < latest {
        return Reply::Superseded { latest };
    }
    if is_shown(state, place_of(plant, group)) {
        return Reply::Already;
    }
    let asked = &state.latest;
    let loss = Loss::Group(group);
    match check(plant, &asked.status, loss, asked.demand, outcome) {
        Ok(()) => Reply::Shown,
        Err(place) => Reply::Refused { place },
    }
}

/// The reply to a verdict of a version on the loss of a group, and the state after it.
pub(crate) fn publish(
    plant: &Plant,
    state: &State,
    version: u32,
    group: u32,
    outcome: &Outcome,
) -> (Reply, State)
    requires demand { IsDemand state.now.latest.demand }
    requires group { group < length plant.now.groups.items }
    ensures reply { IsPublishReply plant.now state.now version group outcome.now result.0 }
    ensures state { result.1 ≡ after_publish state.now version group outcome.now result.0 }
{
    let reply = publish_reply(plant, state, version, group, outcome);
    let mut next = *state;
    if matches!(reply, Reply::Shown) {
        next.shown[place_of(plant, group)] = Some(Verdict {
            version,
            holds: holds(outcome),
        });
    }
    (reply, next)
}
