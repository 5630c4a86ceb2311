//! Positions and winds, and the demand at a position.
ghost use Rattle.std.specs.Prelude.{◌≡◌, ◌+◌, ◌<◌, ◌≤◌, ◌^◌};
ghost use Rattle.pid.specs.Fixes.{IsInRange};
ghost use Rattle.plant_model.specs.Versions.{IsDemand};
ghost use Rattle.plant_core.specs.Kept.{IsReady};
ghost use Rattle.plant_core.specs.Sensing.{IsPositionReply, after_position, after_wind, late};
ghost use Rattle.plant_core.specs.Sensing.{latest_for, sensed, wind_reply};
ghost use Rattle.telegram.specs.Telegrams.{IsWind};

use crate::call::Reply;
use crate::state::State;
use pid::{Fix, errors};
use plant_model::plant::Plant;
use plant_model::status::Version;
use plant_model::wrench::separate;
use thrust_allocation::Allocate;
use wind_axes::wind_force;

/// The last moment, where this moment isn't after it.
fn late(last: Option<u32>, moment: u32) -> Option<u32>
    ensures { result ≡ late last moment }
{
    last.filter(|last| moment <= *last)
}

/// The reply to a wind of this moment, and the state after it.
pub(crate) fn wind(
    plant: &Plant,
    state: &State,
    moment: u32,
    speed: u32,
    angle: u32,
) -> (Reply, State)
    requires { IsWind speed angle }
    ensures reply { result.0 ≡ wind_reply state.now moment }
    ensures state { result.1 ≡ after_wind plant.now state.now moment speed angle }
{
    if let Some(last) = late(state.last_wind, moment) {
        return (Reply::Late { last }, *state);
    }
    let next = State {
        last_wind: Some(moment),
        wind: wind_force(plant.wind(), speed, angle),
        ..*state
    };
    (Reply::Taken, next)
}

/// The state with the demand at a position of this moment, which is after the last one's.
fn sensed(state: &State, moment: u32, at: Fix) -> State
    requires ready { IsReady state.now }
    requires after { late state.now.last_position moment ≡ None }
    requires at { IsInRange at }
    ensures state { result ≡ sensed state.now moment at }
    ensures demand { IsDemand result.demand }
{
    let mut next = *state;
    next.last_position = Some(moment);
    next.demand = if state.is_manual {
        state.manual
    } else {
        let errors = errors(state.set_point, at);
        next.controller.step(moment, errors, state.wind)
    };
    next
}

/// The latest version where this is asked of the thrusters: a new one where it differs from what the latest asks
/// by more than the plant's band.
fn latest_for(plant: &Plant, state: &State) -> Version
    requires number { state.now.latest.number + 1 < 2 ^ 32 }
    requires demand { IsDemand state.now.demand }
    ensures { result ≡ latest_for plant.now state.now }
{
    let latest = &state.latest;
    if separate(state.demand, latest.demand, *plant.band()) {
        Version {
            number: latest.number + 1,
            status: latest.status,
            demand: state.demand,
        }
    } else {
        *latest
    }
}

/// The reply to a position of this moment, and the state after it.
pub(crate) fn position<A: Allocate>(
    plant: &Plant,
    state: &State,
    moment: u32,
    at: Fix,
    allocator: &A,
) -> (Reply, State)
    requires number { state.now.latest.number + 1 < 2 ^ 32 }
    requires ready { IsReady state.now }
    requires at { IsInRange at }
    ensures reply { IsPositionReply plant.now state.now moment at result.0 }
    ensures state { result.1 ≡ after_position plant.now state.now moment at }
{
    if let Some(last) = late(state.last_position, moment) {
        return (Reply::Late { last }, *state);
    }
    let next = sensed(state, moment, at);
    let latest = latest_for(plant, &next);
    let reply = Reply::Commanded {
        version: latest.number,
        demand: next.demand,
        allocation: allocator.allocate(plant, &latest.status, next.demand),
    };
    (reply, State { latest, ..next })
}
