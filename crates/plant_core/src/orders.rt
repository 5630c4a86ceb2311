//! What the operators order of the machine: its mode, where the vessel is to be, and a demand of their own.
ghost use Rattle.std.specs.Prelude.{◌≡◌};
ghost use Rattle.plant_core.specs.Orders.{after_manual, after_mode, after_set_point};
ghost use Rattle.plant_core.specs.Orders.{manual_reply, mode_reply, restarted, set_point_reply};

use crate::call::Reply;
use crate::state::State;
use pid::Fix;
use plant_model::wrench::Wrench;

/// The state with its controller at a fresh start.
fn restarted(state: &State) -> State
    ensures { result ≡ restarted state.now }
{
    let mut next = *state;
    next.controller.reset();
    next
}

/// The reply to an order of this mode, and the state after it.
pub(crate) fn mode(state: &State, is_manual: bool) -> (Reply, State)
    ensures reply { result.0 ≡ mode_reply state.now is_manual }
    ensures state { result.1 ≡ after_mode state.now is_manual }
{
    if state.is_manual == is_manual {
        return (Reply::Same, *state);
    }
    let next = State {
        is_manual,
        manual: Wrench::default(),
        ..restarted(state)
    };
    (Reply::Taken, next)
}

/// The reply to a set point, and the state after it.
pub(crate) fn set_point(state: &State, set_point: Fix) -> (Reply, State)
    ensures reply { result.0 ≡ set_point_reply state.now }
    ensures state { result.1 ≡ after_set_point state.now set_point }
{
    if state.is_manual {
        return (Reply::WrongMode, *state);
    }
    let next = State {
        set_point,
        ..restarted(state)
    };
    (Reply::Taken, next)
}

/// The reply to a demand of the operators, and the state after it.
pub(crate) fn manual(state: &State, demand: Wrench) -> (Reply, State)
    ensures reply { result.0 ≡ manual_reply state.now }
    ensures state { result.1 ≡ after_manual state.now demand }
{
    if !state.is_manual {
        return (Reply::WrongMode, *state);
    }
    let next = State {
        manual: demand,
        ..*state
    };
    (Reply::Taken, next)
}
