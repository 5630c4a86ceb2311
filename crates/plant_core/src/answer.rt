//! The answers to calls, and the state after them.
ghost use Rattle.std.specs.Prelude.{◌≡◌, ◌+◌, ◌<◌, ◌^◌};
ghost use Rattle.plant_core.specs.Kept.{IsReady};
ghost use Rattle.plant_core.specs.Machine.{IsCall, IsReply, IsTelegramReply, ack_reply};
ghost use Rattle.plant_core.specs.Machine.{after_call, after_telegram};
ghost use Rattle.telegram.specs.Telegrams.{IsTelegram};

use crate::board::{cells, publish};
use crate::call::{Call, Reply};
use crate::orders::{manual, mode, set_point};
use crate::sensing::{position, wind};
use crate::state::State;
use crate::switch::{
    bar_switching, generator_switching, switch, thruster_switching, tie_switching,
};
use alarm_log::Alarms;
use pid::Fix;
use plant_model::plant::Plant;
use telegram::Telegram;
use thrust_allocation::Allocate;

/// The reply to the acknowledgement of the alarm of this number.
fn acknowledged(alarms: &Alarms, number: u32) -> Reply
    ensures { result ≡ ack_reply alarms.now number }
{
    if alarms.is_unacknowledged(number) {
        Reply::Taken
    } else {
        Reply::NoSuchAlarm
    }
}

/// The answer to a telegram, and the state after it, before it is counted.
fn answer_telegram<A: Allocate>(
    plant: &Plant,
    state: &State,
    alarms: &Alarms,
    telegram: &Telegram,
    allocator: &A,
) -> (Reply, State)
    requires number { state.now.latest.number + 1 < 2 ^ 32 }
    requires ready { IsReady state.now }
    requires telegram { IsTelegram telegram.now }
    ensures reply { IsTelegramReply plant.now state.now alarms.now telegram.now result.0 }
    ensures state { result.1 ≡ after_telegram plant.now state.now telegram.now }
{
    let status = &state.latest.status;
    match telegram {
        Telegram::Position {
            moment,
            x,
            y,
            heading,
        } => {
            let at = Fix {
                x: *x,
                y: *y,
                heading: *heading,
            };
            position(plant, state, *moment, at, allocator)
        }
        Telegram::Wind {
            moment,
            speed,
            angle,
        } => wind(plant, state, *moment, *speed, *angle),
        Telegram::Setpoint { x, y, heading } => {
            let wanted = Fix {
                x: *x,
                y: *y,
                heading: *heading,
            };
            set_point(state, wanted)
        }
        Telegram::Thruster { name, selected } => {
            switch(state, thruster_switching(plant, status, name, *selected))
        }
        Telegram::Generator { name, running } => {
            switch(state, generator_switching(plant, status, name, *running))
        }
        Telegram::Tie { name, closed } => {
            switch(state, tie_switching(plant, status, name, *closed))
        }
        Telegram::Mode { manual } => mode(state, *manual),
        Telegram::Manual { demand } => manual(state, *demand),
        Telegram::Ack { number } => (acknowledged(alarms, *number), *state),
        Telegram::Board => (Reply::Cells(cells(plant, state)), *state),
        Telegram::Bar {
            name,
            piece,
            barred,
        } => switch(state, bar_switching(plant, status, name, *piece, *barred)),
    }
}

/// The answer to a call for which there is room, and the state after it.
pub(crate) fn answer<A: Allocate>(
    plant: &Plant,
    state: &State,
    alarms: &Alarms,
    call: &Call,
    allocator: &A,
) -> (Reply, State)
    requires number { state.now.latest.number + 1 < 2 ^ 32 }
    requires events { state.now.events + 1 < 2 ^ 32 }
    requires ready { IsReady state.now }
    requires call { IsCall plant.now call.now }
    ensures reply { IsReply plant.now (record { state = state.now; alarms = alarms.now }) call.now
        result.0 }
    ensures state { result.1 ≡ after_call plant.now state.now call.now result.0 }
{
    match call {
        Call::Telegram(telegram) => {
            let (reply, mut next) = answer_telegram(plant, state, alarms, telegram, allocator);
            next.events = state.events + 1;
            (reply, next)
        }
        Call::Note(_) => {
            let mut next = *state;
            next.events += 1;
            (Reply::Noted, next)
        }
        Call::Publish {
            version,
            group,
            outcome,
        } => publish(plant, state, *version, *group, outcome),
        Call::Close => {
            let mut next = *state;
            next.is_closed = true;
            (Reply::Taken, next)
        }
    }
}
