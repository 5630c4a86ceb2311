//! What a call and its reply tell the alarms.
ghost use Rattle.std.specs.Prelude.{◌≡◌, ◌<◌};
ghost use Rattle.plant_core.specs.Alarming.{after_notice, alarms_after, notice_of};
ghost use Rattle.plant_core.specs.Alarming.{notice_of_command, notice_of_taken, notice_of_verdict};

use crate::call::{Call, Reply};
use crate::state::State;
use alarm_log::{Alarms, Cause};
use certificate::Outcome;
use plant_model::limits::LAST_ALARM;
use telegram::Telegram;
use thrust_allocation::Allocation;

/// What a call and its reply tell the alarms.
#[derive(Clone, Copy, Debug, PartialEq, Eq)]
pub enum Notice {
    Nothing,
    /// The demand isn't met after the loss of this group.
    Lost(u32),
    /// It is.
    Held(u32),
    /// The thrusters give less than the demand.
    Short,
    /// They give the demand.
    Given,
    /// The alarm of this number is acknowledged.
    Acknowledged(u32),
}

fn notice_of_command(allocation: &Allocation) -> Notice
    ensures { result ≡ notice_of_command allocation.now }
{
    if allocation.fraction.top < allocation.fraction.bottom {
        Notice::Short
    } else {
        Notice::Given
    }
}

fn notice_of_verdict(call: &Call) -> Notice
    ensures { result ≡ notice_of_verdict call.now }
{
    match call {
        Call::Publish { group, outcome, .. } => match outcome {
            Outcome::Holds { .. } => Notice::Held(*group),
            Outcome::Lost { .. } => Notice::Lost(*group),
        },
        _ => Notice::Nothing,
    }
}

fn notice_of_taken(call: &Call) -> Notice
    ensures { result ≡ notice_of_taken call.now }
{
    match call {
        Call::Telegram(Telegram::Ack { number }) => Notice::Acknowledged(*number),
        _ => Notice::Nothing,
    }
}

/// What the call tells the alarms where it has this reply.
pub(crate) fn notice_of(call: &Call, reply: &Reply) -> Notice
    ensures { result ≡ notice_of call.now reply.now }
{
    match reply {
        Reply::Commanded { allocation, .. } => notice_of_command(allocation),
        Reply::Shown => notice_of_verdict(call),
        Reply::Taken => notice_of_taken(call),
        _ => Notice::Nothing,
    }
}

/// Tells the alarms that the machine went from one state to another. Fewer than [`LAST_ALARM`] were raised.
pub(crate) fn alarm(alarms: &mut Alarms, before: &State, after: &State, notice: Notice)
    requires { alarms.old.raised < LAST_ALARM }
    ensures { alarms.new ≡ alarms_after before.now after.now notice alarms.old }
{
    if before.latest.number != after.latest.number {
        alarms.clear_consequences();
    }
    take_notice(alarms, notice);
}

fn take_notice(alarms: &mut Alarms, notice: Notice)
    requires { alarms.old.raised < LAST_ALARM }
    ensures { alarms.new ≡ after_notice notice alarms.old }
{
    match notice {
        Notice::Nothing => {}
        Notice::Lost(group) => {
            alarms.raise(Cause::Consequence(group));
        }
        Notice::Held(group) => alarms.clear(Cause::Consequence(group)),
        Notice::Short => {
            if !alarms.is_active(Cause::Short) {
                alarms.raise(Cause::Short);
            }
        }
        Notice::Given => alarms.clear(Cause::Short),
        Notice::Acknowledged(number) => {
            alarms.acknowledge(number);
        }
    }
}
