//! An alarm and its cause, and what happens to alarms that were raised.
ghost use Rattle.std.specs.Prelude.{◌≡◌, map};
ghost use Rattle.alarm_log.specs.Alarms.{acknowledged_of, cleared_of, consequence_cleared_of};

/// Why an alarm is raised.
#[derive(Clone, Copy, Debug, PartialEq, Eq)]
pub enum Cause {
    /// The demand could not be met after the loss of this redundancy group, by its place.
    Consequence(u32),
    /// The thrusters give less than the demand.
    Short,
}

/// An alarm. It is active until its cause is cleared, and unacknowledged until its number is
/// acknowledged.
#[derive(Clone, Copy, Debug, PartialEq, Eq)]
pub struct Alarm {
    /// Alarms are numbered as they are raised, from 1.
    pub number: u32,
    pub cause: Cause,
    pub active: bool,
    pub acknowledged: bool,
}

fn cleared(alarm: Alarm, cause: Cause) -> Alarm
    ensures { result ≡ cleared_of cause alarm }
{
    Alarm {
        active: alarm.active && alarm.cause != cause,
        ..alarm
    }
}

fn consequence_cleared(alarm: Alarm) -> Alarm
    ensures { result ≡ consequence_cleared_of alarm }
{
    match alarm.cause {
        Cause::Consequence(_) => Alarm {
            active: false,
            ..alarm
        },
        Cause::Short => alarm,
    }
}

fn acknowledged(alarm: Alarm, number: u32) -> Alarm
    ensures { result ≡ acknowledged_of number alarm }
{
    Alarm {
        acknowledged: alarm.acknowledged || alarm.number == number,
        ..alarm
    }
}

/// Makes the alarms of the cause inactive.
pub fn clear(alarms: &mut [Alarm], cause: Cause)
    ensures { alarms.new ≡ map (cleared_of cause) alarms.old }
{
    for alarm in alarms.iter_mut() {
        *alarm = cleared(*alarm, cause);
    }
}

/// Makes all consequence alarms inactive.
pub fn clear_consequences(alarms: &mut [Alarm])
    ensures { alarms.new ≡ map consequence_cleared_of alarms.old }
{
    for alarm in alarms.iter_mut() {
        *alarm = consequence_cleared(*alarm);
    }
}

/// Marks the alarm of the number as acknowledged.
pub fn acknowledge(alarms: &mut [Alarm], number: u32)
    ensures { alarms.new ≡ map (acknowledged_of number) alarms.old }
{
    for alarm in alarms.iter_mut() {
        *alarm = acknowledged(*alarm, number);
    }
}
