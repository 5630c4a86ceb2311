//! The ring of alarms.
ghost use Rattle.std.specs.Prelude.{◌≡◌, ◌+◌, ◌<◌, ◌≤◌, length, slice_get, IfOk};
ghost use Rattle.std.specs.Bool.{OnFalse};
ghost use Rattle.alarm_log.specs.Alarms.{AreAFold, after_acknowledge, after_clear};
ghost use Rattle.alarm_log.specs.Alarms.{after_clear_consequences, after_raise, is_active_in};
ghost use Rattle.alarm_log.specs.Alarms.{is_unacknowledged_in, no_alarms};

use crate::alarm::{Alarm, Cause, acknowledge, clear, clear_consequences};
use circular_buffer::HeapCircularBuffer;
use no_memory::NoMemory;
use plant_model::limits::{LAST_ALARM, MOST_ALARMS};
use std::alloc::Global;
use std::marker::Model;

/// The latest alarms, in the order in which they were raised. Contracts see how many were ever
/// raised, and the kept ones.
#[derive(Debug, Drop)]
pub struct Alarms {
    raised: u32,
    ring: HeapCircularBuffer<Alarm>,
}

impl Model for Alarms {
    ghost use Rattle.std.specs.Prelude.{◌≡◌, ◌≤◌};
    ghost use Rattle.alarm_log.specs.Alarms.{AlarmBook};
    ghost use Rattle.plant_model.specs.declared.limits.TheConstants.{MOST_ALARMS};

    ghost Value = { AlarmBook };

    ghost view = { λ alarms. record { raised = alarms.raised; ring = alarms.ring.items } };

    ghost invariant = { λ alarms. alarms.ring.capacity ≡ MOST_ALARMS };
}

impl Alarms {
    /// An empty ring. It has its memory for good.
    pub fn new(alloc: Global) -> Result<Alarms, NoMemory>
        ensures { IfOk result (λ alarms. alarms ≡ no_alarms) }
    {
        let ring = HeapCircularBuffer::with_capacity(alloc, MOST_ALARMS)?;
        Ok(Alarms { raised: 0, ring })
    }

    /// Appends an active, unacknowledged alarm, and answers its number, the next one. A full ring
    /// loses its oldest alarm. Fewer than [`LAST_ALARM`] alarms were raised.
    pub fn raise(&mut self, cause: Cause) -> u32
        requires { self.old.raised < LAST_ALARM }
        ensures number { result ≡ self.old.raised + 1 }
        ensures book { self.new ≡ after_raise cause self.old }
    {
        self.raised += 1;
        let alarm = Alarm {
            number: self.raised,
            cause,
            active: true,
            acknowledged: false,
        };
        self.ring.push_back(alarm);
        self.raised
    }

    /// Makes the alarms of the cause inactive.
    pub fn clear(&mut self, cause: Cause)
        ensures { self.new ≡ after_clear cause self.old }
    {
        clear(self.ring.make_contiguous(), cause);
    }

    /// Makes all consequence alarms inactive, of whatever group.
    pub fn clear_consequences(&mut self)
        ensures { self.new ≡ after_clear_consequences self.old }
    {
        clear_consequences(self.ring.make_contiguous());
    }

    /// Whether an alarm of the cause is active.
    pub fn is_active(&self, cause: Cause) -> bool
        ensures { result ≡ is_active_in cause self.now }
    {
        self.ring
            .iter()
            .any(|alarm| alarm.active && alarm.cause == cause)
    }

    /// Acknowledges the alarm of the number. False exactly where no unacknowledged alarm in the
    /// ring has it, and then nothing changes.
    pub fn acknowledge(&mut self, number: u32) -> bool
        ensures found { result ≡ is_unacknowledged_in number self.old }
        ensures book { self.new ≡ after_acknowledge number self.old }
        ensures kept { OnFalse result (self.new ≡ self.old) }
    {
        if !self.is_unacknowledged(number) {
            return false;
        }
        acknowledge(self.ring.make_contiguous(), number);
        true
    }

    /// Whether an alarm in the ring has the number and is unacknowledged.
    pub fn is_unacknowledged(&self, number: u32) -> bool
        ensures { result ≡ is_unacknowledged_in number self.now }
    {
        self.ring
            .iter()
            .any(|alarm| alarm.number == number && !alarm.acknowledged)
    }

    /// How many alarms are in the ring.
    pub fn count(&self) -> usize
        ensures count { result ≡ length self.now.ring }
        ensures within { result ≤ MOST_ALARMS }
    {
        self.ring.len()
    }

    /// The alarm at a place, which is below the count. The oldest is at 0.
    pub fn at(&self, place: usize) -> Alarm
        requires { place < length self.now.ring }
        ensures { slice_get self.now.ring place ≡ Some result }
    {
        match self.ring.get(place) {
            Some(alarm) => *alarm,
            None => unreachable!(),
        }
    }
}

/// Whatever alarms are raised, cleared and acknowledged, one event after another leaves the last of
/// all alarms that the events raise. Of these each is active where no later event clears its cause,
/// and acknowledged where a later event acknowledges its number.
pub fn alarms_are_a_fold()
    ensures { AreAFold }
{}
