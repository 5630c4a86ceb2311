//! Alarms: raised, cleared and acknowledged, of which the latest are kept. Only `Alarms::new` takes
//! memory.
#![tactic(auto)]

mod alarm;
mod alarms;

pub use alarm::{Alarm, Cause};
pub use alarms::{Alarms, alarms_are_a_fold};
