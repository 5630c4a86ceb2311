//! The streams of a drill: what a number makes of sensors and operators of the demo plant.
#![tactic(auto)]

mod draws;
mod law;
mod steps;
mod streams;

pub use law::drills_are_read;
pub use no_memory::NoMemory;
pub use streams::{DrillStreams, MOST_DRILL_STEPS, drill_streams};
