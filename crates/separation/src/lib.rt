//! The least cut: of all whole directions the one in which a demand passes the soonest what the thrusters reach
//! together. Nothing here overflows, and nothing takes memory.
#![tactic(auto)]

mod candidates;
mod directions;

pub use candidates::{least_cut, least_cut_counted};
pub use directions::{DIRECTION_FORCE, DIRECTION_MOMENT, NORMAL_FORCE, NORMAL_MOMENT};
pub use wrench_geometry::{CUT_PARTS_BELOW, Cut};
