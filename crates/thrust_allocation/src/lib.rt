//! What is asked of whoever allocates a demand to the thrusters.
#![tactic(auto)]

mod allocation;

pub use allocation::{Allocate, Allocation};
