//! Which sections of the switchboard are connected after a loss, and which share of the full power
//! there is for the thrusters on them. Nothing here takes memory.
//!
//! A section is live where it is there and isn't lost. A tie joins its two sections where it is
//! closed and both are live. An island is a class of live sections that chains of such ties
//! connect.
#![tactic(auto)]

mod map;
mod power;

pub use map::{IslandMap, islands};
pub use power::{quarter, share};
