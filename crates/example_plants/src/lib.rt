//! Plants that tests ask about, each made once. What contracts say of them is how many parts a call
//! may name. Nothing here takes memory.
#![tactic(auto)]

mod parts;
mod ships;
mod thrusters;

pub use ships::{built_in, guarded_ship, ship, ship_of_five, ship_of_six};
