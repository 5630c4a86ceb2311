//! Whether what a loss leaves of a plant meets a demand, with what shows it. Nothing here
//! overflows, and nothing takes memory.
#![tactic(auto)]

mod analysis;
mod choosing;
pub mod lowest;
pub mod mean;
mod outside;
mod step;
mod subtrees;
mod tents;

pub use analysis::{analyse, verdict};
pub use choosing::choose;
pub use step::{cut_off, held};
pub use subtrees::{cut_off_from, spread};
pub use tents::tent_in;
