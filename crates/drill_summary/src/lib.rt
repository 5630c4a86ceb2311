//! What a drill comes to: a summary of its history that is the same for all histories of its two streams.
#![tactic(auto)]

mod count;
mod law;
mod text;

pub use law::{drills_are_one, parts_are_apart, summaries_are_one};
pub use no_memory::NoMemory;
pub use text::drill_text;
