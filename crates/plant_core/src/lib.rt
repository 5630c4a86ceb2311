//! The plant as a machine over calls: each call is judged by the history of the calls before it, answered, and
//! becomes the history's next entry.
#![tactic(auto)]

mod alarming;
mod answer;
mod board;
mod call;
mod machine;
mod orders;
mod sensing;
mod state;
mod switch;

pub use call::{Call, Entry, Note, Reply};
pub use certificate::{Outcome, Place};
pub use machine::{
    Core, NoMemory, every_interleaving_is_legal, legal_by_steps, shown_verdicts_are_valid,
};
pub use plant_model::board::{Cell, Cells};
pub use state::{State, Verdict};
pub use thrust_allocation::{Allocate, Allocation};
