//! How much of a demand, and how much wind, each loss leaves, as the text that the command `capability` writes.
#![tactic(auto)]

mod call;
mod lines;
mod margins;
mod writing;

pub use call::{capability_call, names_capability};
