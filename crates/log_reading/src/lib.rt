//! From the lines of a log to its entries.
//!
//! A line is read by its fields, each of which has one spelling. Nothing here takes memory.
#![tactic(auto)]

mod calls;
mod fields;
mod lines;
mod outcomes;
mod replies;

pub use lines::{lines_tell_entries, read_entry};
