//! A drill: a session over two streams that are drawn from a number, with a summary that is the same however its callers
//! interleave.
#![tactic(auto)]

mod call;
mod recorded;
mod session;

pub use call::{drill_call, names_drill};
