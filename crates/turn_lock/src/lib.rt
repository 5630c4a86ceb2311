//! A ticket lock round one value that keeps a list of entries. Callers take turns by passes, each
//! of which shows a front of that one list.
#![tactic(auto)]

mod keeps;
mod pass;
mod plays;
mod turn;
mod view;

pub use keeps::Keeps;
pub use pass::{LAST_PASS, Pass};
pub use turn::Turn;
