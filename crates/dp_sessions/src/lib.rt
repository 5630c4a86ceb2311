//! The session over recorded telegrams and the check of a demand, each of the plant that a word names, and their top
//! calls.
#![tactic(auto)]

mod check;
mod findings;
mod replay;
mod session;

pub use check::{check as check_demand, check_call};
pub use replay::{replay as replay_telegrams, replay_call};
pub use session::{Ended, Ending, has_lost_cell, write_command, write_history};
