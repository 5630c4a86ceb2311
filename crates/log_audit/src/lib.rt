//! Whether a text is the log of a legal history of a plant, or all that a session writes of one.
#![tactic(auto)]

mod auditor;
mod beside;
mod compare;
mod front;
mod head;
mod laws;
mod log;
mod log_part;
mod part;
mod session;
mod shares;
mod stage;
mod steps;
mod text;
mod totals;
mod verdict;

pub use auditor::{Auditor, MOST_LINES};
pub use laws::{replies_are_alike, twins_stand_alike, verdicts_are_one};
pub use text::verdict_on;
pub use verdict::Verdict;
