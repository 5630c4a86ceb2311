//! Outcomes of a consequence analysis, and whether one is valid. Nothing here takes memory.
#![tactic(auto)]

mod checker;
mod cut;
mod demand;
mod holds;
mod hull;
mod law;
mod lost;
mod outcome;
mod totals;

pub use checker::{check, judge};
pub use cut::check_cut;
pub use demand::{ahead, vector_of};
pub use holds::{judge_holds, lies_beside};
pub use hull::lies;
pub use law::outcomes_tell;
pub use lost::judge_lost;
pub use outcome::{Cuts, Outcome, Place};
