//! Jobs that wait in one queue for whichever worker takes them, and the rest of those that wait for
//! jobs.
#![tactic(auto)]

mod job;
mod jobs;
mod rest;
mod rule;

pub use job::Job;
pub use jobs::{JobPass, Jobs};
pub use rest::Rest;
pub use rule::{Conserved, Hand};
