//! Workers that take jobs and publish verdicts on them, and the sweep that publishes those that are
//! missing at the end.
#![tactic(auto)]

mod sweeping;
mod verdict;
mod working;

pub use sweeping::sweep;
pub use verdict::publish_verdict;
pub use working::work;
