//! Tests of jobs, of a worker and of the sweep, by public calls. It has no other code.
#![tactic(auto)]

#[cfg(test)]
mod jobs;
#[cfg(test)]
mod workers;
