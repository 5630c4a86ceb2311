//! Tests of the streams of drills, and of what drills come to.
#![tactic(auto)]

#[cfg(test)]
mod streams;
#[cfg(test)]
mod summaries;
