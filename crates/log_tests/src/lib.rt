//! Tests of the lines of a log, by public calls.
#![tactic(auto)]

#[cfg(test)]
mod lines;
