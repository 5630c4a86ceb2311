//! Tests of verdicts on logs, by public calls.
#![tactic(auto)]

#[cfg(test)]
mod logs;
