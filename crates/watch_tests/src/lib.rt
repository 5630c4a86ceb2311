//! Tests of `dp run` and `dp drill` over streams in memory, with gates that hold their callers back.
#![tactic(auto)]

#[cfg(test)]
mod drills;
#[cfg(test)]
mod gates;
#[cfg(test)]
mod memory;
#[cfg(test)]
mod sessions;
