//! Tests of displays over a small value, through public calls alone.
#![tactic(auto)]

#[cfg(test)]
mod count;
#[cfg(test)]
mod tests;
