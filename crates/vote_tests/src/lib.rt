//! Tests of the vote of three position references, and of its command.
#![tactic(auto)]

#[cfg(test)]
mod calls;
#[cfg(test)]
mod tests;
