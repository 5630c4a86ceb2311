//! Tests of the machine and of what it stands on, by public calls.
#![tactic(auto)]

#[cfg(test)]
mod alarms;
#[cfg(test)]
mod allocations;
#[cfg(test)]
mod controller;
#[cfg(test)]
mod machine;
#[cfg(test)]
mod memory;
#[cfg(test)]
mod numbers;
#[cfg(test)]
mod outcomes;
#[cfg(test)]
mod replies;
#[cfg(test)]
mod streams;
#[cfg(test)]
mod texts;
#[cfg(test)]
mod turns;
#[cfg(test)]
mod wind;
