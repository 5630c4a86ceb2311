//! Tests of all that leads to a verdict on a loss: islands and shares of power, what thrusters give
//! after a loss, their vectors, least cuts, exits, the checker, and the analysis; and of what losses
//! leave of demands and of the wind. By public calls alone.
#![tactic(auto)]

#[cfg(test)]
mod capabilities;
#[cfg(test)]
mod checker;
#[cfg(test)]
mod exits;
#[cfg(test)]
mod islands;
#[cfg(test)]
mod least_cuts;
#[cfg(test)]
mod losses;
#[cfg(test)]
mod pieces;
#[cfg(test)]
mod statuses;
#[cfg(test)]
mod sums;
#[cfg(test)]
mod vectors;
#[cfg(test)]
mod verdicts;
