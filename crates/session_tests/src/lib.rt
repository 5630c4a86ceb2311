//! Tests of whole sessions, checks and capabilities over memory: what is written, and the status.
#![tactic(auto)]

#[cfg(test)]
mod capabilities;
#[cfg(test)]
mod checks;
#[cfg(test)]
mod commands;
#[cfg(test)]
mod faults;
#[cfg(test)]
mod limits;
#[cfg(test)]
mod memory;
#[cfg(test)]
mod plant_files;
#[cfg(test)]
mod sessions;
#[cfg(test)]
mod ships;
#[cfg(test)]
mod tables;
#[cfg(test)]
mod texts;
