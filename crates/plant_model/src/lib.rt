//! The plain types of a plant: what stands in it, how it stands, and what is asked of it.
//!
//! The x axis points forward, the y axis to starboard, and yaw is positive from x to y.
#![tactic(auto)]

pub mod board;
pub mod controller;
pub mod demo;
pub mod limits;
pub mod name;
pub mod parts;
pub mod plant;
pub mod status;
pub mod thrust;
pub mod wrench;
