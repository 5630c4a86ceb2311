//! Direct allocation: the greatest part of a demand that the thrusters can give, and the thrusts
//! that give it. Of the choices of one piece for each thruster each is asked how far along the
//! demand its sums of thrusts reach, but for those that a direction shows to reach no farther than
//! the best so far; the first that reaches farthest gives the thrusts. Nothing here overflows, and
//! nothing takes memory.
#![tactic(auto)]

mod direct;
mod passing;
mod reach;
mod thrusts;

pub use direct::{Direct, allocate};
