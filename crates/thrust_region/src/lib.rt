//! What thrusters can give after a loss: the convex pieces into which sectors cut a ring, pieces at a part of their
//! power, and the choices of one piece for each thruster. Nothing here takes memory.
#![tactic(auto)]

mod cutting;
mod exact;
mod piece;
mod region;
mod regions;
mod scaling;

pub use cutting::cut_ring;
pub use exact::pieces_are_exact;
pub use region::Region;
pub use regions::{Chosen, Regions, choice, choices};
pub use scaling::scaled;
