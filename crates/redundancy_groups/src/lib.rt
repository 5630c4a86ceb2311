//! What of a plant stands after the loss of a redundancy group, and what each thruster can give
//! then. Nothing here takes memory.
#![tactic(auto)]

mod exact;
mod fixed;
mod regions;
mod stands;

pub use exact::shares_are_exact;
pub use fixed::{MOST_FIXED_LOAD, fixed_load};
pub use regions::surviving;
pub use stands::standing;
