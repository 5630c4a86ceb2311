//! The controller that keeps a vessel at a wanted position and heading. Nothing here overflows, and
//! no call has an allocator, so none takes memory.
#![tactic(auto)]

mod axis;
mod control;
mod position;

pub use axis::{PerAxis, Sample};
pub use control::Controller;
pub use position::{Fix, FixErrors, errors};
