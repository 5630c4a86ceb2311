//! Angles in whole numbers: sines, turned axes, and what the wind does to a hull. Nothing here
//! overflows, and no call has an allocator, so none takes memory.
#![tactic(auto)]

mod angle;
mod wind;

pub use angle::{MOST_OFFSET, WHOLE_SINE, constants_are_told, cosine, rotate, sine};
pub use wind::{demo_wind_is_of_sines, wind_force};
