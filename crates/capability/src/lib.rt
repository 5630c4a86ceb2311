//! How much of a demand a loss leaves, and how much wind a plant holds at each angle. Nothing here
//! overflows, and nothing takes memory.
#![tactic(auto)]

mod limit;
mod parts;
mod speeds;

pub use limit::{MOST_LOSSES, Next, Step, WindLimit, wind_limit};
pub use parts::{Margin, reserve};
pub use speeds::path;
