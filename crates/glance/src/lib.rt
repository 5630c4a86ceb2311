//! Displays that are looked at without waiting, while one writer goes on publishing boards.
#![tactic(auto)]

mod display;
mod identity;
mod law;
mod rule;
mod shot;
mod shows;
mod stage;
mod writer;

pub use display::{Glance, GlancePass};
pub use identity::Identity;
pub use shows::Shows;
pub use writer::{DISPLAYS, GlanceWriter};
