//! Telegrams: what the bodies of frames say, and how they are spelled.
//!
//! A body is a list of fields between commas, of which the first says the kind. A number is `0`, or
//! an optional `-`, a digit from 1 to 9 and further digits. Nothing here takes memory.
#![tactic(auto)]

mod numbers;
mod reading;
mod telegram;
mod writing;

pub use numbers::{number, number_in};
pub use reading::read;
pub use telegram::{Reject, Telegram};
pub use writing::{telegrams_are_exact, write};
