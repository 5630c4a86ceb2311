//! Telegram frames: from the bytes of a stream to the bodies in it.
//!
//! A frame is a line `$`, a body, `*` and two hexadecimal digits, which are the exclusive or of the
//! body's bytes.
#![tactic(auto)]

mod body;
mod framer;
mod item;
mod lengths;
mod writing;

pub use body::{Body, MOST_BODY_BYTES};
pub use framer::Framer;
pub use item::{Damage, Item, MOST_FRAME_BYTES, frames_are_exact, written_frames_are_read};
pub use lengths::lengths_are_told;
pub use writing::{MOST_FRAME_TEXT_BYTES, write_frame};
