//! A session over two streams that are read at the same time, with workers beside them: what the program does on board.
#![tactic(auto)]

mod asking;
mod callers;
mod crew;
mod ending;
mod looping;
mod nowhere;
mod reading;
mod session;
mod shared;
mod stopping;
mod stream;

pub use ending::watch_session;
pub use nowhere::Nowhere;
pub use session::{Watched, watch};
pub use stream::{Stream, StreamEnd, StreamEnds};
