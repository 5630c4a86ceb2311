//! All that the program does: the call that chooses, by its words, between a session over two streams, a session over
//! recorded telegrams, a check, a vote, a capability and a drill.
#![tactic(auto)]

mod program;
mod watch;

pub use program::run;
