//! Three position references, of which one position is made for each round, and the command `vote`.
//!
//! A reference says where the vessel is, by a sensor of its own. Those of one moment make a round, and
//! the third of a round gives its answer: along each axis the middle one of the three, and the heading
//! that is nearest to the others. So one bad reference moves nothing outside of what the two others
//! say. The command is a filter of a stream, which makes these positions or a report on the
//! references, and writes what an item gives before it reads on. Nothing here takes memory.
#![tactic(auto)]

mod call;
mod heard;
mod line;
mod median;
mod reading;
mod reference;
mod stream;
mod vote;
mod watch;

pub use call::{names_vote, vote_call};
pub use median::{MOST_OFF_COURSE, MOST_OFF_POSITION};
pub use reading::read_reference;
pub use reference::{REFERENCES, Reference};
pub use vote::{Vote, Voted, one_bad_reference_moves_nothing_outside};
