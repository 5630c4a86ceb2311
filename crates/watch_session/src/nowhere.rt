//! A sink for what nobody reads.
ghost use Rattle.std.specs.Prelude.{None};

use dp_io::{Failed, Sink};

/// A sink that takes all, tells nothing and never fails: for the frames of a stream that has no commands, and of a session
/// whose frames nobody reads.
#[derive(Clone, Copy, Debug, PartialEq, Eq)]
pub struct Nowhere;

impl Sink for Nowhere {
    ghost taken = { λ sink. None };

    ghost faults = { λ sink. 0 };

    fn write(&mut self, piece: &[u8]) -> Result<usize, Failed> {
        Ok(piece.len())
    }
}
