//! A source of bytes in memory that never fails.
ghost use Rattle.std.specs.Prelude.{◌≡◌, Some};

use dp_io::{Failed, Source};
use std::marker::Model;

/// Bytes in memory, which are read from the front. No read fails.
#[derive(Debug, Drop)]
pub(crate) struct Recorded {
    bytes: Vec<u8>,
    given: usize,
}

impl Model for Recorded {
    ghost use Rattle.std.specs.Prelude.{ℕ, List, ◌≤◌, vec_len, drop};

    ghost Value = { List ℕ };

    ghost view = { λ s. drop s.given s.bytes.items };

    ghost invariant = { λ s. s.given ≤ vec_len s.bytes };
}

impl Recorded {
    /// A source that has all of the bytes left.
    pub(crate) fn new(bytes: Vec<u8>) -> Recorded
        ensures { result ≡ bytes.items }
    {
        Recorded { bytes, given: 0 }
    }
}

impl Source for Recorded {
    ghost left = { λ bytes. Some bytes };

    ghost faults = { λ bytes. 0 };

    fn read(&mut self, into: &mut [u8]) -> Result<usize, Failed> {
        let left = &self.bytes[self.given..];
        let count = left.len().min(into.len());
        into[..count].copy_from_slice(&left[..count]);
        self.given += count;
        Ok(count)
    }
}
