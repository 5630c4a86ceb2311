//! The verdict on a text.

/// Whether a text is the log of a legal history of a plant.
#[derive(Clone, Copy, Debug, PartialEq, Eq)]
pub enum Verdict {
    /// It is, and the history has so many entries.
    Legal { entries: u32 },
    /// It isn't. The line is the first that is bad, counted from 1.
    NotALog { line: u32 },
}
