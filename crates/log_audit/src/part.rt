//! How far a text was read that may be all that a session writes.

use crate::stage::Stage;

/// How far the lines of a text are those of the commands' frames, the log and the report of a history.
#[derive(Clone, Copy, Debug, PartialEq, Eq)]
pub enum Part {
    /// No line begins a log. It is cut where one of the lines can't be a frame's.
    Front { is_cut: bool },
    /// The last line is the log's.
    Log,
    /// The last line is the report's, of which so many bytes were read.
    Report { taken: usize },
    /// This line is bad, and none before it.
    Bad { line: u32 },
}

/// How far a text was read: as a log, or as all that a session writes.
#[derive(Clone, Copy, Debug, PartialEq, Eq)]
pub enum Reading {
    Log(Stage),
    Session(Part),
}
