//! How far a text was read.

/// How far the lines of a text are those of a log.
#[derive(Clone, Copy, Debug, PartialEq, Eq)]
pub enum Stage {
    /// There was no line.
    Before,
    /// They are a log with so many entries.
    Log { entries: u32 },
    /// This line is bad, and none before it.
    Bad { line: u32 },
}
