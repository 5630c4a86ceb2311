//! What a lock can keep.
ghost use Rattle.std.specs.Prelude.{ℕ, List};

/// A value that keeps a list of entries, each made by a caller, and a base that never changes.
pub trait Keeps {
    /// What a caller adds to the list.
    type Entry;

    /// Plain data of the value that no call changes.
    type Base;

    // The entries that a value keeps, the oldest first.
    ghost entries: { Self → List Self.Entry };

    // The base of a value.
    ghost base_of: { Self → Self.Base };

    // The number of the caller that made an entry.
    ghost caller_of: { Self.Entry → ℕ };

    // Some base, whichever, for what a spent seat is left with.
    ghost any_base: { Self.Base };
}
