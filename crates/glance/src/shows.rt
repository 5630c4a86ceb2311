//! What displays can show.
ghost use Rattle.std.specs.Prelude.{List};

use plant_model::board::Cells;

/// A value that keeps a list of entries, which only grows, and a base that never changes. A board
/// may stand for such a list.
pub trait Shows {
    ghost use Rattle.plant_model.specs.declared.board.Cells.{Cells};

    /// What the list is of.
    type Entry;

    /// Plain data of the value that no call changes.
    type Base;

    // The base of a value.
    ghost base_of: { Self → Self.Base };

    // The entries that a value keeps, the oldest first.
    ghost entries: { Self → List Self.Entry };

    // Whether, for a base, a board stands for a list.
    ghost stands: { Self.Base → List Self.Entry → Cells → Type 0 };

    // Some base, whichever.
    ghost any_base: { Self.Base };
}
