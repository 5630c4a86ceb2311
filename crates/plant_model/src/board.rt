//! The board: what was last shown of the loss of each redundancy group.

use crate::limits::MOST_GROUPS;
use arrayvec::ArrayVec;

/// What was last shown of the loss of a group.
#[derive(Clone, Copy, Debug, PartialEq, Eq)]
pub enum Cell {
    /// No verdict was shown yet.
    Pending,
    /// The last verdict that was shown: the version that it is about, whether the demand holds after the loss,
    /// and whether that version is the latest.
    Seen {
        version: u32,
        holds: bool,
        current: bool,
    },
}

/// Nothing was shown yet.
impl Default for Cell {
    ghost use Rattle.std.specs.Prelude.{◌≡◌};
    ghost use Rattle.plant_model.specs.declared.board.Cell.TheVariants.{Pending};

    ghost is_default = { λ cell. cell ≡ Pending };

    fn default() -> Self {
        Cell::Pending
    }
}

/// The latest version's number, and a cell for each group in the order of the plant.
#[derive(Clone, Debug, PartialEq, Eq, Drop)]
pub struct Cells {
    pub latest: u32,
    pub list: ArrayVec<Cell, MOST_GROUPS>,
}
