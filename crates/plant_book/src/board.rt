//! The machine as displays see it.

use glance::Shows;
use plant_core::{Core, Entry};
use plant_model::plant::Parts;

/// The plant and the limit that a board is of. No value of it is made.
pub struct BoardBase {
    pub plant: Parts,
    pub limit: u32,
}

/// The machine, whose board displays show.
#[derive(Drop)]
pub struct PlantBoard {
    pub core: Core,
}

impl Shows for PlantBoard {
    ghost use Rattle.plant_book.specs.Boards.{Stands, board_base, some_board_base};

    type Entry = Entry;

    type Base = BoardBase;

    ghost base_of = { λ board. board_base board.core };

    ghost entries = { λ board. board.core.history };

    ghost stands = { Stands };

    ghost any_base = { some_board_base };
}
