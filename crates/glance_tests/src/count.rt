//! A small value that displays show: a number that only grows.
ghost use Rattle.std.specs.Prelude.{◌≡◌, ◌≤◌, ◌+◌, ◌<◌, ◌^◌, [], replicate, length, IfOk};

use arrayvec::ArrayVec;
use glance::{Glance, GlancePass, GlanceWriter, Shows};
use no_memory::NoMemory;
use plant_model::board::Cells;
use std::sync::Wait;

/// A number. Its list has so many entries, and its board has it as the latest version.
#[derive(Clone, Copy)]
pub struct Count {
    pub number: u32,
}

impl Shows for Count {
    ghost use Rattle.std.specs.Prelude.{◌≡◌, length, replicate};

    type Entry = ();

    type Base = ();

    ghost base_of = { λ _. tt };

    ghost entries = { λ c. replicate c.number tt };

    ghost stands = { λ _ list cells. cells.latest ≡ length list };

    ghost any_base = { tt };
}

/// The board of a number.
pub fn board_of(count: Count) -> Cells
    ensures { result.latest ≡ count.number }
{
    Cells {
        latest: count.number,
        list: ArrayVec::new(),
    }
}

/// Publishes a number that is no less than the last.
pub fn publish<R: Wait>(
    rt: &R,
    writer: &mut GlanceWriter<Count>,
    number: u32,
) -> Result<(), NoMemory>
    requires { length writer.old.list ≤ number }
    ensures list { IfOk result (λ _. length writer.new.list ≡ number) }
    ensures at_most { length writer.new.list ≤ number }
    ensures glance { writer.new.glance ≡ writer.old.glance }
{
    let count = Count { number };
    writer.publish(rt, &count, board_of(count))
}

/// The number that a display shows.
pub fn look(glance: &Glance<Count>, display: &mut GlancePass<Count>) -> u32
    requires { display.old.glance ≡ glance.now.glance }
    ensures number { result ≡ length display.new.seen }
    ensures rises { length display.old.seen ≤ result }
    ensures glance { display.new.glance ≡ display.old.glance }
{
    glance.board(display).latest
}
