//! What lies behind the lock.
ghost use Rattle.std.specs.Prelude.{◌≡◌, ◌++◌, [], IfOk, OnOk, OnErr};
ghost use mathlib.Core.List.{IsPrefix};
ghost use Rattle.plant_core.specs.Board.{cells_of};
ghost use Rattle.plant_core.specs.Machine.{IsCall, IsLegal, state_of};
ghost use Rattle.plant_book.specs.Boards.{board_base};
ghost use Rattle.plant_book.specs.Calls.{IsAnswered, entries_for, made_between};

use crate::base::BookBase;
use crate::board::PlantBoard;
use crate::served::{Served, has_entry};
use glance::{Glance, GlancePass, GlanceWriter};
use no_memory::NoMemory;
use plant_core::{Allocate, Call, Cells, Core, Entry};
use plant_model::status::Version;
use std::alloc::Global;
use std::marker::Model;
use std::sync::Wait;
use turn_lock::Keeps;

/// The machine behind the lock, and the writer of what displays show of it, which is behind by some
/// entries at most. Contracts see the machine, and which displays they are.
// Each turn moves the value out of the lock and back; the machine in its box stays where it is.
pub(crate) struct PlantValue {
    board: Box<PlantBoard>,
    writer: GlanceWriter<PlantBoard>,
}

impl Model for PlantValue {
    ghost use Rattle.plant_book.specs.Values.{IsWritten, ValueView};

    ghost Value = { ValueView };

    ghost view = { λ value. record {
      core = value.board.value.core;
      glance = value.writer.glance;
    } };

    ghost invariant = { λ value. IsWritten value.writer value.board.value.core };
}

impl Keeps for PlantValue {
    ghost use Rattle.plant_book.specs.Values.{base_of, caller_of, some_base};

    type Entry = Entry;

    type Base = BookBase;

    ghost entries = { λ value. value.core.history };

    ghost base_of = { base_of };

    ghost caller_of = { caller_of };

    ghost any_base = { some_base };
}

/// The version that was made between two looks at the latest, if one was.
fn made_between(before: Version, after: Version) -> Option<Version>
    ensures { result ≡ made_between before after }
{
    if before.number == after.number {
        None
    } else {
        Some(after)
    }
}

impl PlantValue {
    /// A machine at its opening, and its displays.
    pub(crate) fn start(
        alloc: Global,
        core: Core,
    ) -> Result<(PlantValue, Glance<PlantBoard>), NoMemory>
        requires { core.history ≡ [] }
        ensures value { IfOk result (λ r. r.0 ≡ record { core = core; glance = r.1.glance }) }
        ensures base { IfOk result (λ r. r.1.base ≡ board_base core) }
    {
        let board = Box::new(alloc, PlantBoard { core })?;
        let cells = board.core.cells();
        let (glance, writer) = Glance::start(alloc, &*board, cells)?;
        Ok((PlantValue { board, writer }, glance))
    }

    /// The answered calls, in order.
    pub(crate) fn history(&self) -> &[Entry]
        ensures entries { result.now ≡ self.now.core.history }
        ensures legal { IsLegal self.now.core.plant self.now.core.limit self.now.core.history }
    {
        self.board.core.history()
    }

    /// Answers a call, and publishes the board where the call has an entry.
    pub(crate) fn answer<R: Wait, A: Allocate>(
        &mut self,
        rt: &R,
        caller: u32,
        call: Call,
        allocator: &A,
    ) -> Result<Served, NoMemory>
        requires { IsCall self.old.core.plant call }
        ensures answered { IfOk result (IsAnswered self.old.core self.new.core call) }
        ensures history { self.new ≡ record self.old {
          core = record self.old.core {
            history = self.old.core.history ++ entries_for caller call result;
          };
        } }
    {
        let answer = self.apply(caller, call, allocator);
        if has_entry(&answer) {
            self.publish(rt);
        }
        answer
    }

    /// Answers a call.
    fn apply<A: Allocate>(
        &mut self,
        caller: u32,
        call: Call,
        allocator: &A,
    ) -> Result<Served, NoMemory>
        requires { IsCall self.old.core.plant call }
        ensures answered { IfOk result (IsAnswered self.old.core self.new.core call) }
        ensures history { self.new ≡ record self.old {
          core = record self.old.core {
            history = self.old.core.history ++ entries_for caller call result;
          };
        } }
    {
        let before = *self.board.core.latest();
        let reply = self.board.core.apply(caller, call, allocator)?;
        let made = made_between(before, *self.board.core.latest());
        Ok(Served { reply, made })
    }

    /// Publishes the board, or leaves displays with the one before where there is no memory.
    fn publish<R: Wait>(&mut self, rt: &R)
        ensures { self.new ≡ self.old }
    {
        let cells = self.cells();
        let _ = self.writer.publish(rt, &*self.board, cells);
    }

    /// Shows the board to a display, which has then seen the whole history.
    pub(crate) fn show<R: Wait>(
        &mut self,
        rt: &R,
        display: &mut GlancePass<PlantBoard>,
    ) -> Result<(), NoMemory>
        requires { display.old.glance ≡ self.old.glance }
        ensures value { self.new ≡ self.old }
        ensures told { OnOk result
            (display.new ≡ record display.old { seen = self.old.core.history }) }
        ensures front { OnOk result (IsPrefix display.old.seen self.old.core.history) }
        ensures kept { OnErr result (display.new ≡ display.old) }
    {
        let cells = self.cells();
        self.writer.publish(rt, &*self.board, cells)?;
        self.writer.tell(rt, display);
        Ok(())
    }

    /// The latest version.
    pub(crate) fn latest(&self) -> Version
        ensures { result ≡ (state_of self.now.core).latest }
    {
        *self.board.core.latest()
    }

    /// The board.
    pub(crate) fn cells(&self) -> Cells
        ensures cells { result ≡ cells_of self.now.core.plant (state_of self.now.core) }
        ensures legal { IsLegal self.now.core.plant self.now.core.limit self.now.core.history }
    {
        let _ = self.board.core.history();
        self.board.core.cells()
    }

    /// The machine alone. Its displays keep the boards that they were last shown.
    pub(crate) fn end<R: Wait>(self, rt: &R) -> Core
        ensures { result ≡ self.core }
    {
        let PlantValue { board, writer } = self;
        writer.end(rt);
        Box::into_inner(board).core
    }
}
