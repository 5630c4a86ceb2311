//! The plant, shared by several callers.
ghost use Rattle.std.specs.Prelude.{◌≡◌, ◌+◌, ◌-◌, ◌<◌, ◌≤◌, ◌++◌, ◌∷◌, [], drop, length, All};
ghost use Rattle.std.specs.Prelude.{true, false, IfOk, IsOk, OnErr, OnOk};
ghost use mathlib.Core.List.{IsPrefix};
ghost use Rattle.glance.specs.Shown.{new_display};
ghost use Rattle.plant_core.specs.Board.{cells_of};
ghost use Rattle.plant_core.specs.Machine.{IsCall, state_after};
ghost use Rattle.plant_core.specs.declared.call.Call.TheVariants as calls;
ghost use Rattle.telegram.specs.Telegrams.{IsTelegram};
ghost use Rattle.telegram.specs.declared.telegram.Telegram.TheVariants as telegrams;
ghost use Rattle.turn_lock.specs.Lists.{entries_by, longer};
ghost use Rattle.turn_lock.specs.Passes.{IsSound, ended_of, next_pass};
ghost use Rattle.plant_book.specs.Books.{with_no_display, with_seen};
ghost use Rattle.plant_book.specs.Books.{IsAtRest, IsOf, IsStarted, displays_of};
ghost use Rattle.plant_book.specs.Calls.{IsLeft, Passes, Serves};
ghost use Rattle.plant_book.specs.Telegrams.{IsOrder, IsPosition, IsWindTelegram};
ghost use Rattle.plant_book.specs.Values.{base_of, caller_of};

use crate::board::PlantBoard;
use crate::pass::{BookPass, MOST_DISPLAYS};
use crate::served::{Served, has_entry};
use crate::value::PlantValue;
use dp_io::Gate;
use glance::{Glance, GlancePass};
use no_memory::NoMemory;
use plant_core::{Allocate, Call, Cells, Core, Note, Outcome};
use plant_model::limits::MOST_ENTRIES;
use plant_model::plant::Plant;
use plant_model::status::Version;
use std::alloc::Global;
use std::marker::Model;
use std::sync::Wait;
use telegram::Telegram;
use turn_lock::{LAST_PASS, Pass, Turn};

/// A plant that several callers share, each with a pass of its own. Contracts see which lock the
/// callers take turns at, and what no call changes; a pass is used with the book that made it.
pub struct Book<A: Allocate, G: Gate> {
    turn: Turn<PlantValue>,
    plant: Plant,
    limit: u32,
    glance: Glance<PlantBoard>,
    allocator: A,
    gate: G,
}

impl<A: Allocate, G: Gate> Model for Book<A, G> {
    ghost use Rattle.plant_book.specs.Books.{BookView};

    ghost Value = { BookView };

    ghost view = { λ book. record {
      lock = book.turn;
      base = record { plant = book.plant; limit = book.limit; glance = book.glance.glance };
    } };

    ghost use Rattle.std.specs.Prelude.{◌≡◌};

    ghost invariant = { λ book.
        book.glance.base ≡ record { plant = book.plant; limit = book.limit } };
}

impl<A: Allocate + Drop, G: Gate + Drop> Book<A, G> {
    /// The plant at its opening, and the root pass, which has seen nothing. The limit of telegrams
    /// and notes is at most [`MOST_ENTRIES`]. Positions are answered with what the allocator gives,
    /// and the gate is told of each ticket for the turn. `NoMemory` where memory ran out.
    pub fn start<R: Wait>(
        rt: &R,
        alloc: Global,
        plant: Plant,
        limit: u32,
        allocator: A,
        gate: G,
    ) -> Result<(Book<A, G>, BookPass), NoMemory>
        requires limit { limit ≤ MOST_ENTRIES }
        ensures { IfOk result (λ r. IsStarted plant limit r.0 r.1) }
    {
        let shown = plant.copied()?;
        let core = Core::start(alloc, plant, limit)?;
        let (value, glance) = PlantValue::start(alloc, core)?;
        match Turn::start(alloc, value) {
            Ok((turn, pass)) => {
                let book = Book {
                    turn,
                    plant: shown,
                    limit,
                    glance,
                    allocator,
                    gate,
                };
                Ok((book, BookPass { pass, displays: 0 }))
            }
            Err((no_memory, value)) => {
                value.end(rt);
                Err(no_memory)
            }
        }
    }

    /// Ends the book, and gives the machine with its whole history. No pass is away. The entries in
    /// it of each pass that was taken back are the ones that the root kept of it.
    pub fn close<R: Wait>(self, rt: &R, root: BookPass) -> Core
        requires of { IsOf self root }
        requires root { root.shown.caller ≡ 0 }
        requires alone { root.shown.away ≡ 0 }
        ensures plant { result.plant ≡ self.base.plant }
        ensures limit { result.limit ≡ self.base.limit }
        ensures history { result.history ≡ root.shown.seen }
        ensures ended { All (λ pass. entries_by caller_of pass.caller result.history ≡ pass.mine)
            root.shown.ended }
    {
        let Book {
            turn,
            plant: _,
            limit: _,
            glance: _,
            allocator: _,
            gate: _,
        } = self;
        turn.close(root.into_pass()).end(rt)
    }
}

impl<A: Allocate, G: Gate> Book<A, G> {
    /// A new pass for a caller of its own, with the next number, which is at most [`LAST_PASS`]. It
    /// has seen what the root has. It takes no memory, so the answer is always Ok.
    pub fn pass(&self, root: &mut BookPass) -> Result<BookPass, NoMemory>
        requires of { IsOf self.now root.old }
        requires root { root.old.shown.caller ≡ 0 }
        requires room { root.old.shown.next ≤ LAST_PASS }
        ensures always { IsOk result }
        ensures pass { IfOk result (λ pass. pass ≡ with_no_display (next_pass root.old.shown)) }
        ensures root { root.new ≡ record root.old {
          shown = record root.old.shown {
            next = root.old.shown.next + 1;
            away = root.old.shown.away + 1;
          };
        } }
        ensures of { IsOf self.now root.new }
        ensures pass_of { IfOk result (IsOf self.now) }
    {
        let pass = self.turn.split(&mut root.pass)?;
        Ok(BookPass { pass, displays: 0 })
    }

    /// The root takes a pass back, and has seen what either has. It keeps the pass's number and the
    /// entries that were its own.
    pub fn take_back(&self, root: &mut BookPass, other: BookPass)
        requires of { IsOf self.now root.old }
        requires other_of { IsOf self.now other }
        requires root { root.old.shown.caller ≡ 0 }
        ensures root { root.new ≡ record root.old {
          shown = record root.old.shown {
            seen = longer root.old.shown.seen other.shown.seen;
            away = root.old.shown.away - 1;
            ended = root.old.shown.ended ++ ended_of other.shown ∷ [];
          };
        } }
        ensures fewer { root.new.shown.away + 1 ≡ root.old.shown.away }
        ensures this { IsPrefix root.old.shown.seen root.new.shown.seen }
        ensures that { IsPrefix other.shown.seen root.new.shown.seen }
        ensures rest { IsAtRest root.new.shown }
        ensures of { IsOf self.now root.new }
    {
        self.turn.join(&mut root.pass, other.into_pass());
    }

    /// A pass learns what another has seen; the other stays as it was. It takes no memory, so the
    /// answer is always Ok.
    pub fn meet(&self, pass: &mut BookPass, other: &mut BookPass) -> Result<(), NoMemory>
        requires of { IsOf self.now pass.old }
        requires other_of { IsOf self.now other.old }
        ensures always { IsOk result }
        ensures pass { pass.new
            ≡ with_seen pass.old (longer pass.old.shown.seen other.old.shown.seen) }
        ensures this { IsPrefix pass.old.shown.seen pass.new.shown.seen }
        ensures that { IsPrefix other.old.shown.seen pass.new.shown.seen }
        ensures other { other.new ≡ other.old }
        ensures rest { IsAtRest pass.new.shown }
        ensures of { IsOf self.now pass.new }
        ensures of_other { IsOf self.now other.new }
    {
        self.turn.meet(&mut pass.pass, &mut other.pass)
    }

    /// A position, as of the control loop.
    pub fn tick<R: Wait>(
        &self,
        rt: &R,
        pass: &mut BookPass,
        telegram: Telegram,
    ) -> Result<Served, NoMemory>
        requires of { IsOf self.now pass.old }
        requires telegram { IsTelegram telegram }
        requires position { IsPosition telegram }
        ensures served { IfOk result (Serves pass.old pass.new (calls.Telegram telegram)) }
        ensures kept { OnErr result (Passes pass.old pass.new) }
        ensures of { IsOf self.now pass.new }
    {
        self.serve(rt, pass, Call::Telegram(telegram))
    }

    /// A wind.
    pub fn wind<R: Wait>(
        &self,
        rt: &R,
        pass: &mut BookPass,
        telegram: Telegram,
    ) -> Result<Served, NoMemory>
        requires of { IsOf self.now pass.old }
        requires telegram { IsTelegram telegram }
        requires wind { IsWindTelegram telegram }
        ensures served { IfOk result (Serves pass.old pass.new (calls.Telegram telegram)) }
        ensures kept { OnErr result (Passes pass.old pass.new) }
        ensures of { IsOf self.now pass.new }
    {
        self.serve(rt, pass, Call::Telegram(telegram))
    }

    /// Asks for the board, by a telegram.
    pub fn board<R: Wait>(&self, rt: &R, pass: &mut BookPass) -> Result<Served, NoMemory>
        requires of { IsOf self.now pass.old }
        ensures served { IfOk result (Serves pass.old pass.new (calls.Telegram telegrams.Board)) }
        ensures kept { OnErr result (Passes pass.old pass.new) }
        ensures of { IsOf self.now pass.new }
    {
        self.serve(rt, pass, Call::Telegram(Telegram::Board))
    }

    /// Any other telegram: what the operators order.
    pub fn operator_call<R: Wait>(
        &self,
        rt: &R,
        pass: &mut BookPass,
        telegram: Telegram,
    ) -> Result<Served, NoMemory>
        requires of { IsOf self.now pass.old }
        requires telegram { IsTelegram telegram }
        requires order { IsOrder telegram }
        ensures served { IfOk result (Serves pass.old pass.new (calls.Telegram telegram)) }
        ensures kept { OnErr result (Passes pass.old pass.new) }
        ensures of { IsOf self.now pass.new }
    {
        self.serve(rt, pass, Call::Telegram(telegram))
    }

    /// Takes down what a stream gave that isn't answered as a telegram.
    pub fn note<R: Wait>(&self, rt: &R, pass: &mut BookPass, note: Note) -> Result<Served, NoMemory>
        requires of { IsOf self.now pass.old }
        ensures served { IfOk result (Serves pass.old pass.new (calls.Note note)) }
        ensures kept { OnErr result (Passes pass.old pass.new) }
        ensures of { IsOf self.now pass.new }
    {
        self.serve(rt, pass, Call::Note(note))
    }

    /// Publishes a verdict of a version on the loss of a group, whose place is below the plant's
    /// count.
    pub fn publish<R: Wait>(
        &self,
        rt: &R,
        pass: &mut BookPass,
        version: u32,
        group: u32,
        outcome: Outcome,
    ) -> Result<Served, NoMemory>
        requires of { IsOf self.now pass.old }
        requires group { group < length self.now.base.plant.groups.items }
        ensures served { IfOk result (Serves pass.old pass.new
            (calls.Publish version group outcome)) }
        ensures kept { OnErr result (Passes pass.old pass.new) }
        ensures of { IsOf self.now pass.new }
    {
        let call = Call::Publish {
            version,
            group,
            outcome,
        };
        self.serve(rt, pass, call)
    }

    /// Ends the session. Nothing is answered after it.
    pub fn end<R: Wait>(&self, rt: &R, pass: &mut BookPass) -> Result<Served, NoMemory>
        requires of { IsOf self.now pass.old }
        ensures served { IfOk result (Serves pass.old pass.new calls.Close) }
        ensures kept { OnErr result (Passes pass.old pass.new) }
        ensures of { IsOf self.now pass.new }
    {
        self.serve(rt, pass, Call::Close)
    }

    /// The latest version. It has no entry.
    pub fn latest<R: Wait>(&self, rt: &R, pass: &mut BookPass) -> Version
        requires of { IsOf self.now pass.old }
        ensures passes { Passes pass.old pass.new }
        ensures of { IsOf self.now pass.new }
        ensures latest { result ≡ (state_after self.now.base.plant pass.new.shown.seen).latest }
    {
        let value = self.turn.enter(rt, &mut pass.pass, &self.gate);
        let _ = value.history();
        let latest = value.latest();
        self.leave(&mut pass.pass, value, false);
        latest
    }

    /// The board. It has no entry.
    pub fn cells<R: Wait>(&self, rt: &R, pass: &mut BookPass) -> Cells
        requires of { IsOf self.now pass.old }
        ensures passes { Passes pass.old pass.new }
        ensures of { IsOf self.now pass.new }
        ensures cells { result ≡ cells_of self.now.base.plant
            (state_after self.now.base.plant pass.new.shown.seen) }
    {
        let value = self.turn.enter(rt, &mut pass.pass, &self.gate);
        let _ = value.history();
        let cells = value.cells();
        self.leave(&mut pass.pass, value, false);
        cells
    }

    /// The plant that the book was started with. It takes no turn.
    pub fn plant(&self) -> &Plant
        ensures { result.now ≡ self.now.base.plant }
    {
        &self.plant
    }

    /// Where displays are made and looked at.
    pub fn glance(&self) -> &Glance<PlantBoard>
        ensures { result.now ≡ displays_of self.now.base }
    {
        &self.glance
    }

    /// A new display, which has seen nothing. The root makes at most [`MOST_DISPLAYS`]. It takes no
    /// memory, so the answer is always Ok. The display has a place once it is shown the board and
    /// one is free; before that its board is the one of the empty history.
    pub fn display(&self, root: &mut BookPass) -> Result<GlancePass<PlantBoard>, NoMemory>
        requires of { IsOf self.now root.old }
        requires root { root.old.shown.caller ≡ 0 }
        requires room { root.old.displays < MOST_DISPLAYS }
        ensures always { IsOk result }
        ensures display { IfOk result (λ display. display ≡ new_display (displays_of self.now.base)) }
        ensures root { root.new ≡ record root.old { displays = root.old.displays + 1 } }
        ensures of { IsOf self.now root.new }
    {
        root.displays += 1;
        self.glance.display()
    }

    /// Shows a display the board as it is. It has then seen what the pass has, and each later board
    /// of it has at least that. It has no entry.
    pub fn show<R: Wait>(
        &self,
        rt: &R,
        pass: &mut BookPass,
        display: &mut GlancePass<PlantBoard>,
    ) -> Result<(), NoMemory>
        requires of { IsOf self.now pass.old }
        requires display { display.old.glance ≡ self.now.base.glance }
        ensures passes { Passes pass.old pass.new }
        ensures of { IsOf self.now pass.new }
        ensures shown { OnOk result
            (display.new ≡ record display.old { seen = pass.new.shown.seen }) }
        ensures front { OnOk result (IsPrefix display.old.seen display.new.seen) }
        ensures kept { OnErr result (display.new ≡ display.old) }
    {
        let mut value = self.turn.enter(rt, &mut pass.pass, &self.gate);
        let _ = value.history();
        let answer = value.show(rt, display);
        self.leave(&mut pass.pass, value, false);
        answer
    }

    // Takes the turn, makes the call and leaves, with an entry where the call was answered.
    fn serve<R: Wait>(&self, rt: &R, pass: &mut BookPass, call: Call) -> Result<Served, NoMemory>
        requires of { IsOf self.now pass.old }
        requires call { IsCall self.now.base.plant call }
        ensures served { IfOk result (Serves pass.old pass.new call) }
        ensures kept { OnErr result (Passes pass.old pass.new) }
        ensures of { IsOf self.now pass.new }
    {
        let mut value = self.turn.enter(rt, &mut pass.pass, &self.gate);
        let _ = value.history();
        let caller = pass.pass.caller();
        let answer = value.answer(rt, caller, call, &self.allocator);
        let _ = value.history();
        self.leave(&mut pass.pass, value, has_entry(&answer));
        answer
    }

    // Gives the value back, with one entry more of the caller's or as it was.
    fn leave(&self, pass: &mut Pass<PlantValue>, value: PlantValue, has_entry: bool)
        requires lock { pass.old.lock ≡ self.now.lock }
        requires holds { pass.old.holds ≡ true }
        requires base { base_of value ≡ pass.old.base }
        requires sound { IsSound caller_of pass.old }
        requires entries { IsLeft has_entry pass.old.caller pass.old.seen value.core.history }
        ensures pass { pass.new ≡ record pass.old {
          seen = value.core.history;
          mine = pass.old.mine ++ drop (length pass.old.seen) value.core.history;
          holds = false;
        } }
        ensures sound { IsSound caller_of pass.new }
    {
        if has_entry {
            self.turn.leave_with(pass, value);
        } else {
            self.turn.leave(pass, value);
        }
    }
}
