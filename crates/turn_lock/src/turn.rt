//! The lock.
ghost use Rattle.std.specs.Prelude.{◌≡◌, ◌+◌, ◌-◌, ◌≤◌, IsOk, ◌%◌, ◌^◌, ◌++◌, [], ◌∷◌, length};
ghost use Rattle.std.specs.Prelude.{drop, true, false, IfOk, IfErr, Some, None};
ghost use mathlib.Core.List.{IsPrefix};
ghost use Rattle.turn_lock.specs.Passes.{IsSound, AddsOne, root_of, next_pass, ended_of};
ghost use Rattle.turn_lock.specs.Lists.{longer};
ghost use Rattle.turn_lock.specs.Lists.{entries_by};
ghost use Rattle.turn_lock.specs.Steps.{HasTurn, IsWaiting, ShowsSound, joined, met};
ghost use Rattle.turn_lock.specs.declared.view.Standing.TheVariants.{Free};

use crate::keeps::Keeps;
use crate::pass::{LAST_PASS, Pass};
use crate::plays::{
    Compare, Desk, Draw, GiveNumber, Learn, Look, Place, Serve, ServeEntry, TakeBack, Tell,
};
use atomic_table::{Refused, Table};
use dp_io::{Gate, Stage};
use no_memory::NoMemory;
use std::alloc::Global;
use std::marker::Model;
use std::snapshot::Snapshot;
use std::sync::Wait;
use std::sync::atomic::{AtomicU64, Ordering};
use std::{hint, thread};

// The words of the table: the tickets drawn and the turns served.
const DRAWN: usize = 0;

const SERVED: usize = 1;

// The slot of the value.
const VALUE: usize = 0;

// How often a caller looks before it lets others run between its looks.
const SPINS: u32 = 200;

// How often a caller looks before it sleeps.
const LOOKS: u32 = 300;

/// A lock round a value. To a contract it is what tells it from any other lock, and a pass is used
/// with the lock that made it.
#[derive(Drop)]
pub struct Turn<K: Keeps> {
    table: Desk<K>,
    // How many callers sleep or are about to.
    sleepers: AtomicU64,
}

impl<K: Keeps> Model for Turn<K> {
    ghost use Rattle.std.specs.Prelude.{◌≡◌};
    ghost use Rattle.atomic_table.specs.Seated.{TableId};

    ghost Value = { TableId };

    ghost view = { λ t. t.table.shared.table_id };

    ghost invariant = { λ t.
        (t.table.shared.table_id.words ≡ 2) × (t.table.shared.table_id.slots ≡ 1) };
}

impl<K: Keeps> Turn<K> {
    /// A lock round a value that keeps no entry yet, and its root pass. The value comes back where
    /// there is no memory.
    pub fn start(alloc: Global, value: K) -> Result<(Turn<K>, Pass<K>), (NoMemory, K)>
        requires { K.entries value ≡ [] }
        ensures root { IfOk result (λ r. r.1 ≡ root_of r.0 (K.base_of value)) }
        ensures back { IfErr result (λ r. r.1 ≡ value) }
    {
        let opened = Snapshot::of(&value);
        let Ok(mut slots) = Vec::with_capacity(alloc, 1) else {
            return Err((NoMemory, value));
        };
        slots.push_reserved(Some(value));
        match Table::new(alloc, &[0, 0], slots, &opened) {
            Ok((table, seat)) => Ok((
                Turn {
                    table,
                    sleepers: AtomicU64::new(0),
                },
                Pass {
                    caller: 0,
                    next: 1,
                    seat,
                },
            )),
            Err(Refused { slots }) => Err((NoMemory, only(slots))),
        }
    }

    /// Waits for the caller's turn and takes the value. The gate is told when the ticket is drawn.
    pub fn enter<R: Wait, G: Gate>(&self, rt: &R, pass: &mut Pass<K>, gate: &G) -> K
        requires lock { pass.old.lock ≡ self.now }
        requires free { pass.old.holds ≡ false }
        ensures pass { pass.new ≡ record pass.old { seen = K.entries result; holds = true } }
        ensures seen { IsPrefix pass.old.seen (K.entries result) }
        ensures base { K.base_of result ≡ pass.old.base }
        ensures alone { pass.old.caller ≡ 0 → pass.old.away ≡ 0 → K.entries result ≡ pass.old.seen }
        ensures sound { IsSound K.caller_of pass.new }
    {
        let ticket = self.draw(&mut pass.seat);
        gate.reached(Stage::Drawn(pass.caller));
        self.wait_for(rt, &mut pass.seat, ticket);
        self.take(&mut pass.seat)
    }

    /// Gives the value back with one entry more, which the caller made.
    pub fn leave_with(&self, pass: &mut Pass<K>, value: K)
        requires lock { pass.old.lock ≡ self.now }
        requires holds { pass.old.holds ≡ true }
        requires base { K.base_of value ≡ pass.old.base }
        requires entry { AddsOne K.caller_of pass.old.caller pass.old.seen (K.entries value) }
        ensures pass { pass.new ≡ record pass.old {
          seen = K.entries value;
          mine = pass.old.mine ++ drop (length pass.old.seen) (K.entries value);
          holds = false;
        } }
        ensures sound { IsSound K.caller_of pass.new }
    {
        self.put(&mut pass.seat, value);
        self.table
            .shared
            .fetch_add::<ServeEntry>(&mut pass.seat, SERVED, 1);
        self.wake();
    }

    /// Gives the value back as it was.
    pub fn leave(&self, pass: &mut Pass<K>, value: K)
        requires lock { pass.old.lock ≡ self.now }
        requires holds { pass.old.holds ≡ true }
        requires base { K.base_of value ≡ pass.old.base }
        requires entries { K.entries value ≡ pass.old.seen }
        ensures { pass.new ≡ record pass.old { holds = false } }
    {
        self.put(&mut pass.seat, value);
        self.table
            .shared
            .fetch_add::<Serve>(&mut pass.seat, SERVED, 1);
        self.wake();
    }

    /// A new pass, with the next number, for a caller of its own. That number is at most
    /// [`LAST_PASS`]. The pass has seen what the root has. It takes no memory, so the answer is
    /// always Ok.
    pub fn split(&self, root: &mut Pass<K>) -> Result<Pass<K>, NoMemory>
        requires lock { root.old.lock ≡ self.now }
        requires root { root.old.caller ≡ 0 }
        requires free { root.old.holds ≡ false }
        requires room { root.old.next ≤ LAST_PASS }
        ensures always { IsOk result }
        ensures pass { IfOk result (λ pass. pass ≡ next_pass root.old) }
        ensures root { root.new
            ≡ record root.old { next = root.old.next + 1; away = root.old.away + 1 } }
        ensures sound { IsSound K.caller_of root.new }
        ensures pass_sound { IfOk result (IsSound K.caller_of) }
    {
        let caller = root.next as u32;
        let seat = self.table.shared.split_seat::<GiveNumber>(&mut root.seat);
        root.next += 1;
        Ok(Pass {
            caller,
            next: 0,
            seat,
        })
    }

    /// The root takes a pass back, and has seen what either has. It keeps the pass's number and the
    /// entries that were its own.
    pub fn join(&self, root: &mut Pass<K>, other: Pass<K>)
        requires lock { root.old.lock ≡ self.now }
        requires other_lock { other.lock ≡ self.now }
        requires root { root.old.caller ≡ 0 }
        requires free { root.old.holds ≡ false }
        requires other_free { other.holds ≡ false }
        ensures root { root.new ≡ record root.old {
          seen = longer root.old.seen other.seen;
          away = root.old.away - 1;
          ended = root.old.ended ++ ended_of other ∷ [];
        } }
        ensures fewer { root.new.away + 1 ≡ root.old.away }
        ensures this { IsPrefix root.old.seen root.new.seen }
        ensures that { IsPrefix other.seen root.new.seen }
        ensures sound { IsSound K.caller_of root.new }
    {
        let Pass {
            caller: _,
            next: _,
            seat,
        } = other;
        self.take_back(&mut root.seat, seat);
    }

    /// A pass learns what another has seen; the other stays as it was. It takes no memory, so the
    /// answer is always Ok.
    pub fn meet(&self, pass: &mut Pass<K>, other: &mut Pass<K>) -> Result<(), NoMemory>
        requires lock { pass.old.lock ≡ self.now }
        requires other_lock { other.old.lock ≡ self.now }
        requires free { pass.old.holds ≡ false }
        requires other_free { other.old.holds ≡ false }
        ensures always { IsOk result }
        ensures pass { pass.new ≡ record pass.old { seen = longer pass.old.seen other.old.seen } }
        ensures this { IsPrefix pass.old.seen pass.new.seen }
        ensures that { IsPrefix other.old.seen pass.new.seen }
        ensures other { other.new ≡ other.old }
        ensures sound { IsSound K.caller_of pass.new }
    {
        self.learn(&mut pass.seat, &mut other.seat);
        Ok(())
    }

    /// Ends the lock, and gives its value.
    pub fn close(self, root: Pass<K>) -> K
        requires lock { root.lock ≡ self }
        requires root { root.caller ≡ 0 }
        requires free { root.holds ≡ false }
        requires alone { root.away ≡ 0 }
        ensures entries { K.entries result ≡ root.seen }
        ensures base { K.base_of result ≡ root.base }
    {
        let Pass {
            caller: _,
            next: _,
            seat,
        } = root;
        let Turn { table, sleepers: _ } = self;
        let mut closed = table.close_with(seat);
        let last = closed.take(VALUE);
        closed.free();
        let Some(value) = last else { unreachable!() };
        value
    }

    // A seat is joined to the root's, which looks.
    fn take_back(&self, root: &mut Place<K>, other: Place<K>)
        requires lock { root.old.table_id ≡ self.now }
        requires other_lock { other.table_id ≡ self.now }
        requires root { root.old.me.0.known.caller ≡ 0 }
        requires free { root.old.me.0.standing ≡ Free }
        requires other_free { other.me.0.standing ≡ Free }
        requires other_held { other.me.1 ≡ [] }
        ensures lock { root.new.table_id ≡ root.old.table_id }
        ensures root { root.new.me ≡ (joined root.old.me.0 other.me.0, root.old.me.1) }
        ensures this { IsPrefix root.old.me.0.known.seen root.new.me.0.known.seen }
        ensures that { IsPrefix other.me.0.known.seen root.new.me.0.known.seen }
        ensures sound { ShowsSound K.caller_of root.new.me.0 }
    {
        self.table.shared.join_seat::<TakeBack<K>>(root, other);
        self.table.shared.load::<Compare>(root, SERVED);
    }

    // A copy of one seat is joined to another, which looks.
    fn learn(&self, seat: &mut Place<K>, other: &mut Place<K>)
        requires lock { seat.old.table_id ≡ self.now }
        requires other_lock { other.old.table_id ≡ self.now }
        requires free { seat.old.me.0.standing ≡ Free }
        requires other_free { other.old.me.0.standing ≡ Free }
        ensures lock { seat.new.table_id ≡ seat.old.table_id }
        ensures other_lock { other.new.table_id ≡ other.old.table_id }
        ensures seat { seat.new.me ≡ (met seat.old.me.0 other.old.me.0, seat.old.me.1) }
        ensures other { other.new.me ≡ other.old.me }
        ensures this { IsPrefix seat.old.me.0.known.seen seat.new.me.0.known.seen }
        ensures that { IsPrefix other.old.me.0.known.seen seat.new.me.0.known.seen }
        ensures sound { ShowsSound K.caller_of seat.new.me.0 }
    {
        let copy = self.table.shared.split_seat::<Tell>(other);
        self.table.shared.join_seat::<Learn<K>>(seat, copy);
        self.table.shared.load::<Compare>(seat, SERVED);
    }

    // A ticket for the caller.
    fn draw(&self, seat: &mut Place<K>) -> u64
        requires lock { seat.old.table_id ≡ self.now }
        requires free { seat.old.me.0.standing ≡ Free }
        ensures lock { seat.new.table_id ≡ seat.old.table_id }
        ensures ticket { IsWaiting result seat.new.me.0.standing }
        ensures known { seat.new.me.0.known ≡ seat.old.me.0.known }
        ensures held { seat.new.me.1 ≡ seat.old.me.1 }
    {
        self.table.shared.fetch_add::<Draw>(seat, DRAWN, 1)
    }

    // Waits until it is the turn of the ticket.
    fn wait_for<R: Wait>(&self, rt: &R, seat: &mut Place<K>, ticket: u64)
        requires lock { seat.old.table_id ≡ self.now }
        requires ticket { IsWaiting ticket seat.old.me.0.standing }
        requires held { seat.old.me.1 ≡ [] }
        ensures lock { seat.new.table_id ≡ seat.old.table_id }
        ensures turn { (t : _) × HasTurn K.entries K.base_of K.caller_of seat.old.me t seat.new.me }
    {
        let mut looks = 0;
        for _ in rt.forever() {
            let turn = self.table.shared.load::<Look>(seat, SERVED);
            if turn == ticket {
                return;
            }
            looks = self.pause(rt, looks, turn);
        }
        unreachable!()
    }

    // Waits for a short while, or, after many looks, until another turn than this is served.
    fn pause<R: Wait>(&self, rt: &R, looks: u32, turn: u64) -> u32 {
        if looks < SPINS {
            hint::spin_loop();
            return looks + 1;
        }
        if looks < LOOKS {
            thread::yield_now();
            return looks + 1;
        }
        self.sleepers.fetch_add(1, Ordering::SeqCst);
        self.table
            .shared
            .park(rt, SERVED, (turn & u64::from(u32::MAX)) as u32);
        self.sleepers.fetch_sub(1, Ordering::SeqCst);
        looks
    }

    // Wakes those who sleep. A caller that counts itself after this look finds the turn served, and
    // doesn't sleep.
    fn wake(&self) {
        if self.sleepers.load(Ordering::SeqCst) != 0 {
            self.table.shared.wake_all(SERVED);
        }
    }

    // The value leaves the slot.
    fn take(&self, seat: &mut Place<K>) -> K
        requires lock { seat.old.table_id ≡ self.now }
        requires held { (value : K) × (seat.old.me.1 ≡ (0, Some value) ∷ []) }
        ensures lock { seat.new.table_id ≡ seat.old.table_id }
        ensures value { seat.old.me.1 ≡ (0, Some result) ∷ [] }
        ensures held { seat.new.me ≡ (seat.old.me.0, (0, None) ∷ []) }
    {
        match self.table.shared.exchange(seat, VALUE, None) {
            Some(value) => value,
            None => unreachable!(),
        }
    }

    // The value returns to the slot.
    fn put(&self, seat: &mut Place<K>, value: K)
        requires lock { seat.old.table_id ≡ self.now }
        requires held { seat.old.me.1 ≡ (0, None) ∷ [] }
        ensures lock { seat.new.table_id ≡ seat.old.table_id }
        ensures held { seat.new.me ≡ (seat.old.me.0, (0, Some value) ∷ []) }
    {
        let left = self.table.shared.exchange(seat, VALUE, Some(value));
        let None = left else { unreachable!() };
    }
}

// The value of the one slot.
fn only<K>(mut slots: Vec<Option<K>>) -> K
    requires { (value : K) × (slots.items ≡ Some value ∷ []) }
    ensures { slots.items ≡ Some result ∷ [] }
{
    let last = slots.pop();
    let Some(Some(value)) = last else {
        unreachable!()
    };
    slots.destroy_empty();
    value
}
