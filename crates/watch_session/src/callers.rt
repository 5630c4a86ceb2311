//! Callers and workers' seats are made, and taken back.
ghost use Rattle.std.specs.Prelude.{◌≡◌, ◌+◌, ◌<◌, ◌≤◌, [], ◌∷◌, All, length, map, vec_capacity};
ghost use mathlib.Core.List.{IsPrefix};
ghost use Rattle.plant_book.specs.Books.{IsOf, with_no_display};
ghost use Rattle.turn_lock.specs.Passes.{ended_of, next_pass};
ghost use Rattle.watch_session.specs.Callers.{IsCaller, TookBack};
ghost use Rattle.watch_session.specs.Crews.{AreNewFrom, AreSeatsOf, IsSeatOf, ended_at, with_seats};

use crate::crew::{Crew, Seat};
use crate::shared::{Caller, Shared};
use analysis_jobs::JobPass;
use dp_io::Gate;
use plant_book::{Book, BookPass, MOST_DISPLAYS};
use plant_core::Allocate;
use std::sync::Wait;
use turn_lock::LAST_PASS;

/// A new caller, with passes of its own.
pub(crate) fn new_caller<A: Allocate, G: Gate>(
    shared: &Shared<'_, A, G>,
    root: &mut BookPass,
    own: &mut JobPass,
) -> Caller
    requires of { IsOf shared.now.book.now root.old }
    requires own { own.old.queue ≡ shared.now.jobs.now }
    requires root { root.old.shown.caller ≡ 0 }
    requires room { root.old.shown.next ≤ LAST_PASS }
    ensures pass { result.pass ≡ with_no_display (next_pass root.old.shown) }
    ensures is { IsCaller shared.now.book.now shared.now.jobs.now root.old.shown.next result }
    ensures root { root.new ≡ record root.old {
      shown = record root.old.shown {
        next = root.old.shown.next + 1;
        away = root.old.shown.away + 1;
      };
    } }
    ensures of { IsOf shared.now.book.now root.new }
    ensures own { own.new.queue ≡ shared.now.jobs.now }
{
    let (Ok(pass), Ok(own)) = (shared.book.pass(root), shared.jobs.pass(own)) else {
        unreachable!();
    };
    Caller { pass, own }
}

/// A new worker's seat, whose display has seen the board as it is, unless there is no memory for that.
pub(crate) fn new_seat<R: Wait, A: Allocate, G: Gate>(
    rt: &R,
    shared: &Shared<'_, A, G>,
    root: &mut BookPass,
    own: &mut JobPass,
) -> Seat
    requires of { IsOf shared.now.book.now root.old }
    requires own { own.old.queue ≡ shared.now.jobs.now }
    requires root { root.old.shown.caller ≡ 0 }
    requires room { root.old.shown.next ≤ LAST_PASS }
    requires displays { root.old.displays < MOST_DISPLAYS }
    ensures is { IsSeatOf shared.now.book.now shared.now.jobs.now result }
    ensures number { result.pass.shown.caller ≡ root.old.shown.next }
    ensures new { result.pass.shown.mine ≡ [] }
    ensures root { root.new ≡ record root.old {
      displays = root.old.displays + 1;
      shown = record root.old.shown {
        next = root.old.shown.next + 1;
        away = root.old.shown.away + 1;
      };
    } }
    ensures of { IsOf shared.now.book.now root.new }
    ensures own { own.new.queue ≡ shared.now.jobs.now }
{
    let Ok(mut eyes) = shared.book.display(root) else {
        unreachable!();
    };
    let Caller { mut pass, own } = new_caller(shared, root, own);
    let _whether_it_was_shown = shared.book.show(rt, &mut pass, &mut eyes);
    Seat { pass, own, eyes }
}

/// The seats of so many workers, in the order of their numbers. The vector is empty, and has room for them.
pub(crate) fn new_seats<R: Wait, A: Allocate, G: Gate>(
    rt: &R,
    shared: &Shared<'_, A, G>,
    root: &mut BookPass,
    own: &mut JobPass,
    workers: u32,
    mut seats: Vec<Seat>,
) -> Vec<Seat>
    requires of { IsOf shared.now.book.now root.old }
    requires own { own.old.queue ≡ shared.now.jobs.now }
    requires root { root.old.shown.caller ≡ 0 }
    requires room { root.old.shown.next + workers ≤ LAST_PASS }
    requires displays { root.old.displays + workers ≤ MOST_DISPLAYS }
    requires empty { seats.items ≡ [] }
    requires capacity { workers ≤ vec_capacity seats }
    ensures seats { AreSeatsOf shared.now.book.now shared.now.jobs.now result.items }
    ensures new { AreNewFrom root.old.shown.next result.items }
    ensures count { length result.items ≡ workers }
    ensures root { root.new ≡ with_seats root.old workers }
    ensures of { IsOf shared.now.book.now root.new }
    ensures own { own.new.queue ≡ shared.now.jobs.now }
{
    for _worker in 0..workers {
        seats.push_reserved(new_seat(rt, shared, root, own));
    }
    seats
}

/// The root takes the workers' passes back, in the order of their seats.
fn take_seats_back<A: Allocate, G: Gate>(
    book: &Book<A, G>,
    root: &mut BookPass,
    mut seats: Vec<Seat>,
)
    requires of { IsOf book.now root.old }
    requires seats { All (λ seat. IsOf book.now seat.pass) seats.items }
    requires root { root.old.shown.caller ≡ 0 }
    ensures took { TookBack root.old root.new (map ended_at seats.items) }
    ensures of { IsOf book.now root.new }
{
    let _number = root.caller();
    let Some(seat) = seats.pop() else {
        return;
    };
    take_seats_back(book, root, seats);
    let Seat {
        pass,
        own: _,
        eyes: _,
    } = seat;
    book.take_back(root, pass);
}

/// The root takes all passes back.
pub(crate) fn take_all_back<A: Allocate, G: Gate>(
    book: &Book<A, G>,
    root: &mut BookPass,
    control: Caller,
    orders: Caller,
    crew: Crew,
)
    requires of { IsOf book.now root.old }
    requires control { IsOf book.now control.pass }
    requires orders { IsOf book.now orders.pass }
    requires seats { All (λ seat. IsOf book.now seat.pass) crew.seats.items }
    requires root { root.old.shown.caller ≡ 0 }
    ensures took { TookBack root.old root.new (ended_of control.pass.shown
        ∷ ended_of orders.pass.shown ∷ map ended_at crew.seats.items) }
    ensures control { IsPrefix control.pass.shown.seen root.new.shown.seen }
    ensures orders { IsPrefix orders.pass.shown.seen root.new.shown.seen }
    ensures of { IsOf book.now root.new }
{
    let Caller { pass, own: _ } = control;
    book.take_back(root, pass);
    let Caller { pass, own: _ } = orders;
    book.take_back(root, pass);
    let Crew { seats } = crew;
    take_seats_back(book, root, seats);
}
