//! The workers, each in a thread of its own.
ghost use Rattle.std.specs.Prelude.{◌≡◌, ◌+◌, ◌++◌, ◌∷◌, [], IfNone, IfSome, vec_capacity, vec_len};
ghost use Rattle.std.specs.Thread.{IsSync};
ghost use Rattle.watch_session.specs.Crews.{AreSeatsOf, AreWorked, IsSeatOf, IsWorked};

use crate::shared::Shared;
use analysis_jobs::{JobPass, Jobs, Rest};
use analysis_workers::work;
use dp_io::Gate;
use glance::GlancePass;
use plant_book::{Book, BookPass, PlantBoard};
use plant_core::Allocate;
use std::alloc::Global;
use std::mem;
use std::snapshot::Snapshot;
use std::sync::Wait;
use std::thread::{self, Promise, Scope, Threads};

/// What a worker has of its own: its pass of the book, that of the queue of jobs, and its display.
#[derive(Drop)]
pub(crate) struct Seat {
    pub(crate) pass: BookPass,
    pub(crate) own: JobPass,
    pub(crate) eyes: GlancePass<PlantBoard>,
}

/// That a worker gives its seat back, with published verdicts alone as its entries.
#[derive(Drop)]
struct Worked(Snapshot<Seat>);

impl Promise<Seat> for Worked {
    ghost use Rattle.watch_session.specs.Crews.{IsWorked};

    ghost kept_by = { λ promise seat. IsWorked promise.0.value seat };
}

/// Works at a seat until a Stop is taken, or until there is no memory for a verdict, which is then left to the sweep.
fn work_at<R: Wait, A: Allocate, G: Gate>(
    rt: &R,
    book: &Book<A, G>,
    jobs: &Jobs,
    rest: &Rest,
    gate: &G,
    seat: Seat,
) -> Seat
    requires { IsSeatOf book.now jobs.now seat }
    ensures { IsWorked seat result }
{
    let Seat {
        mut pass,
        mut own,
        mut eyes,
    } = seat;
    let _whether_it_stopped = work(rt, book, &mut pass, jobs, &mut own, rest, &mut eyes, gate);
    Seat { pass, own, eyes }
}

/// Takes the last seat, if there is one. It is of the book and of the queue, as all of them are.
fn last_seat<A: Allocate, G: Gate>(
    _book: &Book<A, G>,
    _jobs: &Jobs,
    seats: &mut Vec<Seat>,
) -> Option<Seat>
    requires { AreSeatsOf _book.now _jobs.now seats.old.items }
    ensures seat { IfSome result (IsSeatOf _book.now _jobs.now) }
    ensures front { IfSome result (λ seat. seats.old.items ≡ seats.new.items ++ seat ∷ []) }
    ensures fewer { IfSome result (λ seat. vec_len seats.old ≡ vec_len seats.new + 1) }
    ensures none { IfNone result ((vec_len seats.old ≡ 0) × (vec_len seats.new ≡ 0)) }
    ensures rest { AreSeatsOf _book.now _jobs.now seats.new.items }
    ensures capacity { vec_capacity seats.new ≡ vec_capacity seats.old }
{
    seats.pop()
}

/// Starts a thread for each seat, and waits for all of them. Where no thread can be made, this one works at the seat once
/// the others were started.
fn employ<'s, E, R: Threads + Wait + Sync, A: Allocate + Sync, G: Gate + Sync>(
    rt: &'s R,
    scope: &'s Scope<'s, E>,
    book: &'s Book<A, G>,
    jobs: &'s Jobs,
    rest: &'s Rest,
    gate: &'s G,
    mut seats: Vec<Seat>,
) -> Vec<Seat>
    requires { AreSeatsOf book.now jobs.now seats.items }
    ensures worked { AreWorked seats.items result.items }
    ensures len { vec_len result ≡ vec_len seats }
    ensures capacity { vec_capacity result ≡ vec_capacity seats }
{
    let Some(seat) = last_seat(book, jobs, &mut seats) else {
        return seats;
    };
    let promise = Worked(Snapshot::of(&seat));
    match scope.spawn_with(promise, move || work_at(rt, book, jobs, rest, gate, seat)) {
        Ok(child) => {
            let mut seats = employ(rt, scope, book, jobs, rest, gate, seats);
            seats.push_reserved(child.join(rt));
            seats
        }
        Err(refused) => {
            let mut seats = employ(rt, scope, book, jobs, rest, gate, seats);
            seats.push_reserved((refused.value)());
            seats
        }
    }
}

/// The workers of a session.
pub(crate) struct Crew {
    pub(crate) seats: Vec<Seat>,
}

impl Crew {
    /// Has all workers work until each has taken a Stop.
    pub(crate) fn work<R: Threads + Wait + Sync, A: Allocate + Sync, G: Gate + Sync>(
        &mut self,
        rt: &R,
        alloc: Global,
        shared: &Shared<'_, A, G>,
    )
        requires { AreSeatsOf shared.now.book.now shared.now.jobs.now self.old.seats.items }
        ensures { AreWorked self.old.seats.items self.new.seats.items }
    {
        let (book, jobs, rest, gate) = (shared.book, shared.jobs, shared.rest, shared.gate);
        let seats = mem::replace(&mut self.seats, Vec::new(alloc));
        self.seats = thread::scope(
            thread::scope_env(),
            rt,
            move |scope| -> Vec<Seat>
                requires { IsSync R.row × IsSync A.row × IsSync G.row
                    × AreSeatsOf book.now jobs.now seats.items }
                ensures { AreWorked seats.items result.items }
            { employ(rt, scope, book, jobs, rest, gate, seats) },
        );
    }
}
