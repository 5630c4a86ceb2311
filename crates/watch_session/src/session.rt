//! The session: two loops and the workers beside them.
ghost use Rattle.std.specs.Prelude.{◌≡◌, ◌≤◌, [], IfOk, OnErr, is_ok, vec_capacity};
ghost use Rattle.dp_io.specs.Shown.{reading, writing};
ghost use Rattle.plant_book.specs.Books.{IsOf, with_no_display};
ghost use Rattle.turn_lock.specs.Passes.{root_of};
ghost use Rattle.watch_session.specs.Loops.{TellsEnd};
ghost use Rattle.watch_session.specs.Watches.{CanFinish, Finishes, HasWatched, Watches};

use crate::callers::{new_caller, new_seats, take_all_back};
use crate::crew::{Crew, Seat};
use crate::looping::push_jobs;
use crate::reading::work_through;
use crate::shared::Shared;
use crate::stream::StreamEnds;
use allocator::Direct;
use analysis_jobs::{JobPass, Jobs, Rest};
use analysis_workers::sweep;
use dp_io::{Gate, Sink, Source};
use no_memory::NoMemory;
use plant_book::{Book, BookPass};
use plant_core::{Allocate, Core};
use plant_model::limits::{MOST_ENTRIES, MOST_WORKERS};
use plant_model::plant::Plant;
use std::alloc::Global;
use std::sync::Wait;
use std::thread::Threads;

/// A session that is over: the plant with its history, and how the streams ended. `is_whole` where the board was swept
/// and the session was closed, and not where memory ran out before.
#[derive(Drop)]
pub struct Watched {
    pub core: Core,
    pub ends: StreamEnds,
    pub is_whole: bool,
}

/// A session on a plant that was just started, once there is memory for its jobs and its workers' seats.
fn watch_with<
    R: Threads + Wait + Sync,
    A: Allocate + Sync,
    G: Gate + Sync,
    B: Source,
    C: Source + Send,
    O: Sink,
>(
    rt: &R,
    alloc: Global,
    shared: &Shared<'_, A, G>,
    root: &mut BookPass,
    own: &mut JobPass,
    workers: u32,
    seats: Vec<Seat>,
    second: &mut B,
    third: &mut C,
    out: &mut O,
) -> StreamEnds
    requires fresh { root.old
        ≡ with_no_display (root_of shared.now.book.now.lock shared.now.book.now.base) }
    requires own { own.old.queue ≡ shared.now.jobs.now }
    requires workers { workers ≤ MOST_WORKERS }
    requires empty { seats.items ≡ [] }
    requires capacity { workers ≤ vec_capacity seats }
    ensures watched { HasWatched workers result (reading B.Source second.old second.new)
        (reading C.Source third.old third.new) (writing O.Sink out.old out.new) root.new }
    ensures output { TellsEnd result.sensors (writing O.Sink out.old out.new) }
    ensures of { IsOf shared.now.book.now root.new }
{
    let mut control = new_caller(shared, root, own);
    let mut orders = new_caller(shared, root, own);
    let seats = new_seats(rt, shared, root, own, workers, seats);
    let mut crew = Crew { seats };
    let opening = shared.book.latest(rt, root);
    push_jobs(rt, shared, own, Some(opening));
    let ends = work_through(
        rt,
        alloc,
        shared,
        &mut crew,
        root,
        own,
        &mut control,
        &mut orders,
        second,
        third,
        out,
    );
    take_all_back(shared.book, root, control, orders, crew);
    ends
}

/// Everything between the start of a book and its end. At want of memory nothing was begun.
fn watch_over<
    R: Threads + Wait + Sync,
    A: Allocate + Sync,
    G: Gate + Sync,
    B: Source,
    C: Source + Send,
    O: Sink,
>(
    rt: &R,
    alloc: Global,
    book: &Book<A, G>,
    root: &mut BookPass,
    workers: u32,
    second: &mut B,
    third: &mut C,
    out: &mut O,
    gate: &G,
) -> Result<StreamEnds, NoMemory>
    requires fresh { root.old ≡ with_no_display (root_of book.now.lock book.now.base) }
    requires workers { workers ≤ MOST_WORKERS }
    ensures watched { IfOk result (λ ends. HasWatched workers ends
        (reading B.Source second.old second.new) (reading C.Source third.old third.new)
        (writing O.Sink out.old out.new) root.new) }
    ensures output { IfOk result (λ ends.
        TellsEnd ends.sensors (writing O.Sink out.old out.new)) }
    ensures unread { OnErr result (second.new ≡ second.old) }
    ensures unread_orders { OnErr result (third.new ≡ third.old) }
    ensures unwritten { OnErr result (out.new ≡ out.old) }
    ensures ready { CanFinish root.new }
    ensures of { IsOf book.now root.new }
{
    let (jobs, mut own) = Jobs::new(alloc)?;
    let Ok(seats) = Vec::with_capacity(alloc, workers as usize) else {
        return Err(NoMemory);
    };
    let rest = Rest::new();
    let shared = Shared {
        book,
        jobs: &jobs,
        rest: &rest,
        gate,
    };
    Ok(watch_with(
        rt, alloc, &shared, root, &mut own, workers, seats, second, third, out,
    ))
}

/// Publishes what the board lacks, and closes the session.
fn finish<R: Wait, A: Allocate, G: Gate>(
    rt: &R,
    book: &Book<A, G>,
    root: &mut BookPass,
) -> Result<(), NoMemory>
    requires of { IsOf book.now root.old }
    requires ready { CanFinish root.old }
    ensures finishes { Finishes (is_ok result) root.old root.new }
    ensures of { IsOf book.now root.new }
{
    sweep(rt, book, root)?;
    book.end(rt, root)?;
    Ok(())
}

/// A session of the plant over two streams, with so many workers. The frames of its commands are written as positions
/// are answered; its log and its report aren't. At want of memory nothing was begun.
pub fn watch<R: Threads + Wait + Sync, B: Source, C: Source + Send, O: Sink, G: Gate + Sync>(
    rt: &R,
    alloc: Global,
    plant: Plant,
    workers: u32,
    second: &mut B,
    third: &mut C,
    out: &mut O,
    gate: &G,
) -> Result<Watched, NoMemory>
    requires workers { workers ≤ MOST_WORKERS }
    ensures watched { IfOk result (λ watched. Watches plant workers watched.core watched.ends
        watched.is_whole (reading B.Source second.old second.new)
        (reading C.Source third.old third.new) (writing O.Sink out.old out.new)) }
    ensures output { IfOk result (λ watched.
        TellsEnd watched.ends.sensors (writing O.Sink out.old out.new)) }
    ensures unread { OnErr result (second.new ≡ second.old) }
    ensures unread_orders { OnErr result (third.new ≡ third.old) }
    ensures unwritten { OnErr result (out.new ≡ out.old) }
{
    let (book, mut root) = Book::start(rt, alloc, plant, MOST_ENTRIES, Direct, gate)?;
    let answer = watch_over(
        rt, alloc, &book, &mut root, workers, second, third, out, &gate,
    );
    let is_whole = finish(rt, &book, &mut root).is_ok();
    let core = book.close(rt, root);
    match answer {
        Ok(ends) => Ok(Watched {
            core,
            ends,
            is_whole,
        }),
        Err(no_memory) => Err(no_memory),
    }
}
