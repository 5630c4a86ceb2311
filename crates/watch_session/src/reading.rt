//! Both streams are read, with the workers beside them.
ghost use Rattle.std.specs.Prelude.{◌≡◌, ◌^◌, ◌<◌, [], vec_len};
ghost use Rattle.std.specs.Thread.{IsSend, IsSync};
ghost use Rattle.dp_io.specs.Shown.{reading, writing};
ghost use Rattle.plant_book.specs.Books.{IsOf};
ghost use Rattle.watch_session.specs.Callers.{IsCaller};
ghost use Rattle.watch_session.specs.Crews.{AreSeatsOf, AreWorked, Publishes};
ghost use Rattle.watch_session.specs.Loops.{TakesOrders, TakesStream, TellsEnd};

use crate::crew::Crew;
use crate::looping::{take_orders, take_stream};
use crate::shared::{Caller, Shared};
use crate::stopping::stop_workers;
use crate::stream::{Stream, StreamEnd, StreamEnds};
use analysis_jobs::JobPass;
use dp_io::{Gate, Sink, Source};
use plant_book::BookPass;
use plant_core::Allocate;
use std::alloc::Global;
use std::sync::Wait;
use std::thread::{Threads, join_mut};

/// Reads both streams at the same time, the operators' in a thread of its own. Where no thread can be made, it is read
/// after the other.
fn read_both<
    R: Threads + Wait + Sync,
    A: Allocate + Sync,
    G: Gate + Sync,
    B: Source,
    C: Source + Send,
    O: Sink,
>(
    rt: &R,
    alloc: Global,
    shared: &Shared<'_, A, G>,
    control: &mut Caller,
    orders: &mut Caller,
    second: &mut B,
    third: &mut C,
    out: &mut O,
) -> StreamEnds
    requires control { IsCaller shared.now.book.now shared.now.jobs.now 1 control.old }
    requires control_new { control.old.pass.shown.mine ≡ [] }
    requires orders { IsCaller shared.now.book.now shared.now.jobs.now 2 orders.old }
    requires orders_new { orders.old.pass.shown.mine ≡ [] }
    ensures control { TakesStream result.sensors (reading B.Source second.old second.new)
        (writing O.Sink out.old out.new) control.new.pass }
    ensures output { TellsEnd result.sensors (writing O.Sink out.old out.new) }
    ensures control_stays { IsCaller shared.now.book.now shared.now.jobs.now 1 control.new }
    ensures orders { TakesOrders result.operators (reading C.Source third.old third.new)
        orders.new.pass }
    ensures orders_stays { IsCaller shared.now.book.now shared.now.jobs.now 2 orders.new }
{
    let (book, jobs, rest, gate) = (shared.book, shared.jobs, shared.rest, shared.gate);
    let (operators, sensors) = join_mut(
        rt,
        &mut || -> StreamEnd
            requires { IsSync R.row × IsSync A.row × IsSync G.row × IsSend C.row
                × IsCaller book.now jobs.now 2 orders.now
                × (orders.now.pass.shown.mine ≡ []) }
            ensures { TakesOrders result (reading C.Source third.entry.now third.exit.now)
                orders.exit.now.pass
                × IsCaller book.entry.now jobs.entry.now 2 orders.exit.now }
        {
            let shared = Shared {
                book,
                jobs,
                rest,
                gate,
            };
            take_orders(rt, alloc, &shared, orders, third)
        },
        &mut || -> StreamEnd
            requires { IsCaller book.now jobs.now 1 control.now
                × (control.now.pass.shown.mine ≡ []) }
            ensures { TakesStream result (reading B.Source second.entry.now second.exit.now)
                (writing O.Sink out.entry.now out.exit.now) control.exit.now.pass
                × TellsEnd result (writing O.Sink out.entry.now out.exit.now)
                × IsCaller book.entry.now jobs.entry.now 1 control.exit.now }
        {
            let shared = Shared {
                book,
                jobs,
                rest,
                gate,
            };
            take_stream(rt, alloc, &shared, Stream::Sensors, control, second, out)
        },
    );
    StreamEnds { sensors, operators }
}

/// Reads both streams, and then stops the workers.
fn read_and_stop<
    R: Threads + Wait + Sync,
    A: Allocate + Sync,
    G: Gate + Sync,
    B: Source,
    C: Source + Send,
    O: Sink,
>(
    rt: &R,
    alloc: Global,
    shared: &Shared<'_, A, G>,
    workers: u32,
    root: &mut BookPass,
    own: &mut JobPass,
    control: &mut Caller,
    orders: &mut Caller,
    second: &mut B,
    third: &mut C,
    out: &mut O,
) -> StreamEnds
    requires of { IsOf shared.now.book.now root.old }
    requires own { own.old.queue ≡ shared.now.jobs.now }
    requires control { IsCaller shared.now.book.now shared.now.jobs.now 1 control.old }
    requires control_new { control.old.pass.shown.mine ≡ [] }
    requires orders { IsCaller shared.now.book.now shared.now.jobs.now 2 orders.old }
    requires orders_new { orders.old.pass.shown.mine ≡ [] }
    ensures root { Publishes root.old root.new }
    ensures of { IsOf shared.now.book.now root.new }
    ensures control { TakesStream result.sensors (reading B.Source second.old second.new)
        (writing O.Sink out.old out.new) control.new.pass }
    ensures output { TellsEnd result.sensors (writing O.Sink out.old out.new) }
    ensures control_stays { IsCaller shared.now.book.now shared.now.jobs.now 1 control.new }
    ensures orders { TakesOrders result.operators (reading C.Source third.old third.new)
        orders.new.pass }
    ensures orders_stays { IsCaller shared.now.book.now shared.now.jobs.now 2 orders.new }
{
    let ends = read_both(rt, alloc, shared, control, orders, second, third, out);
    stop_workers(rt, shared, root, own, workers);
    ends
}

/// Reads both streams, with the workers beside, and then stops the workers.
pub(crate) fn work_through<
    R: Threads + Wait + Sync,
    A: Allocate + Sync,
    G: Gate + Sync,
    B: Source,
    C: Source + Send,
    O: Sink,
>(
    rt: &R,
    alloc: Global,
    shared: &Shared<'_, A, G>,
    crew: &mut Crew,
    root: &mut BookPass,
    own: &mut JobPass,
    control: &mut Caller,
    orders: &mut Caller,
    second: &mut B,
    third: &mut C,
    out: &mut O,
) -> StreamEnds
    requires crew { AreSeatsOf shared.now.book.now shared.now.jobs.now crew.old.seats.items }
    requires few { vec_len crew.old.seats < 2 ^ 32 }
    requires of { IsOf shared.now.book.now root.old }
    requires own { own.old.queue ≡ shared.now.jobs.now }
    requires control { IsCaller shared.now.book.now shared.now.jobs.now 1 control.old }
    requires control_new { control.old.pass.shown.mine ≡ [] }
    requires orders { IsCaller shared.now.book.now shared.now.jobs.now 2 orders.old }
    requires orders_new { orders.old.pass.shown.mine ≡ [] }
    ensures crew { AreWorked crew.old.seats.items crew.new.seats.items }
    ensures root { Publishes root.old root.new }
    ensures of { IsOf shared.now.book.now root.new }
    ensures control { TakesStream result.sensors (reading B.Source second.old second.new)
        (writing O.Sink out.old out.new) control.new.pass }
    ensures output { TellsEnd result.sensors (writing O.Sink out.old out.new) }
    ensures control_stays { IsCaller shared.now.book.now shared.now.jobs.now 1 control.new }
    ensures orders { TakesOrders result.operators (reading C.Source third.old third.new)
        orders.new.pass }
    ensures orders_stays { IsCaller shared.now.book.now shared.now.jobs.now 2 orders.new }
{
    let (book, jobs, rest, gate) = (shared.book, shared.jobs, shared.rest, shared.gate);
    let workers = crew.seats.len() as u32;
    let ((), ends) = join_mut(
        rt,
        &mut ||
            requires { IsSync R.row × IsSync A.row × IsSync G.row
                × AreSeatsOf book.now jobs.now crew.now.seats.items }
            ensures { AreWorked crew.entry.now.seats.items crew.exit.now.seats.items }
        {
            let shared = Shared {
                book,
                jobs,
                rest,
                gate,
            };
            crew.work(rt, alloc, &shared)
        },
        &mut || -> StreamEnds
            requires { IsSync R.row × IsSync A.row × IsSync G.row × IsSend C.row
                × IsOf book.now root.now × (own.now.queue ≡ jobs.now)
                × IsCaller book.now jobs.now 1 control.now
                × (control.now.pass.shown.mine ≡ [])
                × IsCaller book.now jobs.now 2 orders.now
                × (orders.now.pass.shown.mine ≡ []) }
            ensures { Publishes root.entry.now root.exit.now
                × IsOf book.entry.now root.exit.now
                × TakesStream result.sensors (reading B.Source second.entry.now second.exit.now)
                (writing O.Sink out.entry.now out.exit.now) control.exit.now.pass
                × TellsEnd result.sensors (writing O.Sink out.entry.now out.exit.now)
                × IsCaller book.entry.now jobs.entry.now 1 control.exit.now
                × TakesOrders result.operators (reading C.Source third.entry.now third.exit.now)
                orders.exit.now.pass
                × IsCaller book.entry.now jobs.entry.now 2 orders.exit.now }
        {
            let shared = Shared {
                book,
                jobs,
                rest,
                gate,
            };
            read_and_stop(
                rt, alloc, &shared, workers, root, own, control, orders, second, third, out,
            )
        },
    );
    ends
}
