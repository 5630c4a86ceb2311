//! A loop over one stream: each item is a call, whose frames are written at once, and each version that an answer makes
//! gives the workers a job for each group.
ghost use Rattle.std.specs.Prelude.{◌≡◌, ℕ, List, [], Option};
ghost use Rattle.dp_io.specs.Shown.{reading, writing};
ghost use Rattle.frame.specs.Frames.{StandsFor, items};
ghost use Rattle.plant_core.specs.Machine.{is_answer};
ghost use Rattle.watch_session.specs.Asked.{caller_on};
ghost use Rattle.watch_session.specs.Callers.{IsCaller};
ghost use Rattle.watch_session.specs.Loops.{HasAnswered, TakesBytes, TakesEnd, TakesItem};
ghost use Rattle.watch_session.specs.Loops.{TakesOrders, TakesStream, TellsEnd, TellsOutput};
ghost use Rattle.watch_session.specs.Loops.{WritesReply, end_of};

use crate::asking::{ask, call_for, command_of};
use crate::nowhere::Nowhere;
use crate::shared::{Caller, Shared};
use crate::stream::{Stream, StreamEnd};
use analysis_jobs::{Job, JobPass};
use dp_io::{Gate, Sink, Source, Stage};
use dp_sessions::{Ending, write_command};
use frame::{Framer, Item};
use no_memory::NoMemory;
use plant_book::Served;
use plant_core::{Allocate, Call, Entry, Reply};
use plant_model::limits::MOST_STREAM_BYTES;
use plant_model::plant::Plant;
use plant_model::status::Version;
use std::alloc::Global;
use std::sync::Wait;

/// The bytes that are read from a stream at a time.
const PIECE_BYTES: usize = 4_096;

/// Gives the workers a job for each group of a version that was made. A job that the full queue refuses is left to the
/// sweep.
pub(crate) fn push_jobs<R: Wait, A: Allocate, G: Gate>(
    rt: &R,
    shared: &Shared<'_, A, G>,
    own: &mut JobPass,
    made: Option<Version>,
)
    requires { own.old.queue ≡ shared.now.jobs.now }
    ensures { own.new.queue ≡ shared.now.jobs.now }
{
    let Some(version) = made else {
        return;
    };
    for group in 0..shared.book.plant().groups().len() as u32 {
        let _refused = shared.jobs.push(rt, own, Job::Analyse { version, group });
    }
    shared.rest.wake(rt);
}

/// Writes the frames of a command with this reply, if the call may have some.
fn write_reply<O: Sink>(
    alloc: Global,
    plant: &Plant,
    caller: u32,
    command: Option<Call>,
    reply: Reply,
    out: &mut O,
) -> Result<(), StreamEnd>
    ensures { WritesReply result plant.now caller command reply (writing O.Sink out.old out.new) }
{
    let Some(call) = command else {
        return Ok(());
    };
    let entry = Entry {
        caller,
        call,
        reply,
    };
    match write_command(alloc, plant, &entry, out) {
        Ok(true) => Ok(()),
        Ok(false) => Err(StreamEnd::Ended(Ending::Write)),
        Err(NoMemory) => Err(StreamEnd::NoFrames),
    }
}

/// Whether the call has an entry in the history.
fn is_answered(reply: &Reply) -> bool
    ensures { result ≡ is_answer reply.now }
{
    !matches!(reply, Reply::JournalFull | Reply::Closed)
}

/// Answers an item: its call is the caller's next entry. The frames of its command are written at once, and where it
/// made a version the workers are given their jobs.
fn take_item<R: Wait, A: Allocate, G: Gate, O: Sink>(
    rt: &R,
    alloc: Global,
    shared: &Shared<'_, A, G>,
    stream: Stream,
    caller: &mut Caller,
    item: Item,
    out: &mut O,
) -> Result<(), StreamEnd>
    requires is { IsCaller shared.now.book.now shared.now.jobs.now (caller_on stream) caller.old }
    ensures taken { TakesItem result caller.old.pass caller.new.pass item
        (writing O.Sink out.old out.new) }
    ensures output { TellsOutput result (writing O.Sink out.old out.new) }
    ensures stays { IsCaller shared.now.book.now shared.now.jobs.now (caller_on stream) caller.new }
{
    let number = caller.pass.caller();
    let call = call_for(stream, item);
    let command = command_of(&call);
    shared.gate.reached(Stage::Item(number));
    let answer = ask(rt, shared.book, &mut caller.pass, call);
    shared.gate.reached(Stage::Answered(number));
    let Ok(Served { reply, made }) = answer else {
        return Err(StreamEnd::NoAnswer);
    };
    if !is_answered(&reply) {
        return Err(StreamEnd::Ended(Ending::Full));
    }
    let written = write_reply(alloc, shared.book.plant(), number, command, reply, out);
    push_jobs(rt, shared, &mut caller.own, made);
    written
}

/// Answers the items that these bytes of the stream complete.
fn take_bytes<R: Wait, A: Allocate, G: Gate, O: Sink>(
    rt: &R,
    alloc: Global,
    shared: &Shared<'_, A, G>,
    stream: Stream,
    caller: &mut Caller,
    framer: &mut Framer,
    bytes: &[u8],
    out: &mut O,
) -> Result<(), StreamEnd>
    requires is { IsCaller shared.now.book.now shared.now.jobs.now (caller_on stream) caller.old }
    ensures taken { (start : Option (List ℕ)) (fed : List ℕ) → StandsFor framer.old fed
        → HasAnswered start (O.taken out.old) caller.old.pass (items fed)
        → TakesBytes result start (O.taken out.new) caller.new.pass framer.new fed bytes.now }
    ensures output { TellsOutput result (writing O.Sink out.old out.new) }
    ensures stays { IsCaller shared.now.book.now shared.now.jobs.now (caller_on stream) caller.new }
{
    for byte in bytes {
        if let Some(item) = framer.feed(*byte) {
            take_item(rt, alloc, shared, stream, caller, item, out)?;
        }
    }
    Ok(())
}

/// Answers the item that the end of the stream completes.
fn take_end<R: Wait, A: Allocate, G: Gate, O: Sink>(
    rt: &R,
    alloc: Global,
    shared: &Shared<'_, A, G>,
    stream: Stream,
    caller: &mut Caller,
    framer: &mut Framer,
    out: &mut O,
) -> Result<(), StreamEnd>
    requires is { IsCaller shared.now.book.now shared.now.jobs.now (caller_on stream) caller.old }
    ensures taken { (start : Option (List ℕ)) (fed : List ℕ) → StandsFor framer.old fed
        → HasAnswered start (O.taken out.old) caller.old.pass (items fed)
        → TakesEnd result start (O.taken out.new) caller.new.pass fed }
    ensures output { TellsOutput result (writing O.Sink out.old out.new) }
    ensures stays { IsCaller shared.now.book.now shared.now.jobs.now (caller_on stream) caller.new }
{
    match framer.finish() {
        Some(item) => take_item(rt, alloc, shared, stream, caller, item, out),
        None => Ok(()),
    }
}

/// What ended a stream that was read to its end.
fn end_of(taken: Result<(), StreamEnd>) -> StreamEnd
    ensures { result ≡ end_of taken }
{
    match taken {
        Ok(()) => StreamEnd::Ended(Ending::End),
        Err(end) => end,
    }
}

/// Answers each item of a stream until the stream ends, in whatever pieces its bytes come.
pub(crate) fn take_stream<R: Wait, A: Allocate, G: Gate, S: Source, O: Sink>(
    rt: &R,
    alloc: Global,
    shared: &Shared<'_, A, G>,
    stream: Stream,
    caller: &mut Caller,
    source: &mut S,
    out: &mut O,
) -> StreamEnd
    requires is { IsCaller shared.now.book.now shared.now.jobs.now (caller_on stream) caller.old }
    requires new { caller.old.pass.shown.mine ≡ [] }
    ensures taken { TakesStream result (reading S.Source source.old source.new)
        (writing O.Sink out.old out.new) caller.new.pass }
    ensures output { TellsEnd result (writing O.Sink out.old out.new) }
    ensures stays { IsCaller shared.now.book.now shared.now.jobs.now (caller_on stream) caller.new }
{
    let mut framer = Framer::new();
    let mut piece = [0; PIECE_BYTES];
    let mut room = MOST_STREAM_BYTES;
    while let Ok(count) = source.read(&mut piece) {
        if count == 0 {
            return end_of(take_end(rt, alloc, shared, stream, caller, &mut framer, out));
        }
        let bytes = &piece[..count.min(room)];
        if let Err(end) = take_bytes(rt, alloc, shared, stream, caller, &mut framer, bytes, out) {
            return end;
        }
        if count > room {
            return StreamEnd::Ended(Ending::Long);
        }
        room -= count;
    }
    StreamEnd::Ended(Ending::Fault)
}

/// Answers each item of the operators' stream, which has no commands.
pub(crate) fn take_orders<R: Wait, A: Allocate, G: Gate, S: Source>(
    rt: &R,
    alloc: Global,
    shared: &Shared<'_, A, G>,
    caller: &mut Caller,
    source: &mut S,
) -> StreamEnd
    requires is { IsCaller shared.now.book.now shared.now.jobs.now 2 caller.old }
    requires new { caller.old.pass.shown.mine ≡ [] }
    ensures taken { TakesOrders result (reading S.Source source.old source.new) caller.new.pass }
    ensures stays { IsCaller shared.now.book.now shared.now.jobs.now 2 caller.new }
{
    let mut nowhere = Nowhere;
    take_stream(
        rt,
        alloc,
        shared,
        Stream::Operators,
        caller,
        source,
        &mut nowhere,
    )
}
