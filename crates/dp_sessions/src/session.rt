//! A session over one stream: each item of the stream is a call of the machine, whose commands are written at once,
//! each version is analysed for each loss, and the history is written at the end.
ghost use Rattle.std.specs.Prelude.{◌≡◌, ◌≢◌, ◌≤◌, ◌<◌, List, ℕ, [], ◌⊎◌, length, false};
ghost use Rattle.std.specs.Prelude.{IfOk, OnOk, OnErr, Option};
ghost use Rattle.frame.specs.Frames.{StandsFor, items};
ghost use Rattle.plant_model.specs.declared.plant.Parts.{Parts};
ghost use Rattle.plant_core.specs.Board.{is_shown};
ghost use Rattle.plant_core.specs.Machine.{IsCall, state_of};
ghost use Rattle.dp_io.specs.Shown.{HasRisen, NoneFailed, reading, writing};
ghost use Rattle.dp_sessions.specs.Sessions.{AnswersItems, WritesBegun, WritesPart, WritesWhole};
ghost use Rattle.dp_sessions.specs.Sessions.{asked_for, caller_of, has_lost_cell, is_lost_cell};
ghost use Rattle.dp_sessions.specs.Sessions.{passed, recorded, status_of, told};
ghost use Rattle.dp_sessions.specs.Steps.{AddsSilent, AddsVerdict, AddsVerdicts, BeginsBytes};
ghost use Rattle.dp_sessions.specs.Steps.{BeginsEnd, BeginsItem, BeginsTaking, GaveManyItems};
ghost use Rattle.dp_sessions.specs.Steps.{HasAnswered, IsRunning, NoneIsShown, TakesBytes, TakesEnd};
ghost use Rattle.dp_sessions.specs.Steps.{TakesItem, TakesStream, number_of};
ghost use Rattle.dp_words.specs.Writing.{EndsText, EndsWriting};
ghost use Rattle.dp_sessions.specs.Writing.{WritesFrames};
ghost use Rattle.log_text.specs.Commands.{command_text};
ghost use Rattle.log_text.specs.Texts.{log_text, report_text};

use allocator::Direct;
use dp_io::{Sink, Source, send_all};
use dp_words::{RunStatus, send_lines};
use feasibility::analyse;
use frame::{Framer, Item};
use no_memory::NoMemory;
use plant_core::{Call, Cell, Core, Entry, Note, Reply};
use plant_model::limits::{MOST_ENTRIES, MOST_STREAM_BYTES};
use plant_model::plant::Plant;
use plant_model::status::Loss;
use std::alloc::Global;
use telegram::Telegram;

/// The bytes that are read from a stream at a time.
const PIECE_BYTES: usize = 4_096;

/// Who calls in a session on one thread.
#[derive(Clone, Copy, Debug, PartialEq, Eq)]
pub enum Caller {
    /// The session itself.
    Session,
    /// The control loop, which asks what the sensors' telegrams say and notes what is no telegram.
    ControlLoop,
    /// The operators.
    Operators,
}

impl Caller {
    /// Its number in the history.
    fn number(self) -> u32
        ensures { result ≡ number_of self }
    {
        match self {
            Caller::Session => 0,
            Caller::ControlLoop => 1,
            Caller::Operators => 2,
        }
    }
}

/// What ended a stream.
#[derive(Clone, Copy, Debug, PartialEq, Eq)]
pub enum Ending {
    /// Its end of input.
    End,
    /// A read fault.
    Fault,
    /// A byte more than a stream may have.
    Long,
    /// An item more than a history has room for.
    Full,
    /// A write fault in the frames of a command.
    Write,
}

/// How a session ended of which all was written: its stream's ending, and whether the demand isn't met after some loss.
#[derive(Clone, Copy, Debug, PartialEq, Eq)]
pub struct Ended {
    pub ending: Ending,
    pub is_lost: bool,
}

/// Who asks for what a telegram says: the control loop at the telegrams of sensors, else the operators.
fn caller_of(telegram: &Telegram) -> Caller
    ensures { number_of result ≡ caller_of telegram.now }
{
    match telegram {
        Telegram::Position { .. } | Telegram::Wind { .. } => Caller::ControlLoop,
        _ => Caller::Operators,
    }
}

/// What is asked for an item, and by which caller.
fn asked_for(item: Item) -> (Caller, Call)
    ensures asked { (number_of result.0, result.1) ≡ asked_for item }
    ensures within { (plant : Parts) → IsCall plant result.1 }
{
    match item {
        Item::Body(body) => match telegram::read(&body) {
            Ok(telegram) => (caller_of(&telegram), Call::Telegram(telegram)),
            Err(reject) => (Caller::ControlLoop, Call::Note(Note::Rejected(reject))),
        },
        Item::Damaged(damage) => (Caller::ControlLoop, Call::Note(Note::Damaged(damage))),
    }
}

/// Publishes a verdict of the latest version on the loss of a group, whose place is below the plant's count. It is
/// shown.
fn publish(core: &mut Core, group: u32) -> Result<(), NoMemory>
    requires group { group < length core.old.plant.groups.items }
    requires is_open { (state_of core.old).is_closed ≡ false }
    requires unshown { is_shown (state_of core.old) group ≡ false }
    ensures plant { core.new.plant ≡ core.old.plant }
    ensures limit { core.new.limit ≡ core.old.limit }
    ensures verdict { OnOk result (AddsVerdict core.old core.new group) }
    ensures kept { OnErr result (core.new ≡ core.old) }
{
    let version = *core.latest();
    let outcome = analyse(
        core.plant(),
        &version.status,
        Loss::Group(group),
        version.demand,
    );
    let verdict = Call::Publish {
        version: version.number,
        group,
        outcome,
    };
    core.apply(Caller::Session.number(), verdict, &Direct)?;
    Ok(())
}

/// Publishes verdicts of the latest version on the losses of all groups, in order. Each is shown.
fn publish_all(core: &mut Core) -> Result<(), NoMemory>
    requires is_open { (state_of core.old).is_closed ≡ false }
    requires unshown { NoneIsShown core.old.plant (state_of core.old) }
    ensures plant { core.new.plant ≡ core.old.plant }
    ensures limit { core.new.limit ≡ core.old.limit }
    ensures verdicts { OnOk result (AddsVerdicts core.old core.new) }
    ensures silent { OnErr result (AddsSilent core.old core.new) }
{
    for group in 0..core.plant().groups().len() as u32 {
        publish(core, group)?;
    }
    Ok(())
}

/// Writes the frames of an entry's command, each as a piece of its own. False at a write fault.
pub fn write_command<S: Sink>(
    alloc: Global,
    plant: &Plant,
    entry: &Entry,
    out: &mut S,
) -> Result<bool, NoMemory>
    ensures frames { IfOk result (λ is_written. WritesFrames is_written
        (writing S.Sink out.old out.new) (command_text plant.now entry.now)) }
    ensures kept { OnErr result (out.new ≡ out.old) }
    ensures counted { S.faults out.old ≤ S.faults out.new }
{
    let frames = log_text::command_text(alloc, plant, entry)?;
    Ok(send_lines(out, frames.as_bytes()).is_ok())
}

/// Answers an item: its call is the next entry of the history. The frames of its command are written at once, and
/// where it made a version, verdicts on all losses are published. Some ending where the stream ends here: `Full` where
/// the history has no room for the item, and then nothing changed, or `Write` where the frames couldn't be written.
fn take_item<S: Sink>(
    alloc: Global,
    core: &mut Core,
    item: Item,
    out: &mut S,
) -> Result<Option<Ending>, NoMemory>
    requires { IsRunning core.old }
    ensures plant { core.new.plant ≡ core.old.plant }
    ensures limit { core.new.limit ≡ core.old.limit }
    ensures taken { IfOk result (λ ending. TakesItem ending core.old core.new item
        (writing S.Sink out.old out.new)) }
    ensures begun { OnErr result
        (BeginsItem core.old core.new item (writing S.Sink out.old out.new)) }
    ensures failed { result ≡ Ok (Some Ending.Write)
        → HasRisen (writing S.Sink out.old out.new) }
    ensures no_fault { IfOk result (λ ending. ending ≢ Some Ending.Write
        → NoneFailed (writing S.Sink out.old out.new)) }
    ensures counted { S.faults out.old ≤ S.faults out.new }
{
    let (caller, call) = asked_for(item);
    let version = core.latest().number;
    let reply = core.apply(caller.number(), call, &Direct)?;
    if matches!(reply, Reply::JournalFull) {
        return Ok(Some(Ending::Full));
    }
    let Some(entry) = core.history().last() else {
        unreachable!();
    };
    let is_written = write_command(alloc, core.plant(), entry, out)?;
    if core.latest().number != version {
        publish_all(core)?;
    }
    Ok(if is_written {
        None
    } else {
        Some(Ending::Write)
    })
}

/// Answers the items that these bytes of the stream complete. Some ending where the stream ends at one.
fn take_bytes<S: Sink>(
    alloc: Global,
    core: &mut Core,
    framer: &mut Framer,
    bytes: &[u8],
    out: &mut S,
) -> Result<Option<Ending>, NoMemory>
    requires { IsRunning core.old }
    ensures plant { core.new.plant ≡ core.old.plant }
    ensures limit { core.new.limit ≡ core.old.limit }
    ensures running { OnOk result (IsRunning core.new) }
    ensures taken { IfOk result (λ ending. (start : Option (List ℕ)) (fed : List ℕ)
        → StandsFor framer.old fed → HasAnswered start (S.taken out.old) core.old (items fed)
        → TakesBytes ending start (S.taken out.new) core.new framer.new fed bytes.now) }
    ensures begun { OnErr result (BeginsBytes framer.old core.old core.new bytes.now
        (writing S.Sink out.old out.new)) }
    ensures failed { result ≡ Ok (Some Ending.Write)
        → HasRisen (writing S.Sink out.old out.new) }
    ensures no_fault { IfOk result (λ ending. ending ≢ Some Ending.Write
        → NoneFailed (writing S.Sink out.old out.new)) }
    ensures counted { S.faults out.old ≤ S.faults out.new }
{
    for byte in bytes {
        if let Some(item) = framer.feed(*byte) {
            let ending = take_item(alloc, core, item, out)?;
            if ending.is_some() {
                return Ok(ending);
            }
        }
    }
    Ok(None)
}

/// Answers the item that the end of the stream completes.
fn take_end<S: Sink>(
    alloc: Global,
    core: &mut Core,
    framer: &mut Framer,
    out: &mut S,
) -> Result<Ending, NoMemory>
    requires { IsRunning core.old }
    ensures plant { core.new.plant ≡ core.old.plant }
    ensures limit { core.new.limit ≡ core.old.limit }
    ensures running { OnOk result (IsRunning core.new) }
    ensures taken { IfOk result (λ ending. (start : Option (List ℕ)) (fed : List ℕ)
        → StandsFor framer.old fed → HasAnswered start (S.taken out.old) core.old (items fed)
        → TakesEnd ending start (S.taken out.new) core.new fed) }
    ensures begun { OnErr result (BeginsEnd framer.old core.old core.new
        (writing S.Sink out.old out.new)) }
    ensures failed { result ≡ Ok Ending.Write
        → HasRisen (writing S.Sink out.old out.new) }
    ensures no_fault { IfOk result (λ ending. ending ≢ Ending.Write
        → NoneFailed (writing S.Sink out.old out.new)) }
    ensures counted { S.faults out.old ≤ S.faults out.new }
{
    let Some(item) = framer.finish() else {
        return Ok(Ending::End);
    };
    let ending = take_item(alloc, core, item, out)?;
    Ok(ending.unwrap_or(Ending::End))
}

/// Answers each item of a stream until the stream ends, in whatever pieces its bytes come.
fn take_stream<S: Source, O: Sink>(
    alloc: Global,
    core: &mut Core,
    source: &mut S,
    out: &mut O,
) -> Result<Ending, NoMemory>
    requires running { IsRunning core.old }
    requires new { AnswersItems core.old.plant core.old.history [] }
    requires limit { core.old.limit ≡ MOST_ENTRIES }
    ensures plant { core.new.plant ≡ core.old.plant }
    ensures limit { core.new.limit ≡ core.old.limit }
    ensures taken { IfOk result (λ ending. TakesStream ending
        (reading S.Source source.old source.new) (writing O.Sink out.old out.new)
        core.new) }
    ensures begun { OnErr result (BeginsTaking
        (reading S.Source source.old source.new) (writing O.Sink out.old out.new)
        core.new) }
    ensures read { IfOk result (λ ending. ending ≢ Ending.Fault
        → NoneFailed (reading S.Source source.old source.new)) }
    ensures no_fault { IfOk result (λ ending. ending ≢ Ending.Write
        → NoneFailed (writing O.Sink out.old out.new)) }
    ensures counted { S.faults source.old ≤ S.faults source.new }
    ensures written { O.faults out.old ≤ O.faults out.new }
{
    let mut framer = Framer::new();
    let mut piece = [0; PIECE_BYTES];
    let mut room = MOST_STREAM_BYTES;
    while let Ok(count) = source.read(&mut piece) {
        if count == 0 {
            return take_end(alloc, core, &mut framer, out);
        }
        let taken = take_bytes(alloc, core, &mut framer, &piece[..count.min(room)], out)?;
        if let Some(ending) = taken {
            return Ok(ending);
        }
        if count > room {
            return Ok(Ending::Long);
        }
        room -= count;
    }
    Ok(Ending::Fault)
}

/// Writes the log of the history, each line as a piece of its own. The error is `WriteFault` or `NoMemory`.
fn write_log<S: Sink>(alloc: Global, core: &Core, out: &mut S) -> Result<(), RunStatus>
    ensures { EndsText result (writing S.Sink out.old out.new)
        (log_text core.now.plant core.now.history) }
{
    let head = log_text::log_head(alloc, core.plant())?;
    send_all(out, head.as_bytes())?;
    for entry in core.history() {
        let line = log_text::entry_text(alloc, core.plant(), entry)?;
        send_all(out, line.as_bytes())?;
    }
    Ok(())
}

/// Writes the report of the history, each line as a piece of its own. The error is `WriteFault` or `NoMemory`.
fn write_report<S: Sink>(alloc: Global, core: &Core, out: &mut S) -> Result<(), RunStatus>
    ensures { EndsText result (writing S.Sink out.old out.new)
        (report_text core.now.plant core.now.history) }
{
    let report = log_text::report_text(alloc, core)?;
    send_lines(out, report.as_bytes())?;
    Ok(())
}

/// Writes the log of the history and then its report. The error is `WriteFault` or `NoMemory`.
pub fn write_history<S: Sink>(alloc: Global, core: &Core, out: &mut S) -> Result<(), RunStatus>
    ensures { EndsText result (writing S.Sink out.old out.new)
        (told core.now.plant core.now.history) }
{
    write_log(alloc, core, out)?;
    write_report(alloc, core, out)
}

fn is_lost_cell(cell: &Cell) -> bool
    ensures { result ≡ is_lost_cell cell.now }
{
    match cell {
        Cell::Pending => false,
        Cell::Seen { holds, current, .. } => *current && !*holds,
    }
}

/// Whether the report says of some group that the demand isn't met after its loss.
pub fn has_lost_cell(core: &Core) -> bool
    ensures { result ≡ has_lost_cell core.now.plant core.now.history }
{
    let cells = core.cells();
    cells.list.as_slice().iter().any(|cell| is_lost_cell(cell))
}

impl Ended {
    /// The status of a session that ended so.
    pub fn status(self) -> RunStatus
        ensures { result ≡ status_of self.ending self.is_lost }
    {
        match self.ending {
            Ending::End if self.is_lost => RunStatus::LossFound,
            Ending::End => RunStatus::Clear,
            Ending::Fault => RunStatus::ReadFault,
            Ending::Long => RunStatus::StreamTooLong,
            Ending::Full => RunStatus::JournalFull,
            Ending::Write => RunStatus::WriteFault,
        }
    }
}

/// A session of the plant over a stream: verdicts on all losses are published for the opening and for each new version,
/// each item is answered, with the frames of its command written at once, the session is closed, and its history is
/// written. The error is `WriteFault` or `NoMemory`.
pub fn session<S: Source, O: Sink>(
    alloc: Global,
    plant: Plant,
    source: &mut S,
    out: &mut O,
) -> Result<Ended, RunStatus>
    ensures ended { IfOk result (λ ended. WritesWhole plant ended.ending
        (status_of ended.ending ended.is_lost)
        (recorded (passed S.Source source.old source.new)
        (writing O.Sink out.old out.new))
        (writing O.Sink out.old out.new)) }
    ensures whole { IfOk result (λ ended. ended.ending ≢ Ending.Write) }
    ensures full { IfOk result (λ ended. ended.ending ≡ Ending.Full
        → GaveManyItems (reading S.Source source.old source.new)) }
    ensures cut { result ≡ Err RunStatus.WriteFault → WritesPart plant
        (recorded (passed S.Source source.old source.new)
        (writing O.Sink out.old out.new))
        (writing O.Sink out.old out.new) }
    ensures begun { result ≡ Err RunStatus.NoMemory
        → (O.taken out.new ≡ O.taken out.old) ⊎ WritesBegun plant
        (recorded (passed S.Source source.old source.new)
        (writing O.Sink out.old out.new))
        (writing O.Sink out.old out.new) }
    ensures writing { EndsWriting result (writing O.Sink out.old out.new) }
{
    let mut core = Core::start(alloc, plant, MOST_ENTRIES)?;
    publish_all(&mut core)?;
    let ending = take_stream(alloc, &mut core, source, out)?;
    core.apply(Caller::Session.number(), Call::Close, &Direct)?;
    if ending == Ending::Write {
        return Err(RunStatus::WriteFault);
    }
    write_history(alloc, &core, out)?;
    let is_lost = has_lost_cell(&core);
    Ok(Ended { ending, is_lost })
}
