//! A vote of a stream.
ghost use Rattle.std.specs.Prelude.{◌≡◌, ◌+◌, ◌-◌, ◌≤◌, ◌^◌, ◌++◌, [], ℕ, List, Option, OnErr, OnOk};
ghost use Rattle.std.specs.Prelude.{IfOk, length};
ghost use Rattle.dp_io.specs.Shown.{HasRisen, NoneFailed, reading, writing};
ghost use Rattle.frame.specs.Frames.{StandsFor, items, items_end};
ghost use Rattle.sensor_vote.specs.Calls.{StopsInside, WritesPart, WritesWhole};
ghost use Rattle.sensor_vote.specs.Steps.{CountsTo, HasHeard, HasWritten, StopsAmong, TakesStream};

use crate::watch::Watch;
use dp_io::{Failed, Sink, Source};
use frame::Framer;
use plant_model::limits::MOST_STREAM_BYTES;

/// The bytes that are read from a stream at a time.
const PIECE_BYTES: usize = 4_096;

/// What ended a stream.
#[derive(Clone, Copy, Debug, PartialEq, Eq)]
pub enum Ending {
    /// Its end of input.
    End,
    /// A read fault.
    Fault,
    /// A byte more than a stream may have.
    Long,
}

/// Keeps the items that these bytes of the stream complete, and writes what they give.
fn take_bytes<S: Sink>(
    watch: &mut Watch,
    framer: &mut Framer,
    report: bool,
    bytes: &[u8],
    out: &mut S,
) -> Result<(), Failed>
    requires short { length bytes.now ≤ 2 ^ 32 - 2 }
    requires counts { CountsTo watch.old (2 ^ 32 - 2 - length bytes.now) }
    ensures counts { OnOk result ((most : ℕ) → CountsTo watch.old most
        → CountsTo watch.new (most + length bytes.now)) }
    ensures stands { OnOk result ((fed : List ℕ) → StandsFor framer.old fed
        → StandsFor framer.new (fed ++ bytes.now)) }
    ensures written { OnOk result ((start : Option (List ℕ)) (fed : List ℕ)
        → StandsFor framer.old fed
        → HasWritten report start (S.taken out.old) watch.old (items fed)
        → HasWritten report start (S.taken out.new) watch.new (items (fed ++ bytes.now))) }
    ensures none_failed { OnOk result (NoneFailed (writing S.Sink out.old out.new)) }
    ensures stopped { OnErr result ((start : Option (List ℕ)) (fed : List ℕ)
        → StandsFor framer.old fed
        → HasWritten report start (S.taken out.old) watch.old (items fed)
        → StopsAmong report start (S.taken out.new) (items (fed ++ bytes.now)) (items fed)) }
    ensures failed { OnErr result (HasRisen (writing S.Sink out.old out.new)) }
{
    let mut rest = bytes;
    while !rest.is_empty() {
        let (item, left) = framer.feed_line(rest);
        rest = left;
        if let Some(item) = item {
            watch.tell(report, item, out)?;
        }
    }
    Ok(())
}

/// Keeps the item that the end of the stream completes, and writes what it gives.
fn take_end<S: Sink>(
    watch: &mut Watch,
    framer: &mut Framer,
    report: bool,
    out: &mut S,
) -> Result<(), Failed>
    requires { CountsTo watch.old (2 ^ 32 - 2) }
    ensures counts { (most : ℕ) → CountsTo watch.old most → CountsTo watch.new (most + 1) }
    ensures written { OnOk result ((start : Option (List ℕ)) (fed : List ℕ)
        → StandsFor framer.old fed
        → HasWritten report start (S.taken out.old) watch.old (items fed)
        → HasWritten report start (S.taken out.new) watch.new (items_end fed)) }
    ensures none_failed { OnOk result (NoneFailed (writing S.Sink out.old out.new)) }
    ensures stopped { OnErr result ((start : Option (List ℕ)) (fed : List ℕ)
        → StandsFor framer.old fed
        → HasWritten report start (S.taken out.old) watch.old (items fed)
        → StopsAmong report start (S.taken out.new) (items_end fed) (items fed)) }
    ensures failed { OnErr result (HasRisen (writing S.Sink out.old out.new)) }
{
    match framer.finish() {
        Some(item) => watch.tell(report, item, out),
        None => Ok(()),
    }
}

/// Keeps each item of a stream until the stream ends, in whatever pieces its bytes come, and writes
/// what it gives before it reads on.
fn take_stream<S: Source, O: Sink>(
    watch: &mut Watch,
    report: bool,
    source: &mut S,
    out: &mut O,
) -> Result<Ending, Failed>
    requires counts { CountsTo watch.old 0 }
    requires heard { HasHeard watch.old [] }
    ensures counts { OnOk result (CountsTo watch.new (MOST_STREAM_BYTES + 1)) }
    ensures taken { IfOk result (λ ending. TakesStream report ending
        (reading S.Source source.old source.new) (writing O.Sink out.old out.new) watch.new) }
    ensures stopped { OnErr result (StopsInside report (reading S.Source source.old source.new)
        (writing O.Sink out.old out.new)) }
    ensures failed { OnErr result (HasRisen (writing O.Sink out.old out.new)) }
{
    let mut framer = Framer::new();
    let mut piece = [0; PIECE_BYTES];
    let mut room = MOST_STREAM_BYTES;
    while let Ok(count) = source.read(&mut piece) {
        if count == 0 {
            take_end(watch, &mut framer, report, out)?;
            return Ok(Ending::End);
        }
        take_bytes(watch, &mut framer, report, &piece[..count.min(room)], out)?;
        if count > room {
            return Ok(Ending::Long);
        }
        room -= count;
    }
    Ok(Ending::Fault)
}

/// A vote of a stream: what each item gives is written, and then what stands after all.
pub fn vote_on<S: Source, O: Sink>(
    report: bool,
    source: &mut S,
    out: &mut O,
) -> Result<Ending, Failed>
    ensures whole { IfOk result (λ ending. WritesWhole report ending
        (reading S.Source source.old source.new) (writing O.Sink out.old out.new)) }
    ensures part { OnErr result (WritesPart report (reading S.Source source.old source.new)
        (writing O.Sink out.old out.new)) }
    ensures failed { OnErr result (HasRisen (writing O.Sink out.old out.new)) }
{
    let mut watch = Watch::new();
    let ending = take_stream(&mut watch, report, source, out)?;
    watch.tell_end(report, out)?;
    Ok(ending)
}
