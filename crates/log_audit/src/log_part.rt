//! The lines from a log's first on: the log, and the report behind it.
ghost use Rattle.std.specs.Prelude.{◌≡◌, ℕ, ◌≤◌, ◌<◌, List, ◌++◌, ◌∷◌, [], length, drop, Ok, Bool};
ghost use Rattle.std.specs.Prelude.{true, false, IsTrue, IfNone, IfOk, IfSome, OnErr, string_bytes};
ghost use Rattle.frame.specs.Frames.{line_feed};
ghost use Rattle.plant_core.specs.declared.call.Entry.{Entry};
ghost use Rattle.plant_core.specs.Machine.{CoreView, IsCall, is_answer};
ghost use Rattle.log_text.specs.Commands.{command_text};
ghost use Rattle.log_text.specs.Lines.{line};
ghost use Rattle.log_text.specs.Texts.{report_text};
ghost use Rattle.log_reading.specs.Lines.{IsLineOf};
ghost use Rattle.log_audit.specs.Audits.{CanRead};
ghost use Rattle.log_audit.specs.Lines.{AreLines, HasNoFeed};
ghost use Rattle.log_audit.specs.SessionAudits.{IsAt, IsLogBehind, IsReportBehind};
ghost use Rattle.log_audit.specs.Steps.{HasTaken, MayStand, StaysBehind};
ghost use Rattle.log_audit.specs.declared.auditor.TheConstants.{MOST_LINES};

use crate::part::Part;
use crate::steps::take;
use log_reading::read_entry;
use log_text::{command_text, report_text};
use plant_core::{Allocate, Core, Entry, NoMemory};
use std::alloc::Global;

/// Takes the call of an entry into the machine, and keeps the frames of its command. False where the entry may not stand
/// next. `NoMemory` changes nothing.
fn take_framed<A: Allocate>(
    alloc: Global,
    core: &mut Core,
    frames: &mut Vec<u8>,
    entry: Entry,
    allocator: &A,
) -> Result<bool, NoMemory>
    requires call { IsCall core.old.plant entry.call }
    requires answered { IsTrue (is_answer entry.reply) }
    ensures taken { result ≡ Ok true → HasTaken core.old core.new entry }
    ensures framed { result ≡ Ok true
        → frames.new.items ≡ frames.old.items ++ command_text core.old.plant entry }
    ensures none { result ≡ Ok false → ¬ MayStand core.old entry }
    ensures behind { StaysBehind core.old core.new }
    ensures kept { OnErr result (core.new ≡ core.old) }
    ensures kept_frames { OnErr result (frames.new.items ≡ frames.old.items) }
{
    let text = command_text(alloc, core.plant(), &entry)?;
    let before = frames.len();
    frames.extend_from_slice(text.as_bytes())?;
    let taken = take(core, entry, allocator);
    if taken.is_err() {
        frames.truncate(before);
    }
    taken
}

/// The place behind a line and its line feed, where the text has them from this place on.
fn behind_line(text: &[u8], at: usize, own: &[u8]) -> Option<usize>
    ensures some { IfSome result (λ behind. (behind ≤ length text.now)
        × (at ≤ length text.now → drop at text.now ≡ line own.now ++ drop behind text.now)) }
    ensures none { IfNone result (at ≤ length text.now → (more : List ℕ)
        → ¬ (drop at text.now ≡ line own.now ++ more)) }
{
    let (_, rest) = text.split_at(at.min(text.len()));
    let more = rest.strip_prefix(own)?.strip_prefix(b"\n")?;
    Some(text.len() - more.len())
}

/// What a line makes of a report of which so many bytes were read, behind so many lines in all.
pub(crate) fn report_on(report: &[u8], taken: usize, lines: u32, own: &[u8]) -> Part
    requires feed { HasNoFeed own.now }
    requires room { lines < MOST_LINES }
    ensures goes_on { (core : CoreView) (kept frames : List ℕ) (before : List (List ℕ)) → CanRead core
        → lines ≡ length before → AreLines before
        → IsReportBehind core kept frames report.now taken before
        → IsAt result core kept frames report.now (before ++ own.now ∷ []) }
    ensures begins { (core : CoreView) (kept frames : List ℕ) (before : List (List ℕ)) → CanRead core
        → lines ≡ length before → AreLines before → taken ≡ 0
        → report.now ≡ report_text core.plant core.history
        → ((entry : Entry) → ¬ IsLineOf core.plant own.now entry)
        → IsLogBehind core kept frames before
        → IsAt result core kept frames report.now (before ++ own.now ∷ []) }
{
    match behind_line(report, taken, own) {
        Some(taken) => Part::Report { taken },
        None => Part::Bad { line: lines + 1 },
    }
}

/// What a line makes of a log that ends behind so many lines in all. `NoMemory` changes nothing.
pub(crate) fn log_on<A: Allocate>(
    alloc: Global,
    core: &mut Core,
    frames: &mut Vec<u8>,
    report: &mut String,
    lines: u32,
    own: &[u8],
    allocator: &A,
) -> Result<Part, NoMemory>
    requires read { CanRead core.old }
    requires feed { HasNoFeed own.now }
    requires room { lines < MOST_LINES }
    ensures stands { IfOk result (λ part. (kept : List ℕ) (before : List (List ℕ))
        → lines ≡ length before → AreLines before
        → IsLogBehind core.old kept frames.old.items before
        → IsAt part core.new kept frames.new.items (string_bytes report.new) (before ++ own.now ∷ [])) }
    ensures behind { StaysBehind core.old core.new }
    ensures kept { OnErr result (core.new ≡ core.old) }
    ensures kept_frames { OnErr result (frames.new.items ≡ frames.old.items) }
    ensures kept_report { OnErr result (string_bytes report.new ≡ string_bytes report.old) }
{
    match read_entry(core.plant(), own) {
        Some(entry) => {
            let is_next = take_framed(alloc, core, frames, entry, allocator)?;
            if is_next {
                Ok(Part::Log)
            } else {
                Ok(Part::Bad { line: lines + 1 })
            }
        }
        None => {
            let text = report_text(alloc, core)?;
            let part = report_on(text.as_bytes(), 0, lines, own);
            *report = text;
            Ok(part)
        }
    }
}
