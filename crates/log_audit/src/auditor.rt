//! From the lines of a text to the verdict on it.
ghost use Rattle.std.specs.Prelude.{◌≡◌, ℕ, ◌+◌, ◌≤◌, ◌<◌, List, ◌++◌, ◌∷◌, [], length, Bool};
ghost use Rattle.std.specs.Prelude.{IfOk, OnErr, OnOk, string_bytes};
ghost use Rattle.frame.specs.Frames.{whole_lines};
ghost use Rattle.plant_core.specs.Machine.{CoreView};
ghost use Rattle.log_audit.specs.Audits.{CanRead};
ghost use Rattle.log_audit.specs.FirstBad.{text_of};
ghost use Rattle.log_audit.specs.Lines.{AreLines, HasNoFeed};
ghost use Rattle.log_audit.specs.Auditors.{Audits, IsAs, Reads, is_session};
ghost use Rattle.log_audit.specs.Steps.{StaysBehind};
ghost use Rattle.log_audit.specs.Verdicts.{IsVerdict};

use crate::head::has_names;
use crate::log::{log_after, log_cut, log_end};
use crate::part::{Part, Reading};
use crate::session::{session_after, session_cut, session_end};
use crate::stage::Stage;
use crate::verdict::Verdict;
use plant_core::{Allocate, Core, NoMemory};
use plant_model::limits::MOST_ENTRIES;
use plant_model::plant::Plant;
use std::alloc::Global;
use std::marker::Model;

/// How many lines an auditor reads.
pub const MOST_LINES: u32 = u32::MAX - 1;

/// A reader of the lines of a text that may be a log of a plant, or all that a session of the plant writes: the frames
/// of its commands, its log and its report. Contracts see the machine that takes the calls of the log's entries, how
/// many lines were read, what is kept of those before the log of a session, the frames of the log's commands and the
/// report, and how far the lines are such a text.
#[derive(Drop)]
pub struct Auditor<A: Allocate> {
    alloc: Global,
    core: Core,
    allocator: A,
    lines: u32,
    kept: Vec<u8>,
    frames: Vec<u8>,
    report: String,
    reading: Reading,
}

impl<A: Allocate> Model for Auditor<A> {
    ghost use Rattle.std.specs.Prelude.{◌≤◌, length, string_bytes};
    ghost use Rattle.frame.specs.Frames.{whole_lines};
    ghost use Rattle.log_audit.specs.Audits.{CanRead};
    ghost use Rattle.log_audit.specs.Auditors.{AuditView};
    ghost use Rattle.log_audit.specs.declared.auditor.TheConstants.{MOST_LINES};

    ghost Value = { AuditView };

    ghost view = { λ auditor. record {
      core = auditor.core;
      lines = auditor.lines;
      kept = auditor.kept.items;
      frames = auditor.frames.items;
      report = string_bytes auditor.report;
      reading = auditor.reading;
    } };

    ghost invariant = { λ auditor. (auditor.lines ≤ MOST_LINES)
        × (length (whole_lines auditor.kept.items) ≤ auditor.lines) × CanRead auditor.core };
}

/// Where the lines of a text begin, as a log or as all that a session writes.
fn opening(session: bool) -> Reading
    ensures session { is_session result ≡ session }
    ensures reads { (core : CoreView) → core.history ≡ [] → Reads result core [] [] [] [] }
{
    if session {
        Reading::Session(Part::Front { is_cut: false })
    } else {
        Reading::Log(Stage::Before)
    }
}

/// What a line makes of a text of so many lines. `NoMemory` changes nothing.
fn after<A: Allocate>(
    alloc: Global,
    core: &mut Core,
    kept: &mut Vec<u8>,
    frames: &mut Vec<u8>,
    report: &mut String,
    reading: Reading,
    lines: u32,
    line: &[u8],
    allocator: &A,
) -> Result<Reading, NoMemory>
    requires read { CanRead core.old }
    requires feed { HasNoFeed line.now }
    requires room { lines < MOST_LINES }
    ensures reads { IfOk result (λ after. (before : List (List ℕ)) → lines ≡ length before
        → AreLines before
        → Reads reading core.old kept.old.items frames.old.items (string_bytes report.old) before
        → Reads after core.new kept.new.items frames.new.items (string_bytes report.new)
        (before ++ line.now ∷ [])) }
    ensures session { IfOk result (λ after. is_session after ≡ is_session reading) }
    ensures room { length (whole_lines kept.new.items) ≤ length (whole_lines kept.old.items) + 1 }
    ensures behind { StaysBehind core.old core.new }
    ensures kept { OnErr result (core.new ≡ core.old) }
    ensures kept_lines { OnErr result (kept.new.items ≡ kept.old.items) }
    ensures kept_frames { OnErr result (frames.new.items ≡ frames.old.items) }
    ensures kept_report { OnErr result (string_bytes report.new ≡ string_bytes report.old) }
{
    match reading {
        Reading::Log(stage) => {
            let stage = log_after(core, stage, lines, line, allocator)?;
            Ok(Reading::Log(stage))
        }
        Reading::Session(part) => {
            let part = session_after(
                alloc, core, kept, frames, report, part, lines, line, allocator,
            )?;
            Ok(Reading::Session(part))
        }
    }
}

impl<A: Allocate + Drop> Auditor<A> {
    /// An auditor of the logs of a plant, or of what its sessions write, that has read no line. The allocator answers
    /// positions.
    pub fn start(
        alloc: Global,
        plant: Plant,
        session: bool,
        allocator: A,
    ) -> Result<Auditor<A>, NoMemory>
        ensures plant { IfOk result (λ auditor. auditor.core.plant ≡ plant) }
        ensures session { IfOk result (λ auditor. is_session auditor.reading ≡ session) }
        ensures count { IfOk result (λ auditor. auditor.lines ≡ 0) }
        ensures none { IfOk result (λ auditor. Audits auditor []) }
    {
        has_names(&plant);
        Ok(Auditor {
            alloc,
            core: Core::start(alloc, plant, MOST_ENTRIES)?,
            allocator,
            lines: 0,
            kept: Vec::new(alloc),
            frames: Vec::new(alloc),
            report: String::new(alloc),
            reading: opening(session),
        })
    }

    /// Reads one line more, without the line feed that ends it. `NoMemory` changes nothing.
    pub fn line(&mut self, line: &[u8]) -> Result<(), NoMemory>
        requires feed { HasNoFeed line.now }
        requires room { self.old.lines < MOST_LINES }
        ensures read { OnOk result ((lines : List (List ℕ)) → Audits self.old lines
            → Audits self.new (lines ++ line.now ∷ [])) }
        ensures count { OnOk result (self.new.lines ≡ self.old.lines + 1) }
        ensures same { IsAs self.old self.new }
        ensures kept { OnErr result (self.new ≡ self.old) }
    {
        self.reading = after(
            self.alloc,
            &mut self.core,
            &mut self.kept,
            &mut self.frames,
            &mut self.report,
            self.reading,
            self.lines,
            line,
            &self.allocator,
        )?;
        self.lines += 1;
        Ok(())
    }

    /// The verdict on the text that the lines are, each with its line feed.
    pub fn finish(self) -> Verdict
        ensures { (lines : List (List ℕ)) → Audits self lines
            → IsVerdict (is_session self.reading) self.core.plant (text_of lines) result }
    {
        match self.reading {
            Reading::Log(stage) => log_end(&self.core, stage),
            Reading::Session(part) => session_end(
                &self.core,
                self.kept.as_slice(),
                self.frames.as_slice(),
                self.report.as_bytes(),
                part,
                self.lines,
            ),
        }
    }

    /// The verdict on the text that the lines are, with a piece behind them that no line feed ends.
    pub fn finish_cut(self) -> Verdict
        ensures { (lines : List (List ℕ)) (piece : List ℕ) → Audits self lines → HasNoFeed piece
            → 0 < length piece
            → IsVerdict (is_session self.reading) self.core.plant (text_of lines ++ piece) result }
    {
        match self.reading {
            Reading::Log(stage) => log_cut(&self.core, stage, self.lines),
            Reading::Session(part) => session_cut(part, self.lines),
        }
    }
}
