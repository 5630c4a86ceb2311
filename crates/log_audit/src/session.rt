//! What lines make of a text that may be all that a session writes, and the verdict on it.
ghost use Rattle.std.specs.Prelude.{◌≡◌, ℕ, ◌+◌, ◌≤◌, ◌<◌, List, ◌++◌, ◌∷◌, [], true, length};
ghost use Rattle.std.specs.Prelude.{IfOk, OnErr, string_bytes};
ghost use Rattle.frame.specs.Frames.{whole_lines};
ghost use Rattle.plant_core.specs.Machine.{CoreView};
ghost use Rattle.log_audit.specs.Audits.{CanRead};
ghost use Rattle.log_audit.specs.FirstBad.{text_of};
ghost use Rattle.log_audit.specs.Lines.{AreLines, HasNoFeed};
ghost use Rattle.log_audit.specs.SessionAudits.{IsAt};
ghost use Rattle.log_audit.specs.Steps.{StaysBehind};
ghost use Rattle.log_audit.specs.Verdicts.{IsVerdict};
ghost use Rattle.log_audit.specs.declared.auditor.TheConstants.{MOST_LINES};

use crate::auditor::MOST_LINES;
use crate::compare::first_other;
use crate::front::front_on;
use crate::log_part::{log_on, report_on};
use crate::part::Part;
use crate::verdict::Verdict;
use plant_core::{Allocate, Core, NoMemory};
use std::alloc::Global;

/// What a line makes of a text of so many lines. `NoMemory` changes nothing.
pub(crate) fn session_after<A: Allocate>(
    alloc: Global,
    core: &mut Core,
    kept: &mut Vec<u8>,
    frames: &mut Vec<u8>,
    report: &mut String,
    part: Part,
    lines: u32,
    own: &[u8],
    allocator: &A,
) -> Result<Part, NoMemory>
    requires read { CanRead core.old }
    requires feed { HasNoFeed own.now }
    requires room { lines < MOST_LINES }
    ensures stands { IfOk result (λ after. (before : List (List ℕ)) → lines ≡ length before
        → AreLines before
        → IsAt part core.old kept.old.items frames.old.items (string_bytes report.old) before
        → IsAt after core.new kept.new.items frames.new.items (string_bytes report.new)
        (before ++ own.now ∷ [])) }
    ensures room { length (whole_lines kept.new.items) ≤ length (whole_lines kept.old.items) + 1 }
    ensures behind { StaysBehind core.old core.new }
    ensures kept { OnErr result (core.new ≡ core.old) }
    ensures kept_lines { OnErr result (kept.new.items ≡ kept.old.items) }
    ensures kept_frames { OnErr result (frames.new.items ≡ frames.old.items) }
    ensures kept_report { OnErr result (string_bytes report.new ≡ string_bytes report.old) }
{
    match part {
        Part::Front { is_cut } => front_on(core, kept, is_cut, lines, own),
        Part::Log => log_on(alloc, core, frames, report, lines, own, allocator),
        Part::Report { taken } => Ok(report_on(report.as_bytes(), taken, lines, own)),
        Part::Bad { line } => Ok(Part::Bad { line }),
    }
}

/// The verdict on the text that so many lines are, each with its line feed.
pub(crate) fn session_end(
    core: &Core,
    kept: &[u8],
    frames: &[u8],
    report: &[u8],
    part: Part,
    lines: u32,
) -> Verdict
    requires read { CanRead core.now }
    requires room { lines ≤ MOST_LINES }
    requires kept { length (whole_lines kept.now) ≤ MOST_LINES }
    ensures { (before : List (List ℕ)) → lines ≡ length before → AreLines before
        → IsAt part core.now kept.now frames.now report.now before
        → IsVerdict true core.now.plant (text_of before) result }
{
    let end = Verdict::NotALog { line: lines + 1 };
    match part {
        Part::Front { .. } => end,
        Part::Log => end,
        Part::Report { taken } => {
            if taken < report.len() {
                return end;
            }
            match first_other(kept, frames) {
                Some(line) => Verdict::NotALog { line },
                // A history has fewer entries than its text has lines.
                None => Verdict::Legal {
                    entries: core.history().len().min(MOST_LINES as usize) as u32,
                },
            }
        }
        Part::Bad { line } => Verdict::NotALog { line },
    }
}

/// The verdict on the text that so many lines are, with a piece behind them that no line feed ends.
pub(crate) fn session_cut(part: Part, lines: u32) -> Verdict
    requires { lines ≤ MOST_LINES }
    ensures { (core : CoreView) (kept frames report : List ℕ) (before : List (List ℕ))
        (piece : List ℕ) → CanRead core → lines ≡ length before → AreLines before
        → IsAt part core kept frames report before → HasNoFeed piece → 0 < length piece
        → IsVerdict true core.plant (text_of before ++ piece) result }
{
    let end = Verdict::NotALog { line: lines + 1 };
    match part {
        Part::Front { .. } => end,
        Part::Log => end,
        Part::Report { .. } => end,
        Part::Bad { line } => Verdict::NotALog { line },
    }
}
