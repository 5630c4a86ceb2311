//! What lines make of a log, and the verdict on it.
ghost use Rattle.std.specs.Prelude.{◌≡◌, ℕ, ◌≤◌, ◌<◌, List, ◌++◌, ◌∷◌, [], false, length};
ghost use Rattle.std.specs.Prelude.{IfOk, OnErr};
ghost use Rattle.log_audit.specs.Audits.{CanRead, IsRead, IsUnread, StandsAt};
ghost use Rattle.log_audit.specs.FirstBad.{text_of};
ghost use Rattle.log_audit.specs.Lines.{HasNoFeed};
ghost use Rattle.log_audit.specs.Steps.{StaysBehind};
ghost use Rattle.log_audit.specs.Verdicts.{IsVerdict};
ghost use Rattle.log_audit.specs.declared.auditor.TheConstants.{MOST_LINES};

use crate::head::is_head;
use crate::stage::Stage;
use crate::steps::step;
use crate::verdict::Verdict;
use plant_core::{Allocate, Core, NoMemory};

/// What the first line makes of a text.
fn opened(core: &Core, line: &[u8]) -> Stage
    requires read { CanRead core.now }
    requires feed { HasNoFeed line.now }
    ensures { (lines : List (List ℕ)) → IsUnread core.now lines
        → StandsAt result core.now (lines ++ line.now ∷ []) }
{
    if is_head(core.plant(), line) {
        Stage::Log { entries: 0 }
    } else {
        Stage::Bad { line: 1 }
    }
}

/// What a line makes of a log of so many lines. `NoMemory` changes nothing.
fn continued<A: Allocate>(
    core: &mut Core,
    lines: u32,
    line: &[u8],
    allocator: &A,
) -> Result<Stage, NoMemory>
    requires read { CanRead core.old }
    requires feed { HasNoFeed line.now }
    requires room { lines < MOST_LINES }
    ensures stands { IfOk result (λ stage. (before : List (List ℕ)) (entries : ℕ)
        → lines ≡ length before → IsRead core.old before entries
        → StandsAt stage core.new (before ++ line.now ∷ [])) }
    ensures behind { StaysBehind core.old core.new }
    ensures kept { OnErr result (core.new ≡ core.old) }
{
    let is_next = step(core, line, allocator)?;
    if is_next {
        Ok(Stage::Log { entries: lines })
    } else {
        Ok(Stage::Bad { line: lines + 1 })
    }
}

/// What a line makes of a text of so many lines. `NoMemory` changes nothing.
pub(crate) fn log_after<A: Allocate>(
    core: &mut Core,
    stage: Stage,
    lines: u32,
    line: &[u8],
    allocator: &A,
) -> Result<Stage, NoMemory>
    requires read { CanRead core.old }
    requires feed { HasNoFeed line.now }
    requires room { lines < MOST_LINES }
    ensures stands { IfOk result (λ after. (before : List (List ℕ)) → lines ≡ length before
        → StandsAt stage core.old before → StandsAt after core.new (before ++ line.now ∷ [])) }
    ensures behind { StaysBehind core.old core.new }
    ensures kept { OnErr result (core.new ≡ core.old) }
{
    match stage {
        Stage::Before => Ok(opened(core, line)),
        Stage::Log { .. } => continued(core, lines, line, allocator),
        Stage::Bad { line } => Ok(Stage::Bad { line }),
    }
}

/// The verdict on the text that the lines are, each with its line feed.
pub(crate) fn log_end(core: &Core, stage: Stage) -> Verdict
    requires { CanRead core.now }
    ensures { (lines : List (List ℕ)) → StandsAt stage core.now lines
        → IsVerdict false core.now.plant (text_of lines) result }
{
    match stage {
        Stage::Before => Verdict::NotALog { line: 1 },
        Stage::Log { entries } => Verdict::Legal { entries },
        Stage::Bad { line } => Verdict::NotALog { line },
    }
}

/// The verdict on the text that so many lines are, with a piece behind them that no line feed ends.
pub(crate) fn log_cut(core: &Core, stage: Stage, lines: u32) -> Verdict
    requires read { CanRead core.now }
    requires room { lines ≤ MOST_LINES }
    ensures { (before : List (List ℕ)) (piece : List ℕ) → lines ≡ length before
        → StandsAt stage core.now before → HasNoFeed piece → 0 < length piece
        → IsVerdict false core.now.plant (text_of before ++ piece) result }
{
    match stage {
        Stage::Before => Verdict::NotALog { line: 1 },
        Stage::Log { .. } => Verdict::NotALog { line: lines + 1 },
        Stage::Bad { line } => Verdict::NotALog { line },
    }
}
