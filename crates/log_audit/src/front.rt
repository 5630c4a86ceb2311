//! The lines before a log.
ghost use Rattle.std.specs.Prelude.{◌≡◌, ℕ, ◌+◌, ◌≤◌, ◌<◌, List, ◌++◌, ◌∷◌, [], length, Bool, true};
ghost use Rattle.std.specs.Prelude.{IfOk, OnErr, OnOk};
ghost use Rattle.frame.specs.Frames.{whole_lines};
ghost use Rattle.log_text.specs.Lines.{line};
ghost use Rattle.log_audit.specs.Audits.{CanRead};
ghost use Rattle.log_audit.specs.Lines.{AreLines, HasNoFeed};
ghost use Rattle.log_audit.specs.SessionAudits.{IsAt, IsFront, Keeps};
ghost use Rattle.log_audit.specs.Sessions.{begins_log, is_framed};
ghost use Rattle.log_audit.specs.declared.auditor.TheConstants.{MOST_LINES};

use crate::head::is_head;
use crate::part::Part;
use plant_core::{Core, NoMemory};

/// Whether the line begins a log.
fn begins_log(own: &[u8]) -> bool
    ensures { result ≡ begins_log own.now }
{
    own.strip_prefix(b"LOG,").is_some()
}

/// Whether the line may be that of a command's frame.
fn is_framed(own: &[u8]) -> bool
    ensures { result ≡ is_framed own.now }
{
    own.strip_prefix(b"$").is_some()
}

/// Appends the line and a line feed. `NoMemory` changes nothing.
fn push_line(text: &mut Vec<u8>, own: &[u8]) -> Result<(), NoMemory>
    ensures pushed { OnOk result (text.new.items ≡ text.old.items ++ line own.now) }
    ensures kept { OnErr result (text.new.items ≡ text.old.items) }
{
    let before = text.len();
    text.extend_from_slice(own)?;
    let pushed = text.push(b'\n');
    if pushed.is_err() {
        text.truncate(before);
    }
    Ok(pushed?)
}

/// What the first line that begins a log makes of the lines before it, so many.
fn opened(core: &Core, lines: u32, own: &[u8]) -> Part
    requires read { CanRead core.now }
    requires feed { HasNoFeed own.now }
    requires begins { begins_log own.now ≡ true }
    requires room { lines < MOST_LINES }
    ensures { (is_cut : Bool) (kept frames report : List ℕ) (before : List (List ℕ))
        → lines ≡ length before → AreLines before → IsFront core.now is_cut kept frames before
        → IsAt result core.now kept frames report (before ++ own.now ∷ []) }
{
    if is_head(core.plant(), own) {
        Part::Log
    } else {
        Part::Bad { line: lines + 1 }
    }
}

/// Keeps a line before a log; an empty one for the first that can't be a frame's, and none behind that. Whether there
/// was such a line. `NoMemory` changes nothing.
fn keep(kept: &mut Vec<u8>, is_cut: bool, own: &[u8]) -> Result<bool, NoMemory>
    requires feed { HasNoFeed own.now }
    ensures keeps { IfOk result (λ cut. (before : List (List ℕ))
        → Keeps is_cut kept.old.items before → Keeps cut kept.new.items (before ++ own.now ∷ [])) }
    ensures room { length (whole_lines kept.new.items) ≤ length (whole_lines kept.old.items) + 1 }
    ensures kept { OnErr result (kept.new.items ≡ kept.old.items) }
{
    if is_cut {
        return Ok(true);
    }
    if is_framed(own) {
        push_line(kept, own)?;
        Ok(false)
    } else {
        push_line(kept, b"")?;
        Ok(true)
    }
}

/// What a line makes of the lines before a log, so many. `NoMemory` changes nothing.
pub(crate) fn front_on(
    core: &Core,
    kept: &mut Vec<u8>,
    is_cut: bool,
    lines: u32,
    own: &[u8],
) -> Result<Part, NoMemory>
    requires read { CanRead core.now }
    requires feed { HasNoFeed own.now }
    requires room { lines < MOST_LINES }
    ensures stands { IfOk result (λ part. (frames report : List ℕ) (before : List (List ℕ))
        → lines ≡ length before → AreLines before
        → IsFront core.now is_cut kept.old.items frames before
        → IsAt part core.now kept.new.items frames report (before ++ own.now ∷ [])) }
    ensures room { length (whole_lines kept.new.items) ≤ length (whole_lines kept.old.items) + 1 }
    ensures kept { OnErr result (kept.new.items ≡ kept.old.items) }
{
    if begins_log(own) {
        return Ok(opened(core, lines, own));
    }
    let is_cut = keep(kept, is_cut, own)?;
    Ok(Part::Front { is_cut })
}
