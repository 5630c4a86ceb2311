//! Whole texts.
ghost use Rattle.std.specs.Prelude.{◌≤◌, length, IfNone, IfOk, IfSome};
ghost use Rattle.log_audit.specs.Lines.{HasNoFeed, IsFirstLine};
ghost use Rattle.log_audit.specs.Verdicts.{IsVerdict};
ghost use Rattle.log_audit.specs.declared.auditor.TheConstants.{MOST_LINES};

use crate::auditor::Auditor;
use crate::verdict::Verdict;
use memchr::memchr;
use plant_core::{Allocate, NoMemory};
use plant_model::plant::Plant;
use std::alloc::Global;

/// The first line of a text, and what stands behind its line feed. None where the text has no line feed.
pub(crate) fn first_line(text: &[u8]) -> Option<(&[u8], &[u8])>
    ensures some { IfSome result (λ parts. IsFirstLine text.now parts.0.now parts.1.now) }
    ensures none { IfNone result (HasNoFeed text.now) }
{
    let end = memchr(b'\n', text)?;
    let (line, _) = text.split_at(end);
    let (_, rest) = text.split_at(end + 1);
    Some((line, rest))
}

/// The verdict on a text: whether it is the log of a legal history of the plant, or all that a session writes of one.
/// The allocator answers positions.
pub fn verdict_on<A: Allocate + Drop>(
    alloc: Global,
    plant: Plant,
    session: bool,
    allocator: A,
    text: &[u8],
) -> Result<Verdict, NoMemory>
    requires { length text.now ≤ MOST_LINES }
    ensures { IfOk result (IsVerdict session plant text.now) }
{
    let mut auditor = Auditor::start(alloc, plant, session, allocator)?;
    let mut rest = text;
    while let Some((line, more)) = first_line(rest) {
        auditor.line(line)?;
        rest = more;
    }
    if rest.is_empty() {
        Ok(auditor.finish())
    } else {
        Ok(auditor.finish_cut())
    }
}
