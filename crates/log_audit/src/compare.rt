//! The frames of commands, line by line.
ghost use Rattle.std.specs.Prelude.{◌≡◌, ◌≤◌, length, IfNone, IfSome};
ghost use Rattle.frame.specs.Frames.{whole_lines};
ghost use Rattle.log_audit.specs.Differences.{DifferAt};
ghost use Rattle.log_audit.specs.declared.auditor.TheConstants.{MOST_LINES};

use crate::text::first_line;

/// The first line at which two texts differ, counted from 1. What stands behind their last line feeds isn't compared.
pub(crate) fn first_other(kept: &[u8], frames: &[u8]) -> Option<u32>
    requires { length (whole_lines kept.now) ≤ MOST_LINES }
    ensures none { IfNone result (whole_lines kept.now ≡ whole_lines frames.now) }
    ensures some { IfSome result (λ number. DifferAt (whole_lines kept.now) (whole_lines frames.now) number) }
{
    let mut number = 1;
    let mut left = kept;
    let mut rest = frames;
    while let Some((own, more)) = first_line(left) {
        let Some((frame, behind)) = first_line(rest) else {
            return Some(number);
        };
        if own != frame {
            return Some(number);
        }
        number += 1;
        left = more;
        rest = behind;
    }
    match first_line(rest) {
        Some(_) => Some(number),
        None => None,
    }
}
