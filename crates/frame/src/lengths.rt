//! How long bodies and frames are.
ghost use Rattle.std.specs.Prelude.{◌≡◌};

use crate::body::MOST_BODY_BYTES;
use crate::item::MOST_FRAME_BYTES;
use crate::writing::MOST_FRAME_TEXT_BYTES;

/// The law of lengths: a body has at most 120 bytes, a frame at most 124, and what is written of one, with its line
/// feed, at most 125. Calling it does nothing.
pub fn lengths_are_told()
    ensures body { MOST_BODY_BYTES ≡ 120 }
    ensures frame { MOST_FRAME_BYTES ≡ 124 }
    ensures written { MOST_FRAME_TEXT_BYTES ≡ 125 }
{}
