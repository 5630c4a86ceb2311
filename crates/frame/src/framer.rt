//! The framer: fed the bytes of a stream, it gives the stream's items.
ghost use Rattle.std.specs.Prelude.{◌≡◌, ◌<◌, List, ℕ, [], ◌∷◌, ◌++◌, Some, length};
ghost use Rattle.std.specs.Option.{option_to_list};
ghost use Rattle.frame.specs.Frames.{FeedsFront, StandsFor, items, items_end, item_of_line, kept_with};
ghost use Rattle.frame.specs.Frames.{line_feed};

use crate::item::{Damage, Item, MOST_FRAME_BYTES, item_of_content};
use arrayvec::ArrayVec;
use memchr::memchr;
use std::marker::Model;

/// The bytes of the longest frame, with its carriage return and without its line feed.
const MOST_LINE_BYTES: usize = MOST_FRAME_BYTES + 1;

/// Takes the bytes of a stream, one by one or line by line, and gives the items of its lines.
///
/// Contracts see what it keeps of the bytes since the last line feed: these bytes, or none where
/// they are more than a frame and a carriage return can have.
#[derive(Debug, Drop)]
pub struct Framer {
    line: ArrayVec<u8, MOST_LINE_BYTES>,
    overlong: bool,
}

impl Model for Framer {
    ghost use Rattle.std.specs.Prelude.{ℕ, List, Option, Some, None, if◌then◌else◌};

    ghost Value = { Option (List ℕ) };

    ghost view = { λ framer. if framer.overlong then None else Some framer.line.items };
}

/// The item of a line without its line feed. None where nothing is left of the line without one
/// carriage return at its end.
fn item_of_line(line: &[u8]) -> Option<Item>
    ensures { result ≡ item_of_line line.now }
{
    let content = match line {
        [content @ .., b'\r'] => content,
        content => content,
    };
    if content.is_empty() {
        return None;
    }
    Some(item_of_content(content))
}

impl Framer {
    /// A framer that was fed nothing.
    pub fn new() -> Framer
        ensures { StandsFor result [] }
    {
        Framer {
            line: ArrayVec::new(),
            overlong: false,
        }
    }

    /// Takes the next byte, and gives the item that it completes. None where it completes none.
    #[inline(always)]
    pub fn feed(&mut self, byte: u8) -> Option<Item>
        ensures items { (fed : List ℕ) → StandsFor self.old fed
            → items (fed ++ byte ∷ []) ≡ items fed ++ option_to_list result }
        ensures stands { (fed : List ℕ) → StandsFor self.old fed
            → StandsFor self.new (fed ++ byte ∷ []) }
    {
        if byte == b'\n' {
            return self.end_line();
        }
        if self.line.is_full() {
            self.overlong = true;
        } else {
            self.line.push(byte);
        }
        None
    }

    /// Takes bytes up to the first line feed and with it, or all where none has come, and gives the item that they
    /// complete. None where they complete none. The other bytes are left: fewer, where there were some.
    pub fn feed_line<'b>(&mut self, bytes: &'b [u8]) -> (Option<Item>, &'b [u8])
        ensures feeds { FeedsFront self.old self.new bytes.now result.0 result.1.now }
        ensures fewer { 0 < length bytes.now → length result.1.now < length bytes.now }
    {
        match memchr(b'\n', bytes) {
            Some(end) => {
                self.keep(&bytes[..end]);
                (self.end_line(), &bytes[end + 1..])
            }
            None => {
                self.keep(bytes);
                (None, &[])
            }
        }
    }

    /// Keeps more bytes of the line, as far as it isn't too long with them.
    fn keep(&mut self, bytes: &[u8])
        ensures { self.new ≡ kept_with self.old bytes.now }
    {
        self.overlong |= self.line.try_extend_from_slice(bytes).is_err();
    }

    /// The item of the line that a line feed ends. The next line has no byte yet.
    #[inline(never)]
    fn end_line(&mut self) -> Option<Item>
        ensures item { (fed : List ℕ) → StandsFor self.old fed → items (fed ++ line_feed ∷ [])
            ≡ items fed ++ option_to_list result }
        ensures new { self.new ≡ Some [] }
    {
        let item = if self.overlong {
            Some(Item::Damaged(Damage::TooLong))
        } else {
            item_of_line(self.line.as_slice())
        };
        self.start_line();
        item
    }

    /// Ends the stream: `Damaged(Cut)` exactly where bytes stand after the last line feed. The
    /// framer is then as new.
    pub fn finish(&mut self) -> Option<Item>
        ensures items { (fed : List ℕ) → StandsFor self.old fed
            → items_end fed ≡ items fed ++ option_to_list result }
        ensures new { StandsFor self.new [] }
    {
        let is_cut = self.overlong || !self.line.is_empty();
        self.start_line();
        is_cut.then_some(Item::Damaged(Damage::Cut))
    }

    fn start_line(&mut self)
        ensures { self.new ≡ Some [] }
    {
        self.line.clear();
        self.overlong = false;
    }
}

impl Default for Framer {
    ghost is_default = { λ framer. StandsFor framer [] };

    fn default() -> Self {
        Self::new()
    }
}
