//! A line of the report, which takes no memory.
ghost use Rattle.std.specs.Prelude.{◌≡◌, ◌+◌, ◌≤◌, ◌∷◌, ◌++◌, [], length, decimal};
ghost use Rattle.frame.specs.Frames.{line_feed};
ghost use Rattle.telegram.specs.Telegrams.{comma};

use arrayvec::ArrayString;
use itoa::Buffer;
use std::marker::Model;

/// The bytes of the longest line, and some more.
const MOST_LINE_BYTES: usize = 64;

/// The bytes of a number of 32 bits: at most this many.
const MOST_NUMBER_BYTES: usize = 10;

/// The fields of a line that were written so far, between commas. Contracts see its bytes.
#[derive(Drop)]
pub struct Line {
    text: ArrayString<MOST_LINE_BYTES>,
}

impl Model for Line {
    ghost use Rattle.std.specs.Prelude.{ℕ, List};

    ghost Value = { List ℕ };

    ghost view = { λ line. line.text.bytes };
}

impl Line {
    /// The first field.
    pub fn of(field: &str) -> Line
        requires { length field.now ≤ MOST_LINE_BYTES }
        ensures { result ≡ field.now }
    {
        let mut text = ArrayString::new();
        text.push_str(field);
        Line { text }
    }

    pub fn field(self, field: &str) -> Line
        requires { length self + 1 + length field.now ≤ MOST_LINE_BYTES }
        ensures { result ≡ self ++ comma ∷ field.now }
    {
        let mut text = self.text;
        text.push(',');
        text.push_str(field);
        Line { text }
    }

    pub fn number(self, number: u32) -> Line
        requires { length self + 1 + MOST_NUMBER_BYTES ≤ MOST_LINE_BYTES }
        ensures text { result ≡ self ++ comma ∷ decimal number }
        ensures short { length result ≤ length self + 1 + MOST_NUMBER_BYTES }
    {
        self.field(Buffer::new().format(number))
    }

    /// The line feed that ends the line.
    pub fn end(self) -> Line
        requires { length self + 1 ≤ MOST_LINE_BYTES }
        ensures { result ≡ self ++ line_feed ∷ [] }
    {
        let mut text = self.text;
        text.push('\n');
        Line { text }
    }

    pub fn bytes(&self) -> &[u8]
        ensures { result.now ≡ self.now }
    {
        self.text.as_str().as_bytes()
    }
}
