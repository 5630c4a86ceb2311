//! Short texts: a few ASCII bytes of an alphabet, as a text that takes no memory.
#![tactic(auto)]

ghost use Rattle.std.specs.Prelude.{◌≡◌, ◌<◌, ◌↔◌, ℕ, Bool, true, IsTrue, IsSome, IfSome};
ghost use Rattle.short_text.specs.ShortTexts.{is_short_text, IsAsciiAlphabet};

use arrayvec::ArrayString;
use std::str;

/// The bytes that may stand in a text.
pub trait Alphabet {
    /// Whether a byte may stand in the text.
    ghost has: { ℕ → Bool };

    fn has(byte: u8) -> bool
        ensures { result ≡ has byte };
}

fn is_short_text<A: Alphabet>(bytes: &[u8], most: usize) -> bool
    ensures { result ≡ is_short_text A.has most bytes.now }
{
    !bytes.is_empty() && bytes.len() <= most && bytes.iter().all(|byte| A::has(*byte))
}

/// The text of 1 to `MOST` bytes of an alphabet of ASCII. None exactly where the bytes are no such text.
pub fn short_text<A: Alphabet, const MOST: usize>(bytes: &[u8]) -> Option<ArrayString<MOST>>
    requires { IsAsciiAlphabet A.has }
    ensures found { IsSome result ↔ IsTrue (is_short_text A.has MOST bytes.now) }
    ensures spelled { IfSome result (λ text. text.bytes ≡ bytes.now) }
{
    if !is_short_text::<A>(bytes, MOST) {
        return None;
    }
    let content = str::from_utf8(bytes).ok()?;
    let mut text = ArrayString::new();
    text.push_str(content);
    Some(text)
}
