//! The body of a frame.
ghost use Rattle.std.specs.Prelude.{◌≡◌, ◌↔◌, IsTrue, IsSome, IfSome};
ghost use Rattle.std.specs.Str.{bytes_eq};
ghost use Rattle.std.specs.Cmp.Lexicographic.{nat_list_eq_equiv};
ghost use Rattle.std.specs.Cmp.{partial_equiv_from_equiv};
ghost use Rattle.frame.specs.Bodies.{is_body, is_body_byte};

use arrayvec::ArrayString;
use short_text::{Alphabet, short_text};
use std::fmt;
use std::marker::Model;

/// The bytes of a body: 1 to this many.
pub const MOST_BODY_BYTES: usize = 120;

/// A body: 1 to 120 bytes from 0x20 to 0x7E without `$` and `*`. Contracts see its bytes.
#[derive(Drop)]
pub struct Body {
    text: ArrayString<MOST_BODY_BYTES>,
}

impl Model for Body {
    ghost use Rattle.std.specs.Prelude.{ℕ, List, IsTrue};
    ghost use Rattle.frame.specs.Bodies.{is_body};

    ghost Value = { List ℕ };

    ghost view = { λ body. body.text.bytes };

    ghost invariant = { λ body. IsTrue (is_body body.text.bytes) };
}

/// The bytes that may stand in a body.
struct BodyBytes;

impl Alphabet for BodyBytes {
    ghost has = { is_body_byte };

    fn has(byte: u8) -> bool {
        matches!(byte, 0x20..=0x7E) && byte != b'$' && byte != b'*'
    }
}

impl Body {
    /// The body of these bytes. None exactly where they are no body.
    pub fn of(bytes: &[u8]) -> Option<Body>
        ensures found { IsSome result ↔ IsTrue (is_body bytes.now) }
        ensures spelled { IfSome result (λ body. body ≡ bytes.now) }
    {
        let text = short_text::<BodyBytes, MOST_BODY_BYTES>(bytes)?;
        Some(Body { text })
    }

    /// The text of the body.
    pub fn as_str(&self) -> &str
        ensures value { result.now ≡ self.now }
        ensures body { IsTrue (is_body self.now) }
    {
        self.text.as_str()
    }

    /// The bytes of the body.
    pub fn bytes(&self) -> &[u8]
        ensures value { result.now ≡ self.now }
        ensures body { IsTrue (is_body self.now) }
    {
        self.text.as_str().as_bytes()
    }
}

impl PartialEq for Body {
    ghost eq = { bytes_eq };

    ghost laws = { partial_equiv_from_equiv nat_list_eq_equiv };

    fn eq(&self, other: &Self) -> bool {
        self.bytes() == other.bytes()
    }
}

impl Eq for Body {
    ghost laws = { nat_list_eq_equiv };
}

impl fmt::Debug for Body {
    fn fmt<W: fmt::Write>(&self, f: &mut fmt::Formatter<W>) -> fmt::Result {
        fmt::Debug::fmt(self.as_str(), f)
    }
}
