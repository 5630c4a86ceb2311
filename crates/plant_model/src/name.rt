//! The names of a plant's parts.
ghost use Rattle.std.specs.Prelude.{◌≡◌, ◌↔◌, Some, IsTrue, IsSome, IfSome, codes};
ghost use Rattle.std.specs.Str.{bytes_eq};
ghost use Rattle.std.specs.Cmp.{partial_equiv_from_equiv};
ghost use Rattle.std.specs.Cmp.Lexicographic.{nat_list_eq_equiv};
ghost use Rattle.plant_model.specs.Names.{is_name, is_name_byte};

use crate::limits::MOST_NAME_BYTES;
use arrayvec::ArrayString;
use short_text::{Alphabet, short_text};
use std::alloc::AllocError;
use std::fmt;
use std::marker::Model;

/// A name: 1 to 12 letters, digits, `_` and `-`. Contracts see its bytes.
#[derive(Drop)]
pub struct Name {
    text: ArrayString<MOST_NAME_BYTES>,
}

impl Model for Name {
    ghost use Rattle.std.specs.Prelude.{ℕ, List, IsTrue};
    ghost use Rattle.plant_model.specs.Names.{is_name};

    ghost Value = { List ℕ };

    ghost view = { λ name. name.text.bytes };

    ghost invariant = { λ name. IsTrue (is_name name.text.bytes) };
}

/// The bytes that may stand in a name.
struct NameBytes;

impl Alphabet for NameBytes {
    ghost has = { is_name_byte };

    fn has(byte: u8) -> bool {
        byte.is_ascii_alphanumeric() || byte == b'_' || byte == b'-'
    }
}

impl Name {
    /// The name that the bytes spell. None exactly where they are no name.
    pub fn of(bytes: &[u8]) -> Option<Name>
        ensures found { IsSome result ↔ IsTrue (is_name bytes.now) }
        ensures spelled { IfSome result (λ name. name ≡ bytes.now) }
    {
        let text = short_text::<NameBytes, MOST_NAME_BYTES>(bytes)?;
        Some(Name { text })
    }

    /// The text of the name.
    pub fn as_str(&self) -> &str
        ensures value { result.now ≡ self.now }
        ensures named { IsTrue (is_name self.now) }
    {
        self.text.as_str()
    }

    /// The bytes of the name.
    pub fn bytes(&self) -> &[u8]
        ensures value { result.now ≡ self.now }
        ensures named { IsTrue (is_name self.now) }
    {
        self.text.as_str().as_bytes()
    }
}

impl Clone for Name {
    ghost is_clone = { λ name other. other ≡ name };

    fn clone(&self) -> Result<Self, AllocError> {
        Ok(Name { text: self.text })
    }
}

impl PartialEq for Name {
    ghost eq = { bytes_eq };

    ghost laws = { partial_equiv_from_equiv nat_list_eq_equiv };

    fn eq(&self, other: &Self) -> bool {
        self.bytes() == other.bytes()
    }
}

impl Eq for Name {
    ghost laws = { nat_list_eq_equiv };
}

/// The name `_`, which fills unused places.
impl Default for Name {
    ghost is_default = { λ name. name ≡ codes "_" };

    fn default() -> Self {
        let mut text = ArrayString::new();
        text.push('_');
        Name { text }
    }
}

impl fmt::Debug for Name {
    fn fmt<W: fmt::Write>(&self, f: &mut fmt::Formatter<W>) -> fmt::Result {
        fmt::Debug::fmt(self.as_str(), f)
    }
}

impl fmt::Display for Name {
    ghost output = { λ name. Some name };

    fn fmt<W: fmt::Write>(&self, f: &mut fmt::Formatter<W>) -> fmt::Result {
        f.pad(self.as_str())
    }
}
