//! What a caller takes its turns with.
ghost use Rattle.std.specs.Prelude.{◌≡◌};
ghost use Rattle.plant_book.specs.Books.{IsAtRest};

use crate::value::PlantValue;
use std::marker::Model;
use turn_lock::{Keeps, Pass};

/// The most displays that a root pass makes.
pub const MOST_DISPLAYS: u32 = 16;

/// A caller's token for one book. It shows a front of the book's history, which is legal for the
/// plant, and the caller's own entries in it. The root pass, of caller 0, gives the others and makes
/// the displays.
pub struct BookPass {
    pub(crate) pass: Pass<PlantValue>,
    // How many displays were made by it.
    pub(crate) displays: u32,
}

impl Model for BookPass {
    ghost use Rattle.plant_book.specs.Books.{BookShown, IsAtRest};

    ghost Value = { BookShown };

    ghost view = { λ p. record { shown = p.pass; displays = p.displays } };

    ghost invariant = { λ p. IsAtRest p.pass };
}

// A pass is dropped as one of a lock round any value: the machine's writer, which can't be dropped,
// isn't in it, though its type names it.
impl Drop for BookPass {
    fn drop(self) {
        let Self { pass, displays: _ } = self;
        let_go(pass);
    }
}

fn let_go<K: Keeps>(_pass: Pass<K>) {}

impl BookPass {
    /// The lock's pass.
    pub(crate) fn into_pass(self) -> Pass<PlantValue>
        ensures pass { result ≡ self.shown }
        ensures rest { IsAtRest self.shown }
    {
        let Self { pass, displays: _ } = self;
        pass
    }

    /// The caller's number; that of the root is 0.
    pub fn caller(&self) -> u32
        ensures caller { result ≡ self.now.shown.caller }
        ensures rest { IsAtRest self.now.shown }
    {
        self.pass.caller()
    }
}
