//! What a caller takes its turns with.
ghost use Rattle.std.specs.Prelude.{◌≡◌};

use crate::keeps::Keeps;
use crate::plays::Place;
use std::marker::Model;

/// The last number of a pass. The first, of the root, is 0.
pub const LAST_PASS: u32 = u32::MAX;

/// A caller's token for one lock. It shows a front of the list that the lock's value keeps, in
/// which stand the entries that it made itself and no other entries of its number.
#[derive(Drop)]
pub struct Pass<K: Keeps> {
    // The number of the pass.
    pub(crate) caller: u32,
    // Of the root: the number of the next pass.
    pub(crate) next: u64,
    pub(crate) seat: Place<K>,
}

impl<K: Keeps> Model for Pass<K> {
    ghost use Rattle.turn_lock.specs.Passes.{Shown};
    ghost use Rattle.turn_lock.specs.Views.{shown, IsAtRest};

    ghost Value = { Shown K.Entry K.Base };

    ghost view = { λ p. shown p.seat.table_id p.seat.me.0 };

    ghost invariant = { λ p. IsAtRest K.caller_of p.caller p.next p.seat.table_id p.seat.me };
}

impl<K: Keeps> Pass<K> {
    /// The number of the pass; that of the root is 0.
    pub fn caller(&self) -> u32
        ensures { result ≡ self.now.caller }
    {
        self.caller
    }
}
