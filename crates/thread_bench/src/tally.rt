//! What the locks keep.
ghost use Rattle.std.specs.Prelude.{◌≡◌, []};

use std::alloc::Global;
use turn_lock::Keeps;

/// The callers of all entries, in the order in which they were made.
#[derive(Drop)]
pub struct Tally {
    pub callers: Vec<u32>,
}

impl Tally {
    pub fn new(alloc: Global) -> Tally
        ensures { result.callers.items ≡ [] }
    {
        Tally {
            callers: Vec::new(alloc),
        }
    }
}

impl Keeps for Tally {
    type Entry = u32;

    type Base = ();

    ghost entries = { λ t. t.callers.items };

    ghost base_of = { λ _. tt };

    ghost caller_of = { λ caller. caller };

    ghost any_base = { tt };
}
