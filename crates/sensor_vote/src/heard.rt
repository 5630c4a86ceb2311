//! What the items of a stream are to a vote.
ghost use Rattle.std.specs.Prelude.{◌≡◌, IfSome};
ghost use Rattle.sensor_vote.specs.References.{IsReference};
ghost use Rattle.sensor_vote.specs.Texts.{heard, taken_of};

use crate::reading::read_reference;
use crate::reference::Reference;
use frame::{Body, Item};

/// What an item is to a vote.
#[derive(Debug, PartialEq, Eq, Drop)]
pub enum Heard {
    /// A reference.
    Taken(Reference),
    /// A body of another kind.
    Passed(Body),
    /// Damage, or a body whose first field says that it is a reference, and which is none.
    Dropped,
}

/// What the item is to a vote.
pub fn hear(item: Item) -> Heard
    ensures value { result ≡ heard item }
    ensures within { IfSome (taken_of result) IsReference }
{
    let Item::Body(body) = item else {
        return Heard::Dropped;
    };
    match read_reference(&body) {
        None => Heard::Passed(body),
        Some(Ok(reference)) => Heard::Taken(reference),
        Some(Err(_)) => Heard::Dropped,
    }
}
