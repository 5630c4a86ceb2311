//! What a call is answered.
ghost use Rattle.std.specs.Prelude.{◌≡◌};
ghost use Rattle.plant_book.specs.Calls.{has_entry};

use no_memory::NoMemory;
use plant_core::Reply;
use plant_model::status::Version;

/// The reply to a call, and the version that this call made, if it made one.
#[derive(Debug, PartialEq, Eq, Drop)]
pub struct Served {
    pub reply: Reply,
    pub made: Option<Version>,
}

/// Whether the call has an entry in the history.
pub(crate) fn has_entry(answer: &Result<Served, NoMemory>) -> bool
    ensures { result ≡ has_entry answer.now }
{
    match answer {
        Ok(served) => !matches!(served.reply, Reply::JournalFull | Reply::Closed),
        Err(_) => false,
    }
}
