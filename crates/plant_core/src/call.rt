//! Calls, their replies, and the entries of a history.

use certificate::{Outcome, Place};
use frame::Damage;
use plant_model::board::Cells;
use plant_model::wrench::Wrench;
use telegram::{Reject, Telegram};
use thrust_allocation::Allocation;

/// What a stream gave that isn't answered as a telegram.
#[derive(Clone, Copy, Debug, PartialEq, Eq)]
pub enum Note {
    /// A line that is no frame.
    Damaged(Damage),
    /// A body that is no telegram.
    Rejected(Reject),
    /// A telegram on the stream of the other caller.
    Stray,
}

/// What is asked of the plant.
#[derive(Debug, PartialEq, Eq, Drop)]
pub enum Call {
    Telegram(Telegram),
    Note(Note),
    /// A verdict on the loss of a group, by its place, with the number of the version that it is about.
    Publish {
        version: u32,
        group: u32,
        outcome: Outcome,
    },
    /// The end of a session. Nothing is answered after it.
    Close,
}

/// What the plant answers.
#[derive(Clone, Debug, PartialEq, Eq, Drop)]
pub enum Reply {
    /// The call made the version with this number.
    Version(u32),
    /// What was asked for stands already.
    Same,
    /// The call was taken, and made no version.
    Taken,
    /// No part of that kind has the name.
    UnknownName,
    /// The thruster has no piece of that number.
    NoPiece,
    /// The number of the version that is now the latest, what is asked of the thrusters, and what they are to give.
    Commanded {
        version: u32,
        demand: Wrench,
        allocation: Allocation,
    },
    /// The moment isn't after that of the last position, or of the last wind, that was taken.
    Late {
        last: u32,
    },
    /// The mode that stands doesn't take such a telegram.
    WrongMode,
    /// The note was taken down.
    Noted,
    /// No alarm that is to be acknowledged has the number.
    NoSuchAlarm,
    /// The board.
    Cells(Cells),
    /// The verdict is now the one that the board shows of its group.
    Shown,
    /// The verdict is about a version before the latest, which has this number.
    Superseded {
        latest: u32,
    },
    /// There is no such version yet. The latest has this number.
    Unknown {
        latest: u32,
    },
    /// The board shows a verdict of the latest version for the group already.
    Already,
    /// The verdict isn't valid for the latest version and the loss of the group, first at this place.
    Refused {
        place: Place,
    },
    /// As many telegrams and notes were answered as the limit says. It has no entry.
    JournalFull,
    /// A session was ended. It has no entry.
    Closed,
}

/// An answered call. Caller 0 is the session, 1 the control loop, 2 the operators, and each above that a worker.
#[derive(Debug, PartialEq, Eq, Drop)]
pub struct Entry {
    pub caller: u32,
    pub call: Call,
    pub reply: Reply,
}
