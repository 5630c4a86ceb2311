//! The two streams, and how one ends.
ghost use Rattle.std.specs.Prelude.{◌≡◌};
ghost use Rattle.dp_sessions.specs.Sessions.{caller_of};
ghost use Rattle.watch_session.specs.Asked.{caller_on};

use dp_sessions::Ending;
use telegram::Telegram;

/// Which stream a loop reads.
#[derive(Clone, Copy, Debug, PartialEq, Eq)]
pub enum Stream {
    /// Positions and winds, which the control loop answers as caller 1.
    Sensors,
    /// The operators' telegrams, which are answered as caller 2.
    Operators,
}

impl Stream {
    /// The stream that a telegram belongs to.
    pub(crate) fn of(telegram: &Telegram) -> Stream
        ensures { caller_on result ≡ caller_of telegram.now }
    {
        match telegram {
            Telegram::Position { .. } | Telegram::Wind { .. } => Stream::Sensors,
            _ => Stream::Operators,
        }
    }
}

/// What ended a stream.
#[derive(Clone, Copy, Debug, PartialEq, Eq)]
pub enum StreamEnd {
    /// What may end a stream of recorded telegrams too.
    Ended(Ending),
    /// There was no memory for an answer.
    NoAnswer,
    /// There was no memory for the frames of a command that was answered.
    NoFrames,
}

/// How the two streams ended.
#[derive(Clone, Copy, Debug, PartialEq, Eq)]
pub struct StreamEnds {
    pub sensors: StreamEnd,
    pub operators: StreamEnd,
}
