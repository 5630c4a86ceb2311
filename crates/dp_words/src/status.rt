//! The statuses that the program ends with.
ghost use Rattle.std.specs.Prelude.{◌≡◌, ◌≤◌};
ghost use Rattle.dp_io.specs.Shown.{writing};
ghost use Rattle.dp_words.specs.Statuses.{IsTold, status_code, status_text};

use crate::line::Line;
use dp_io::{Failed, Sink, send_all};
use no_memory::NoMemory;
use plant_file::PlantFault;

/// How a call of the program ends.
#[derive(Clone, Copy, Debug, PartialEq, Eq)]
pub enum RunStatus {
    /// The stream was read to its end, and all was written.
    Clear,
    /// All was read and written, and some verdict is Lost.
    LossFound,
    /// The words have no written form: 1 there is no word, 2 the command is unknown, 3 the other words aren't
    /// those of the command.
    Usage(u32),
    Plant(PlantFault),
    ReadFault,
    WriteFault,
    /// The stream gave an item more than a history has room for.
    JournalFull,
    NoMemory,
    /// The stream has more bytes than a stream may have.
    StreamTooLong,
}

impl From<NoMemory> for RunStatus {
    ghost use Rattle.dp_words.specs.declared.status.RunStatus.{RunStatus};

    ghost from_gives = { λ _ status. status ≡ RunStatus.NoMemory };

    fn from(_error: NoMemory) -> RunStatus {
        RunStatus::NoMemory
    }
}

impl From<Failed> for RunStatus {
    ghost use Rattle.dp_words.specs.declared.status.RunStatus.{RunStatus};

    ghost from_gives = { λ _ status. status ≡ RunStatus.WriteFault };

    fn from(_error: Failed) -> RunStatus {
        RunStatus::WriteFault
    }
}

impl RunStatus {
    /// The exit status: 0 for `Clear`, 1 for `LossFound`, 2 for `Usage`, 3 for `Plant`, 4 for `ReadFault`,
    /// 5 for `WriteFault`, 6 for `JournalFull`, 7 for `NoMemory` and 8 for `StreamTooLong`.
    pub fn code(self) -> u8
        ensures { result ≡ status_code self }
    {
        match self {
            RunStatus::Clear => 0,
            RunStatus::LossFound => 1,
            RunStatus::Usage(_) => 2,
            RunStatus::Plant(_) => 3,
            RunStatus::ReadFault => 4,
            RunStatus::WriteFault => 5,
            RunStatus::JournalFull => 6,
            RunStatus::NoMemory => 7,
            RunStatus::StreamTooLong => 8,
        }
    }

    /// The line on the error output, empty for `Clear` and `LossFound`.
    fn line(&self) -> Line
        ensures { result ≡ status_text self.now }
    {
        match self {
            RunStatus::Clear | RunStatus::LossFound => Line::of(""),
            RunStatus::Usage(1) => Line::of("dp: usage 1\n"),
            RunStatus::Usage(2) => Line::of("dp: usage 2\n"),
            RunStatus::Usage(_) => Line::of("dp: usage 3\n"),
            RunStatus::Plant(fault) => Line::of("dp: plant ").fault(*fault).text("\n"),
            RunStatus::ReadFault => Line::of("dp: read fault\n"),
            RunStatus::WriteFault => Line::of("dp: write fault\n"),
            RunStatus::JournalFull => Line::of("dp: journal full\n"),
            RunStatus::NoMemory => Line::of("dp: no memory\n"),
            RunStatus::StreamTooLong => Line::of("dp: stream too long\n"),
        }
    }
}

/// Hands the status's line to the error output. A fault there changes nothing.
pub fn tell<E: Sink>(status: &RunStatus, err: &mut E)
    ensures told { IsTold status.now (writing E.Sink err.old err.new) }
    ensures counted { E.faults err.old ≤ E.faults err.new }
{
    let _ = send_all(err, status.line().bytes());
}
