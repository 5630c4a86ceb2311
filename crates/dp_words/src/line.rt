//! A line of the error output, which takes no memory.
ghost use Rattle.std.specs.Prelude.{◌≡◌, ◌+◌, ◌≤◌, ◌++◌, length};
ghost use Rattle.std.specs.Fmt.{decimal};
ghost use Rattle.plant_file.specs.Texts.{fault_text, path_text, table_text};

use arrayvec::ArrayString;
use itoa::Buffer;
use plant_file::{Key, Part, Path, PlantFault, axis_text};
use std::marker::Model;

/// The bytes of the longest line, and some more.
const MOST_LINE_BYTES: usize = 64;

/// The bytes of a number of 32 bits: at most this many.
const MOST_NUMBER_BYTES: usize = 10;

/// The bytes of a whole table's text: at most this many.
const MOST_TABLE_BYTES: usize = 22;

/// The bytes of a place in a plant file: at most this many.
const MOST_PATH_BYTES: usize = 33;

/// The bytes of a plant fault's text: at most this many.
const MOST_FAULT_BYTES: usize = 44;

/// What was written of a line so far. Contracts see its bytes.
#[derive(Drop)]
pub(crate) struct Line {
    text: ArrayString<MOST_LINE_BYTES>,
}

impl Model for Line {
    ghost use Rattle.std.specs.Prelude.{ℕ, List};

    ghost Value = { List ℕ };

    ghost view = { λ line. line.text.bytes };
}

impl Line {
    /// A line that begins so.
    pub(crate) fn of(text: &str) -> Line
        requires { length text.now ≤ MOST_LINE_BYTES }
        ensures { result ≡ text.now }
    {
        let mut line = ArrayString::new();
        line.push_str(text);
        Line { text: line }
    }

    pub(crate) fn bytes(&self) -> &[u8]
        ensures { result.now ≡ self.now }
    {
        self.text.as_str().as_bytes()
    }

    pub(crate) fn text(self, text: &str) -> Line
        requires { length self + length text.now ≤ MOST_LINE_BYTES }
        ensures { result ≡ self ++ text.now }
    {
        let mut line = self.text;
        line.push_str(text);
        Line { text: line }
    }

    fn number(self, number: u32) -> Line
        requires { length self + MOST_NUMBER_BYTES ≤ MOST_LINE_BYTES }
        ensures text { result ≡ self ++ decimal number }
        ensures short { length result ≤ length self + MOST_NUMBER_BYTES }
    {
        self.text(Buffer::new().format(number))
    }

    /// A whole table of a part of a plant file.
    fn table(self, part: Part, index: u32) -> Line
        requires { length self + MOST_TABLE_BYTES ≤ MOST_LINE_BYTES }
        ensures text { result ≡ self ++ table_text part index }
        ensures short { length result ≤ length self + MOST_TABLE_BYTES }
    {
        match part {
            Part::Top => self.text("top"),
            Part::Controller => self.text("controller.").text(axis_text(index)),
            part => self.text(part.text()).text("[").number(index).text("]"),
        }
    }

    /// A place in a plant file.
    fn path(self, path: Path) -> Line
        requires { length self + MOST_PATH_BYTES ≤ MOST_LINE_BYTES }
        ensures text { result ≡ self ++ path_text path }
        ensures short { length result ≤ length self + MOST_PATH_BYTES }
    {
        match (path.part, path.key) {
            (part, Key::Whole) => self.table(part, path.index),
            (Part::Top, key) => self.text(key.text()),
            (part, key) => self.table(part, path.index).text(".").text(key.text()),
        }
    }

    /// Why there is no plant.
    pub(crate) fn fault(self, fault: PlantFault) -> Line
        requires { length self + MOST_FAULT_BYTES ≤ MOST_LINE_BYTES }
        ensures text { result ≡ self ++ fault_text fault }
        ensures short { length result ≤ length self + MOST_FAULT_BYTES }
    {
        let line = self.number(fault.number());
        match fault {
            PlantFault::MissingKey(path)
            | PlantFault::WrongKind(path)
            | PlantFault::OutOfLimit(path)
            | PlantFault::NameTwice(path)
            | PlantFault::UnknownName(path)
            | PlantFault::UnknownKey(path) => line.text(" ").path(path),
            PlantFault::RingNotConvex(thruster)
            | PlantFault::SectorBad(thruster)
            | PlantFault::PieceBad(thruster) => line.text(" ").table(Part::Thruster, thruster),
            PlantFault::NotToml
            | PlantFault::TooManyChoices
            | PlantFault::TooLong
            | PlantFault::NoMemory => line,
        }
    }
}
