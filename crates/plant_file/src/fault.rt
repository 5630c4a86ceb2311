//! Why bytes describe no plant, and where in the file.
ghost use Rattle.std.specs.Prelude.{◌≡◌, ◌≤◌, length};
ghost use Rattle.plant_file.specs.Texts.{axis_text, fault_number, key_text, part_text};

use std::fmt;

/// The bytes of a key and of a part's text: at most this many.
pub const MOST_KEY_BYTES: usize = 10;

/// A part of the file: the whole document, its table `controller`, or one of its arrays of tables.
#[derive(Clone, Copy, Debug, PartialEq, Eq)]
pub enum Part {
    Top,
    Controller,
    Section,
    Tie,
    Generator,
    Thruster,
    Group,
}

impl Part {
    /// The key at which the part stands in the document: `section` for the sections. The whole
    /// document has no key, and is called `top`.
    pub fn text(self) -> &'static str
        ensures text { result.now ≡ part_text self }
        ensures short { length result.now ≤ MOST_KEY_BYTES }
    {
        match self {
            Part::Top => "top",
            Part::Controller => "controller",
            Part::Section => "section",
            Part::Tie => "tie",
            Part::Generator => "generator",
            Part::Thruster => "thruster",
            Part::Group => "group",
        }
    }
}

/// A key of a table of the file, or the whole table.
#[derive(Clone, Copy, Debug, PartialEq, Eq)]
pub enum Key {
    Whole,
    Format,
    Name,
    Band,
    Wind,
    Kp,
    Ki,
    Kd,
    Limit,
    Ends,
    Closed,
    Section,
    Power,
    Running,
    At,
    Rated,
    Thresholds,
    Ring,
    Forbid,
    Selected,
    Frozen,
    Barred,
    Members,
}

impl Key {
    /// The key as the file has it. A whole table has no key, and an empty text.
    pub fn text(self) -> &'static str
        ensures text { result.now ≡ key_text self }
        ensures short { length result.now ≤ MOST_KEY_BYTES }
    {
        match self {
            Key::Whole => "",
            Key::Format => "format",
            Key::Name => "name",
            Key::Band => "band",
            Key::Wind => "wind",
            Key::Kp => "kp",
            Key::Ki => "ki",
            Key::Kd => "kd",
            Key::Limit => "limit",
            Key::Ends => "ends",
            Key::Closed => "closed",
            Key::Section => "section",
            Key::Power => "power",
            Key::Running => "running",
            Key::At => "at",
            Key::Rated => "rated",
            Key::Thresholds => "thresholds",
            Key::Ring => "ring",
            Key::Forbid => "forbid",
            Key::Selected => "selected",
            Key::Frozen => "frozen",
            Key::Barred => "barred",
            Key::Members => "members",
        }
    }
}

/// A place in the file. The index is the place of an element in its array of tables, from 0; for
/// the tables `surge`, `sway` and `yaw` of the controller it is 0 to 2; for all else 0.
///
/// Its text is `format` for a key of the document, `top` for the whole document,
/// `controller.surge.kp`, `thruster[0].ring`, and `thruster[0]` or `controller.surge` for a whole
/// table. The whole table `controller` has the text `controller.surge` too.
#[derive(Clone, Copy, Debug, PartialEq, Eq)]
pub struct Path {
    pub part: Part,
    pub index: u32,
    pub key: Key,
}

/// The key of one of the controller's tables.
pub fn axis_text(index: u32) -> &'static str
    ensures text { result.now ≡ axis_text index }
    ensures short { length result.now ≤ MOST_KEY_BYTES }
{
    match index {
        0 => "surge",
        1 => "sway",
        _ => "yaw",
    }
}

impl fmt::Display for Path {
    ghost use Rattle.std.specs.Prelude.{Some};
    ghost use Rattle.plant_file.specs.Texts.{path_text};

    ghost output = { λ path. Some (path_text path) };

    fn fmt<W: fmt::Write>(&self, f: &mut fmt::Formatter<W>) -> fmt::Result {
        let index = self.index;
        let key = self.key.text();
        match (self.part, self.key) {
            (Part::Top, Key::Whole) => f.write_str("top"),
            (Part::Top, _) => f.write_str(key),
            (Part::Controller, Key::Whole) => {
                let axis = axis_text(index);
                write!(f, "controller.{axis}")
            }
            (Part::Controller, _) => {
                let axis = axis_text(index);
                write!(f, "controller.{axis}.{key}")
            }
            (part, Key::Whole) => {
                let part = part.text();
                write!(f, "{part}[{index}]")
            }
            (part, _) => {
                let part = part.text();
                write!(f, "{part}[{index}].{key}")
            }
        }
    }
}

/// Why bytes describe no plant. A number is the place of a thruster, from 0.
#[derive(Clone, Copy, Debug, PartialEq, Eq)]
pub enum PlantFault {
    /// The bytes are no TOML document.
    NotToml,
    /// A key or a table that must be there isn't.
    MissingKey(Path),
    /// A key holds another kind of value, or a list of another length than the one it must have.
    WrongKind(Path),
    /// A number, a count or the form of a name breaks its limit.
    OutOfLimit(Path),
    /// A name stands twice, a tie has two equal ends, or a group has a member twice.
    NameTwice(Path),
    /// A name that is used is no part's.
    UnknownName(Path),
    /// The ring isn't convex round the origin.
    RingNotConvex(u32),
    /// A forbidden sector has a place that the ring doesn't have, or two equal ones, or an edge is
    /// covered twice, or a ring of two points has sectors.
    SectorBad(u32),
    /// There are more than [`plant_model::limits::MOST_CHOICES`] choices of one piece for each
    /// thruster.
    TooManyChoices,
    /// A table has a key that it can't have.
    UnknownKey(Path),
    /// There are more than [`plant_model::limits::MOST_PLANT_BYTES`] bytes.
    TooLong,
    /// A barred piece isn't there, or stands twice.
    PieceBad(u32),
    /// Memory ran out. It says nothing of the bytes.
    NoMemory,
}

impl PlantFault {
    /// The fault's number: 1 to 12, in the order of the variants but for `PieceBad`, which is 12; 0
    /// for `NoMemory`.
    pub fn number(self) -> u32
        ensures { result ≡ fault_number self }
    {
        match self {
            PlantFault::NoMemory => 0,
            PlantFault::NotToml => 1,
            PlantFault::MissingKey(_) => 2,
            PlantFault::WrongKind(_) => 3,
            PlantFault::OutOfLimit(_) => 4,
            PlantFault::NameTwice(_) => 5,
            PlantFault::UnknownName(_) => 6,
            PlantFault::RingNotConvex(_) => 7,
            PlantFault::SectorBad(_) => 8,
            PlantFault::TooManyChoices => 9,
            PlantFault::UnknownKey(_) => 10,
            PlantFault::TooLong => 11,
            PlantFault::PieceBad(_) => 12,
        }
    }
}

/// The number, and after a space the place, where the fault has one.
impl fmt::Display for PlantFault {
    ghost use Rattle.std.specs.Prelude.{Some};
    ghost use Rattle.plant_file.specs.Texts.{fault_text};

    ghost output = { λ fault. Some (fault_text fault) };

    fn fmt<W: fmt::Write>(&self, f: &mut fmt::Formatter<W>) -> fmt::Result {
        let number = self.number();
        match self {
            PlantFault::MissingKey(path)
            | PlantFault::WrongKind(path)
            | PlantFault::OutOfLimit(path)
            | PlantFault::NameTwice(path)
            | PlantFault::UnknownName(path)
            | PlantFault::UnknownKey(path) => write!(f, "{number} {path}"),
            PlantFault::RingNotConvex(thruster)
            | PlantFault::SectorBad(thruster)
            | PlantFault::PieceBad(thruster) => write!(f, "{number} thruster[{thruster}]"),
            PlantFault::NotToml
            | PlantFault::TooManyChoices
            | PlantFault::TooLong
            | PlantFault::NoMemory => write!(f, "{number}"),
        }
    }
}
