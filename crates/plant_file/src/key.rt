//! The table of keys: which keys a table of each part of the file has, and what each holds.
ghost use Rattle.std.specs.Prelude.{◌≡◌};
ghost use Rattle.plant_file.specs.Keys.{count_of, rows};

use crate::fault::{Key, Part};
use crate::kind::{Count, Kind, Span};
use plant_model::limits::{
    AXES, FARTHEST_LEVER, MOST_GAIN, MOST_GENERATORS, MOST_GROUPS, MOST_GROUPS_OF_FORMAT_1,
    MOST_MEMBERS, MOST_MOMENT, MOST_PIECES, MOST_POWER, MOST_SECTIONS, MOST_SUM_LIMIT, MOST_THRUST,
    MOST_THRUSTERS, MOST_TIES,
};

/// The format of a file.
#[derive(Clone, Copy, Debug, PartialEq, Eq)]
pub enum Format {
    One,
    Two,
}

/// A key of a table.
#[derive(Clone, Copy, Debug, PartialEq, Eq)]
pub struct Row {
    pub key: Key,
    pub kind: Kind,
    /// Whether the key must be there.
    pub needed: bool,
}

const PAIR: Count = Count { fewest: 2, most: 2 };

/// A gain of the controller.
const GAIN: Kind = Kind::Whole(Span {
    least: 0,
    most: MOST_GAIN as i64,
});

/// A power, in kW.
const POWER: Kind = Kind::Whole(Span {
    least: 1,
    most: MOST_POWER as i64,
});

/// A lever of a thruster.
const LEVER: Kind = Kind::Wholes(
    PAIR,
    Span {
        least: -(FARTHEST_LEVER as i64),
        most: FARTHEST_LEVER as i64,
    },
);

/// A thrust, within the greatest one along both axes.
const THRUST: Kind = Kind::Wholes(
    PAIR,
    Span {
        least: -(MOST_THRUST as i64),
        most: MOST_THRUST as i64,
    },
);

/// A demand's band along each axis.
const BAND: Kind = Kind::Wholes(
    Count {
        fewest: AXES as u32,
        most: AXES as u32,
    },
    Span {
        least: 0,
        most: MOST_MOMENT as i64,
    },
);

/// The limit of a sum of the controller.
const SUM_LIMIT: Kind = Kind::Whole(Span {
    least: 0,
    most: MOST_SUM_LIMIT as i64,
});

/// The pieces that are barred, each by its place.
const BARRED: Kind = Kind::Wholes(
    Count {
        fewest: 0,
        most: MOST_PIECES as u32,
    },
    Span {
        least: 0,
        most: MOST_PIECES as i64 - 1,
    },
);

const MEMBERS: Kind = Kind::Texts(Count {
    fewest: 1,
    most: MOST_MEMBERS as u32,
});

const FORMAT: Kind = Kind::Whole(Span { least: 1, most: 2 });

const NAME: Row = Row {
    key: Key::Name,
    kind: Kind::Name,
    needed: true,
};

/// The section that feeds a generator or a thruster.
const FED_BY: Row = Row {
    key: Key::Section,
    kind: Kind::Name,
    needed: true,
};

const TOP: [Row; 4] = [
    Row {
        key: Key::Format,
        kind: FORMAT,
        needed: true,
    },
    NAME,
    Row {
        key: Key::Band,
        kind: BAND,
        needed: true,
    },
    Row {
        key: Key::Wind,
        kind: Kind::Wind,
        needed: true,
    },
];

const AXIS: [Row; 4] = [
    Row {
        key: Key::Kp,
        kind: GAIN,
        needed: true,
    },
    Row {
        key: Key::Ki,
        kind: GAIN,
        needed: true,
    },
    Row {
        key: Key::Kd,
        kind: GAIN,
        needed: true,
    },
    Row {
        key: Key::Limit,
        kind: SUM_LIMIT,
        needed: true,
    },
];

const SECTION: [Row; 1] = [NAME];

const TIE: [Row; 3] = [
    NAME,
    Row {
        key: Key::Ends,
        kind: Kind::Texts(PAIR),
        needed: true,
    },
    Row {
        key: Key::Closed,
        kind: Kind::Truth,
        needed: true,
    },
];

const GENERATOR: [Row; 4] = [
    NAME,
    FED_BY,
    Row {
        key: Key::Power,
        kind: POWER,
        needed: true,
    },
    Row {
        key: Key::Running,
        kind: Kind::Truth,
        needed: true,
    },
];

/// The keys of a thruster. Those of format 1 are all but the last.
const THRUSTER: [Row; 10] = [
    NAME,
    FED_BY,
    Row {
        key: Key::At,
        kind: LEVER,
        needed: true,
    },
    Row {
        key: Key::Rated,
        kind: POWER,
        needed: true,
    },
    Row {
        key: Key::Thresholds,
        kind: Kind::Thresholds,
        needed: true,
    },
    Row {
        key: Key::Ring,
        kind: Kind::Ring,
        needed: true,
    },
    Row {
        key: Key::Forbid,
        kind: Kind::Sectors,
        needed: false,
    },
    Row {
        key: Key::Selected,
        kind: Kind::Truth,
        needed: true,
    },
    Row {
        key: Key::Frozen,
        kind: THRUST,
        needed: false,
    },
    Row {
        key: Key::Barred,
        kind: BARRED,
        needed: false,
    },
];

const GROUP: [Row; 2] = [
    NAME,
    Row {
        key: Key::Members,
        kind: MEMBERS,
        needed: true,
    },
];

/// The keys of a table of the part, in the order in which they are judged. Those of the controller
/// are the keys of each of its three tables.
pub fn rows(format: Format, part: Part) -> &'static [Row]
    ensures { result.now ≡ rows format part }
{
    match part {
        Part::Top => &TOP,
        Part::Controller => &AXIS,
        Part::Section => &SECTION,
        Part::Tie => &TIE,
        Part::Generator => &GENERATOR,
        Part::Thruster => match format {
            Format::One => &THRUSTER[..THRUSTER.len() - 1],
            Format::Two => &THRUSTER,
        },
        Part::Group => &GROUP,
    }
}

/// The parts that are arrays of tables, in the order in which they are judged.
pub const ARRAYS: [Part; 5] = [
    Part::Section,
    Part::Tie,
    Part::Generator,
    Part::Thruster,
    Part::Group,
];

/// How many tables a part has: one where it is no array of tables.
pub fn count_of(format: Format, part: Part) -> Count
    ensures { result ≡ count_of format part }
{
    let (fewest, most) = match part {
        Part::Top | Part::Controller => (1, 1),
        Part::Section => (1, MOST_SECTIONS),
        Part::Tie => (0, MOST_TIES),
        Part::Generator => (0, MOST_GENERATORS),
        Part::Thruster => (1, MOST_THRUSTERS),
        Part::Group => match format {
            Format::One => (1, MOST_GROUPS_OF_FORMAT_1),
            Format::Two => (1, MOST_GROUPS),
        },
    };
    Count {
        fewest,
        most: most as u32,
    }
}
