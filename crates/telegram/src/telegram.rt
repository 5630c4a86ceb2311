//! What telegrams say, and why a body is none.
ghost use Rattle.std.specs.Prelude.{◌≡◌};
ghost use Rattle.telegram.specs.Telegrams.{reject_number};

use plant_model::name::Name;
use plant_model::wrench::Wrench;

/// What a telegram says. Moments are in ms, positions in cm, angles in centidegrees, and wind
/// speeds in dm/s.
#[derive(Debug, PartialEq, Eq, Drop)]
pub enum Telegram {
    /// Where the vessel is: to the north and to the east of the origin, and its heading.
    Position {
        moment: u32,
        x: i32,
        y: i32,
        heading: u32,
    },
    /// The wind, and where it comes from, from the bow towards starboard.
    Wind {
        moment: u32,
        speed: u32,
        angle: u32,
    },
    /// Where the vessel is to be.
    Setpoint {
        x: i32,
        y: i32,
        heading: u32,
    },
    /// Selects a thruster, or takes it out.
    Thruster {
        name: Name,
        selected: bool,
    },
    /// Runs or stops a generator.
    Generator {
        name: Name,
        running: bool,
    },
    /// Closes or opens a bus tie.
    Tie {
        name: Name,
        closed: bool,
    },
    /// Hands the demand to the operator, or back to the controller.
    Mode {
        manual: bool,
    },
    /// The demand that the operator makes.
    Manual {
        demand: Wrench,
    },
    /// The operator has seen the alarm of this number.
    Ack {
        number: u32,
    },
    /// Asks for the board of verdicts.
    Board,
    /// Bars a piece of what a thruster can give, or frees it.
    Bar {
        name: Name,
        piece: u32,
        barred: bool,
    },
}

/// Why a body is no telegram.
#[derive(Clone, Copy, Debug, PartialEq, Eq)]
pub enum Reject {
    /// The first field is no telegram's.
    Kind,
    /// There are more or fewer fields than the telegram has.
    Count,
    /// A field isn't spelled as a number.
    Number,
    /// A number is out of its range.
    Range,
    /// A field is no name, or none of the words that may stand there.
    Word,
}

impl Reject {
    /// The refusal's number, 1 to 5 in the order of the variants.
    pub fn number(self) -> u32
        ensures { result ≡ reject_number self }
    {
        match self {
            Reject::Kind => 1,
            Reject::Count => 2,
            Reject::Number => 3,
            Reject::Range => 4,
            Reject::Word => 5,
        }
    }
}
