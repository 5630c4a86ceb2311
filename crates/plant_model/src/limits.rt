//! The limits of plants, telegrams and sessions. No other crate writes these numbers: code, definitions and proofs
//! cite the names. The limit of a body is `frame`'s, `MOST_BODY_BYTES`, since `frame` stands below.
ghost use Rattle.plant_model.specs.Limits.{AreLimits};

/// The sections of a plant: 1 to this many.
pub const MOST_SECTIONS: usize = 8;
/// The bus ties of a plant: 0 to this many.
pub const MOST_TIES: usize = 8;
/// The generators of a plant: 0 to this many.
pub const MOST_GENERATORS: usize = 8;
/// The thrusters of a plant: 1 to this many.
pub const MOST_THRUSTERS: usize = 12;
/// The redundancy groups of a plant: 1 to this many.
pub const MOST_GROUPS: usize = 16;
/// The redundancy groups that a plant file of format 1 may have.
pub const MOST_GROUPS_OF_FORMAT_1: usize = 8;
/// The members of a redundancy group: 1 to as many as a plant has parts.
pub const MOST_MEMBERS: usize = 36;
/// The power of a generator and the rated power of a thruster, in kW: 1 to this much.
pub const MOST_POWER: u32 = 100_000;
/// The bytes of a name: 1 to this many.
pub const MOST_NAME_BYTES: usize = 12;

/// The farthest lever of a thruster along an axis, either way, in dm.
pub const FARTHEST_LEVER: i32 = 1_600;
/// The greatest thrust of one thruster along an axis, either way, in kN.
pub const MOST_THRUST: i32 = 2_000;
/// A thruster gives from none to all of this many quarters of its thrust. The coordinates of a ring's points
/// are multiples of it, so that each quarter of them is whole.
pub const QUARTERS: u32 = 4;
/// The thresholds of a thruster, one for each quarter.
pub const THRESHOLDS: usize = 4;
/// The greatest threshold of a share, in percent; the least is 1.
pub const MOST_THRESHOLD: u32 = 100;
/// The fewest points of a ring.
pub const FEWEST_RING_POINTS: usize = 2;
/// The points of a ring.
pub const MOST_RING_POINTS: usize = 16;
/// The forbidden sectors of a thruster: 0 to this many.
pub const MOST_SECTORS: usize = 8;
/// The pieces of a thruster: 1 to this many.
pub const MOST_PIECES: usize = 16;
/// The points of a piece beside the origin.
pub const MOST_PIECE_POINTS: usize = 8;
/// The choices of one piece for each thruster that a plant may leave.
pub const MOST_CHOICES: usize = 64;

/// The greatest gain of a controller.
pub const MOST_GAIN: u32 = 1_000_000_000;
/// The greatest limit of a controller's sum.
pub const MOST_SUM_LIMIT: u64 = 1_000_000_000_000;
/// The greatest wind coefficient along x and along y, either way.
pub const MOST_WIND_FORCE: i32 = 100_000;
/// The greatest wind coefficient in yaw, either way.
pub const MOST_WIND_MOMENT: i32 = 100_000_000;

/// The bytes of a plant file.
pub const MOST_PLANT_BYTES: usize = 1_048_576;
/// The entries of telegrams and notes that a session's history holds.
pub const MOST_ENTRIES: u32 = 50_000;
/// The bytes of a telegram stream.
pub const MOST_STREAM_BYTES: usize = 16_777_216;
/// The alarms that the ring keeps.
pub const MOST_ALARMS: usize = 256;
/// The jobs that wait in the queue.
pub const MOST_JOBS: usize = 256;
/// The workers of a session: 1 to this many.
pub const MOST_WORKERS: u32 = 8;

/// The greatest demand along x and along y, ahead or astern, in kN: that of all thrusters.
pub const MOST_FORCE: i32 = 24_000;
/// The greatest demand in yaw, either way, in kN·dm: that of all thrusters at the farthest levers.
pub const MOST_MOMENT: i32 = 76_800_000;
/// The axes of a demand: x, y and yaw.
pub const AXES: usize = 3;

/// The farthest position from the origin along an axis, in cm.
pub const MOST_POSITION: i32 = 10_000_000;
/// The centidegrees of a whole turn; an angle is below this.
pub const WHOLE_TURN: u32 = 36_000;
/// The centidegrees of half a turn.
pub const HALF_TURN: u32 = WHOLE_TURN / 2;
/// The centidegrees of a quarter of a turn, a right angle.
pub const QUARTER_TURN: u32 = WHOLE_TURN / 4;
/// The last moment of time, in ms from any start.
pub const LAST_MOMENT: u32 = u32::MAX;
/// The last number of an alarm; the first is 1.
pub const LAST_ALARM: u32 = u32::MAX;
/// The greatest wind speed, in dm/s.
pub const MOST_WIND_SPEED: u32 = 1_000;
/// The rows of a wind table, one for each ten degrees.
pub const WIND_ROWS: usize = 36;

/// The law of limits: each is the number that stands above, in its unit. Calling it does nothing.
pub fn limits_are_told()
    ensures { AreLimits }
{}
