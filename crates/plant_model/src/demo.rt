//! The built-in plant.
ghost use Rattle.std.specs.Prelude.{◌≡◌, ◌≤◌, [], ◌∷◌, length, IsTrue};
ghost use Rattle.plant_model.specs.Names.{is_name};
ghost use Rattle.plant_model.specs.Demo.{demo_parts, demo_gains, demo_sections, demo_ties};
ghost use Rattle.plant_model.specs.Demo.{demo_generators, demo_tunnel, demo_azimuth};
ghost use Rattle.plant_model.specs.Demo.{demo_thrusters, demo_groups, demo_opening};

use crate::controller::Gains;
use crate::limits::{
    AXES, MOST_GENERATORS, MOST_GROUPS, MOST_PIECE_POINTS, MOST_RING_POINTS, MOST_SECTIONS,
    MOST_THRUSTERS, MOST_TIES, THRESHOLDS,
};
use crate::name::Name;
use crate::parts::{Generator, Group, Member, Thruster, Tie};
use crate::plant::{Parts, Plant};
use crate::status::Status;
use crate::thrust::{Piece, Pieces, Point, Ring};
use arrayvec::ArrayVec;
use wind::WIND;

pub mod wind;

/// What each generator gives, in kW.
const POWER: u32 = 4_000;

/// What each thruster takes at full thrust, in kW.
const RATED: u32 = 2_000;

/// Each quarter of the power gives a quarter of the thrust.
const EVEN_THRESHOLDS: [u32; THRESHOLDS] = [25, 50, 75, 100];

fn name(text: &[u8]) -> Name
    requires { IsTrue (is_name text.now) }
    ensures { result ≡ text.now }
{
    Name::of(text).unwrap()
}

fn gains() -> [Gains; AXES]
    ensures { result ≡ demo_gains }
{
    let along = Gains {
        kp: 200,
        ki: 10,
        kd: 500,
        limit: 1_000_000_000,
    };
    let yaw = Gains {
        kp: 200_000,
        ki: 1_000,
        kd: 500_000,
        limit: 1_000_000_000,
    };
    [along, along, yaw]
}

fn sections() -> ArrayVec<Name, MOST_SECTIONS>
    ensures { result.items ≡ demo_sections }
{
    let mut sections = ArrayVec::new();
    sections.push(name(b"A"));
    sections.push(name(b"B"));
    sections
}

fn ties() -> ArrayVec<Tie, MOST_TIES>
    ensures { result.items ≡ demo_ties }
{
    let mut ties = ArrayVec::new();
    ties.push(Tie {
        name: name(b"T1"),
        first: 0,
        second: 1,
    });
    ties
}

fn generator(text: &[u8], section: u32) -> Generator
    requires { IsTrue (is_name text.now) }
    ensures named { result.name ≡ text.now }
    ensures feeds { result.section ≡ section }
    ensures power { result.power ≡ POWER }
{
    Generator {
        name: name(text),
        section,
        power: POWER,
    }
}

fn generators() -> ArrayVec<Generator, MOST_GENERATORS>
    ensures { result.items ≡ demo_generators }
{
    let mut generators = ArrayVec::new();
    generators.push(generator(b"G1", 0));
    generators.push(generator(b"G2", 1));
    generators
}

fn ring(points: &[Point]) -> Ring
    requires { length points.now ≤ MOST_RING_POINTS }
    ensures { result.points.items ≡ points.now }
{
    let mut ring = Ring::default();
    ring.points.try_extend_from_slice(points).unwrap();
    ring
}

fn piece(points: &[Point]) -> Piece
    requires { length points.now ≤ MOST_PIECE_POINTS }
    ensures { result.points.items ≡ points.now }
{
    let mut piece = Piece::default();
    piece.points.try_extend_from_slice(points).unwrap();
    piece
}

/// A tunnel thruster, which gives up to 200 kN to port or to starboard.
fn tunnel(text: &[u8], section: u32, lever: Point) -> Thruster
    requires { IsTrue (is_name text.now) }
    ensures { result ≡ demo_tunnel text.now section lever }
{
    let across = [Point { x: 0, y: -200 }, Point { x: 0, y: 200 }];
    let mut pieces = Pieces::default();
    pieces.list.push(piece(&across));
    Thruster {
        name: name(text),
        section,
        lever,
        rated: RATED,
        thresholds: EVEN_THRESHOLDS,
        ring: ring(&across),
        sectors: ArrayVec::new(),
        pieces,
        frozen: None,
    }
}

/// An azimuth thruster, which gives up to 400 kN along each axis, and less between them.
fn azimuth(text: &[u8], section: u32, lever: Point) -> Thruster
    requires { IsTrue (is_name text.now) }
    ensures { result ≡ demo_azimuth text.now section lever }
{
    let ahead = Point { x: 400, y: 0 };
    let starboard = Point { x: 0, y: 400 };
    let astern = Point { x: -400, y: 0 };
    let port = Point { x: 0, y: -400 };
    let mut pieces = Pieces::default();
    pieces.list.push(piece(&[ahead, starboard, astern]));
    pieces.list.push(piece(&[astern, port, ahead]));
    Thruster {
        name: name(text),
        section,
        lever,
        rated: RATED,
        thresholds: EVEN_THRESHOLDS,
        ring: ring(&[ahead, starboard, astern, port]),
        sectors: ArrayVec::new(),
        pieces,
        frozen: None,
    }
}

fn thrusters() -> ArrayVec<Thruster, MOST_THRUSTERS>
    ensures { result.items ≡ demo_thrusters }
{
    let mut thrusters = ArrayVec::new();
    thrusters.push(tunnel(b"BOW1", 0, Point { x: 400, y: 0 }));
    thrusters.push(tunnel(b"BOW2", 1, Point { x: 360, y: 0 }));
    thrusters.push(azimuth(b"PORT", 0, Point { x: -400, y: -100 }));
    thrusters.push(azimuth(b"STBD", 1, Point { x: -400, y: 100 }));
    thrusters
}

fn group(text: &[u8], section: u32) -> Group
    requires { IsTrue (is_name text.now) }
    ensures named { result.name ≡ text.now }
    ensures members { result.members.items ≡ Member.Section section ∷ [] }
{
    let mut members = ArrayVec::new();
    members.push(Member::Section(section));
    Group {
        name: name(text),
        members,
    }
}

fn groups() -> ArrayVec<Group, MOST_GROUPS>
    ensures { result.items ≡ demo_groups }
{
    let mut groups = ArrayVec::new();
    groups.push(group(b"GA", 0));
    groups.push(group(b"GB", 1));
    groups
}

fn opening() -> Status
    ensures { result ≡ demo_opening }
{
    Status {
        selected: [
            true, true, true, true, false, false, false, false, false, false, false, false,
        ],
        running: [true, true, false, false, false, false, false, false],
        closed: [false; MOST_TIES],
        barred: [0; MOST_THRUSTERS],
    }
}

/// The demo plant: two sections with an open tie between them, and on each a running generator, a tunnel
/// thruster at the bow and an azimuth at the stern, all selected. Group GA is the loss of section A, and GB
/// that of section B. The wind table is [`wind::WIND`].
pub fn demo() -> Plant
    ensures { result ≡ demo_parts }
{
    Plant::of(Parts {
        name: name(b"DEMO"),
        band: [15, 15, 10_000],
        gains: gains(),
        wind: WIND,
        sections: sections(),
        ties: ties(),
        generators: generators(),
        thrusters: thrusters(),
        groups: groups(),
        opening: opening(),
    })
}
