//! The thrusters of the plants. Each takes 2000 kW, and gives a quarter of its thrust for each quarter
//! of the power.
ghost use Rattle.std.specs.Prelude.{◌≡◌, ◌≤◌, [], ◌∷◌, codes, length, neg_ℤ, pos, IsTrue, Some};
ghost use Rattle.std.specs.Prelude.{None};
ghost use Rattle.plant_model.specs.Demo.{demo_azimuth, demo_tunnel, point};
ghost use Rattle.plant_model.specs.Names.{is_name};
ghost use Rattle.plant_model.specs.Rings.{origin};
ghost use Rattle.plant_model.specs.declared.limits.TheConstants.{MOST_PIECE_POINTS};
ghost use Rattle.plant_model.specs.declared.limits.TheConstants.{MOST_RING_POINTS};
ghost use Rattle.example_plants.specs.Thrusters.{guarded_azimuth, main_propeller};

use crate::parts::name;
use arrayvec::ArrayVec;
use plant_model::limits::{MOST_PIECE_POINTS, MOST_RING_POINTS, MOST_THRUSTERS, THRESHOLDS};
use plant_model::parts::Thruster;
use plant_model::thrust::{Piece, Pieces, Point, Ring, Sector};

const RATED: u32 = 2_000;

const EVEN_THRESHOLDS: [u32; THRESHOLDS] = [25, 50, 75, 100];

const ORIGIN: Point = Point { x: 0, y: 0 };

const AHEAD: Point = Point { x: 400, y: 0 };

const STARBOARD: Point = Point { x: 0, y: 400 };

const ASTERN: Point = Point { x: -400, y: 0 };

const PORT: Point = Point { x: 0, y: -400 };

fn ring(points: &[Point]) -> Ring
    requires { length points.now ≤ MOST_RING_POINTS }
    ensures { result.points.items ≡ points.now }
{
    let mut ring = Ring::default();
    ring.points.try_extend_from_slice(points).unwrap();
    ring
}

fn piece(points: &[Point]) -> Piece
    requires { length points.now ≤ MOST_PIECE_POINTS }
    ensures { result.points.items ≡ points.now }
{
    let mut piece = Piece::default();
    piece.points.try_extend_from_slice(points).unwrap();
    piece
}

/// A tunnel thruster of the built-in plant on its middle line, with a frozen thrust.
fn tunnel(text: &[u8], section: u32, along: i32, frozen: Option<Point>) -> Thruster
    requires { IsTrue (is_name text.now) }
    ensures { result
        ≡ record (demo_tunnel text.now section (point along (pos 0))) { frozen = frozen } }
{
    let across = [Point { x: 0, y: -200 }, Point { x: 0, y: 200 }];
    let mut pieces = Pieces::default();
    pieces.list.push(piece(&across));
    Thruster {
        name: name(text),
        section,
        lever: Point { x: along, y: 0 },
        rated: RATED,
        thresholds: EVEN_THRESHOLDS,
        ring: ring(&across),
        sectors: ArrayVec::new(),
        pieces,
        frozen,
    }
}

/// An azimuth of the built-in plant.
fn azimuth(text: &[u8], section: u32, lever: Point) -> Thruster
    requires { IsTrue (is_name text.now) }
    ensures { result ≡ demo_azimuth text.now section lever }
{
    let mut pieces = Pieces::default();
    pieces.list.push(piece(&[AHEAD, STARBOARD, ASTERN]));
    pieces.list.push(piece(&[ASTERN, PORT, AHEAD]));
    Thruster {
        name: name(text),
        section,
        lever,
        rated: RATED,
        thresholds: EVEN_THRESHOLDS,
        ring: ring(&[AHEAD, STARBOARD, ASTERN, PORT]),
        sectors: ArrayVec::new(),
        pieces,
        frozen: None,
    }
}

/// A main propeller with two rudders' sectors: it gives thrust ahead within an angle, or astern.
fn propeller(text: &[u8]) -> Thruster
    requires { IsTrue (is_name text.now) }
    ensures { result ≡ main_propeller text.now }
{
    let port = Point { x: 1_000, y: -300 };
    let starboard = Point { x: 1_000, y: 300 };
    let mut sectors = ArrayVec::new();
    sectors.push(Sector { from: 1, to: 2 });
    sectors.push(Sector { from: 2, to: 0 });
    let mut pieces = Pieces::default();
    pieces.list.push(piece(&[port, starboard]));
    pieces.list.push(piece(&[ASTERN]));
    Thruster {
        name: name(text),
        section: 0,
        lever: ORIGIN,
        rated: RATED,
        thresholds: EVEN_THRESHOLDS,
        ring: ring(&[port, starboard, ASTERN]),
        sectors,
        pieces,
        frozen: None,
    }
}

/// An azimuth that may not give thrust between ahead and starboard.
fn guarded() -> Thruster
    ensures { result ≡ guarded_azimuth (codes "AZI") }
{
    let mut sectors = ArrayVec::new();
    sectors.push(Sector { from: 0, to: 1 });
    let mut pieces = Pieces::default();
    pieces.list.push(piece(&[STARBOARD, ASTERN, PORT]));
    pieces.list.push(piece(&[PORT, AHEAD]));
    Thruster {
        name: name(b"AZI"),
        section: 0,
        lever: ORIGIN,
        rated: RATED,
        thresholds: EVEN_THRESHOLDS,
        ring: ring(&[AHEAD, STARBOARD, ASTERN, PORT]),
        sectors,
        pieces,
        frozen: None,
    }
}

/// Those of the built-in plant, of which BOW1 freezes at 100 kN to starboard.
pub(crate) fn four_thrusters() -> ArrayVec<Thruster, MOST_THRUSTERS>
    ensures { result.items
        ≡ record (demo_tunnel (codes "BOW1") 0 (point (pos 400) (pos 0))) {
          frozen = Some (point (pos 0) (pos 100));
        }
        ∷ record (demo_tunnel (codes "BOW2") 1 (point (pos 360) (pos 0))) { frozen = None }
        ∷ demo_azimuth (codes "PORT") 0 (point (neg_ℤ (pos 400)) (neg_ℤ (pos 100)))
        ∷ demo_azimuth (codes "STBD") 1 (point (neg_ℤ (pos 400)) (pos 100)) ∷ [] }
{
    let mut thrusters = ArrayVec::new();
    thrusters.push(tunnel(b"BOW1", 0, 400, Some(Point { x: 0, y: 100 })));
    thrusters.push(tunnel(b"BOW2", 1, 360, None));
    thrusters.push(azimuth(b"PORT", 0, Point { x: -400, y: -100 }));
    thrusters.push(azimuth(b"STBD", 1, Point { x: -400, y: 100 }));
    thrusters
}

pub(crate) fn guarded_thruster() -> ArrayVec<Thruster, MOST_THRUSTERS>
    ensures { result.items ≡ guarded_azimuth (codes "AZI") ∷ [] }
{
    let mut thrusters = ArrayVec::new();
    thrusters.push(guarded());
    thrusters
}

/// Two tunnels, an azimuth and two main propellers.
pub(crate) fn five_thrusters() -> ArrayVec<Thruster, MOST_THRUSTERS>
    ensures { result.items
        ≡ record (demo_tunnel (codes "BOW1") 0 (point (pos 400) (pos 0))) { frozen = None }
        ∷ record (demo_tunnel (codes "BOW2") 0 (point (pos 360) (pos 0))) { frozen = None }
        ∷ demo_azimuth (codes "AZI") 0 origin
        ∷ main_propeller (codes "PORT") ∷ main_propeller (codes "STBD") ∷ [] }
{
    let mut thrusters = ArrayVec::new();
    thrusters.push(tunnel(b"BOW1", 0, 400, None));
    thrusters.push(tunnel(b"BOW2", 0, 360, None));
    thrusters.push(azimuth(b"AZI", 0, ORIGIN));
    thrusters.push(propeller(b"PORT"));
    thrusters.push(propeller(b"STBD"));
    thrusters
}

/// Six azimuths at one place.
pub(crate) fn six_thrusters() -> ArrayVec<Thruster, MOST_THRUSTERS>
    ensures { result.items ≡ demo_azimuth (codes "AZI1") 0 origin
        ∷ demo_azimuth (codes "AZI2") 0 origin ∷ demo_azimuth (codes "AZI3") 0 origin
        ∷ demo_azimuth (codes "AZI4") 0 origin ∷ demo_azimuth (codes "AZI5") 0 origin
        ∷ demo_azimuth (codes "AZI6") 0 origin ∷ [] }
{
    let mut thrusters = ArrayVec::new();
    thrusters.push(azimuth(b"AZI1", 0, ORIGIN));
    thrusters.push(azimuth(b"AZI2", 0, ORIGIN));
    thrusters.push(azimuth(b"AZI3", 0, ORIGIN));
    thrusters.push(azimuth(b"AZI4", 0, ORIGIN));
    thrusters.push(azimuth(b"AZI5", 0, ORIGIN));
    thrusters.push(azimuth(b"AZI6", 0, ORIGIN));
    thrusters
}
