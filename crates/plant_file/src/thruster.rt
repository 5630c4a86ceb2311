//! What a document says of one thruster.
ghost use Rattle.std.specs.Prelude.{◌≡◌, ◌<◌, ◌≤◌, ◌^◌, map, option_map, unwrap_or, nat_abs};
ghost use Rattle.std.specs.Prelude.{length, ◌==◌, Ok, IsTrue};
ghost use Rattle.std.specs.List.{flat_map, list_any};
ghost use Rattle.toml.specs.View.{view, table_view};
ghost use Rattle.plant_file.specs.declared.fault.Part.TheVariants as part;
ghost use Rattle.plant_model.specs.Rings.{is_ring, are_sectors, origin};
ghost use Rattle.plant_model.specs.declared.limits.TheConstants.{MOST_PIECES};
ghost use Rattle.plant_file.specs.declared.fault.Key.TheVariants as key;
ghost use Rattle.plant_file.specs.Documents.{natural, number_at, number_in};
ghost use Rattle.plant_file.specs.Described.{held, mask_of, naturals_at, pieces_in, points_at};
ghost use Rattle.plant_file.specs.Described.{sector_in, sectors_at, thruster_from};
ghost use Rattle.plant_file.specs.Faults.{judged};
ghost use Rattle.plant_file.specs.Keys.{thruster_rows_of_1};
ghost use Rattle.plant_file.specs.Kinds.{are_places, point_in};
ghost use Rattle.plant_file.specs.PlantText.{are_barred, placed, thruster_faults};
ghost use Rattle.plant_file.specs.RightKeys.{has_right_keys, HasRightKeys};

use crate::document::{held, list_at, natural, natural_number_at, number_at, small_at};
use crate::fault::{Key, Part, PlantFault};
use crate::judging::elements;
use crate::parts::numbers;
use crate::rings::{are_sectors, is_ring};
use arrayvec::ArrayVec;
use plant_model::limits::{MOST_SECTORS, THRESHOLDS};
use plant_model::name::Name;
use plant_model::parts::Thruster;
use plant_model::thrust::{Point, Ring, Sector};
use thrust_region::cut_ring;
use toml::{Table, Value};

/// The point that two numbers are, which fit.
pub fn point(value: &Value) -> Point
    requires x { nat_abs (number_at 0 (view value.now)) < 2 ^ 31 }
    requires y { nat_abs (number_at 1 (view value.now)) < 2 ^ 31 }
    ensures { result ≡ point_in (view value.now) }
{
    Point {
        x: number_at(value, 0) as i32,
        y: number_at(value, 1) as i32,
    }
}

fn sector(value: &Value) -> Sector
    requires { IsTrue (are_places (view value.now)) }
    ensures { result ≡ sector_in (view value.now) }
{
    Sector {
        from: natural_number_at(value, 0) as u32,
        to: natural_number_at(value, 1) as u32,
    }
}

/// The ring of a thruster, which need not be convex.
fn ring(element: &Value) -> Ring
    requires { IsTrue (has_right_keys thruster_rows_of_1 (view element.now)) }
    ensures { result.points.items ≡ points_at key.Ring (view element.now) }
{
    let mut ring = Ring::default();
    for value in list_at(element, Key::Ring) {
        ring.points.push(point(value));
    }
    ring
}

fn sectors(element: &Value) -> ArrayVec<Sector, MOST_SECTORS>
    requires { IsTrue (has_right_keys thruster_rows_of_1 (view element.now)) }
    ensures { result.items ≡ sectors_at key.Forbid (view element.now) }
{
    let mut sectors = ArrayVec::new();
    for value in list_at(element, Key::Forbid) {
        sectors.push(sector(value));
    }
    sectors
}

/// Whether one of the values is the number.
fn is_one_of(sought: u64, values: &[Value]) -> bool
    ensures { result
        ≡ list_any (λ b. sought == b) (map (λ d. natural (number_in d)) (map view values.now)) }
{
    values.iter().any(|value| sought == natural(value))
}

/// Whether each of the values is one of so many pieces, and no two are one piece.
fn are_barred(pieces: usize, values: &[Value]) -> bool
    ensures { result ≡ are_barred pieces (map (λ d. natural (number_in d)) (map view values.now)) }
{
    for (index, value) in values.iter().enumerate() {
        let place = natural(value);
        if place >= pieces as u64 {
            return false;
        }
        if is_one_of(place, &values[index + 1..]) {
            return false;
        }
    }
    true
}

/// Judges a thruster's ring, its sectors and its barred pieces.
fn judge_thruster(element: &Value, index: u32) -> Result<(), PlantFault>
    requires { IsTrue (has_right_keys thruster_rows_of_1 (view element.now)) }
    ensures { result ≡ judged (thruster_faults (index, view element.now)) }
{
    let ring = ring(element);
    let sectors = sectors(element);
    if !is_ring(&ring.points) {
        return Err(PlantFault::RingNotConvex(index));
    }
    if !are_sectors(ring.points.len(), &sectors) {
        return Err(PlantFault::SectorBad(index));
    }
    let pieces = cut_ring(&ring, &sectors);
    if are_barred(pieces.list.len(), list_at(element, Key::Barred)) {
        Ok(())
    } else {
        Err(PlantFault::PieceBad(index))
    }
}

/// Judges each thruster's ring, its sectors and its barred pieces.
pub fn judge_thrusters(document: &Table) -> Result<(), PlantFault>
    requires { HasRightKeys (table_view document.now) }
    ensures { result
        ≡ judged (flat_map thruster_faults (placed part.Thruster (table_view document.now))) }
{
    let elements = elements(document, Part::Thruster);
    for (index, element) in elements.iter().enumerate() {
        judge_thruster(element, index as u32)?;
    }
    Ok(())
}

/// The thresholds of a thruster, one for each quarter of its thrust.
fn thresholds(element: &Value) -> [u32; THRESHOLDS]
    requires { IsTrue (has_right_keys thruster_rows_of_1 (view element.now)) }
    ensures { result ≡ naturals_at key.Thresholds (view element.now) }
{
    numbers(list_at(element, Key::Thresholds))
}

fn lever(element: &Value) -> Point
    requires { IsTrue (has_right_keys thruster_rows_of_1 (view element.now)) }
    ensures { result ≡ unwrap_or (option_map point_in (held key.At (view element.now))) origin }
{
    match held(element, Key::At) {
        Some(value) => point(value),
        None => Point { x: 0, y: 0 },
    }
}

/// The thrust at which a thruster stays where it fails by itself.
fn frozen(element: &Value) -> Option<Point>
    requires { IsTrue (has_right_keys thruster_rows_of_1 (view element.now)) }
    ensures { result ≡ option_map point_in (held key.Frozen (view element.now)) }
{
    match held(element, Key::Frozen) {
        Some(value) => Some(point(value)),
        None => None,
    }
}

/// The mask of a thruster's barred pieces, of which bit k stands for its piece k.
pub fn mask(element: &Value) -> u16
    requires { IsTrue (are_barred MOST_PIECES (naturals_at key.Barred (view element.now))) }
    ensures { result ≡ mask_of (naturals_at key.Barred (view element.now)) }
{
    let mut mask = 0;
    for value in list_at(element, Key::Barred) {
        mask += 1 << natural(value);
    }
    mask
}

/// A thruster that is fed by a section.
pub fn thruster(element: &Value, name: Name, section: u32) -> Thruster
    requires keys { IsTrue (has_right_keys thruster_rows_of_1 (view element.now)) }
    requires ring { IsTrue (is_ring (points_at key.Ring (view element.now))) }
    requires sectors { IsTrue (are_sectors (length (points_at key.Ring (view element.now)))
        (sectors_at key.Forbid (view element.now))) }
    ensures { result ≡ thruster_from name section (view element.now) }
{
    let ring = ring(element);
    let sectors = sectors(element);
    let pieces = cut_ring(&ring, &sectors);
    Thruster {
        name,
        section,
        lever: lever(element),
        rated: small_at(element, Key::Rated),
        thresholds: thresholds(element),
        ring,
        sectors,
        pieces,
        frozen: frozen(element),
    }
}
