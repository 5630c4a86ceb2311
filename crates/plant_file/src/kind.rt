//! What a key of the file holds: its kind, and the limits of its numbers, counts and names.
ghost use Rattle.std.specs.Prelude.{◌≡◌, ◌<◌, ◌^◌, map};
ghost use Rattle.std.specs.List.{list_all};
ghost use Rattle.toml.specs.View.{view};
ghost use Rattle.plant_model.specs.Names.{is_name};
ghost use Rattle.plant_model.specs.Plants.{are_thresholds_from, is_wind_row};
ghost use Rattle.plant_model.specs.Rings.{is_ring_point};
ghost use Rattle.plant_file.specs.Documents.{is_text, is_whole, natural, number_in};
ghost use Rattle.plant_file.specs.Kinds.{are_places, exactly, has_kind, is_count, is_in, is_list};
ghost use Rattle.plant_file.specs.Kinds.{is_list_of_wholes, is_list_of_rows, keeps_limit, point_in};
ghost use Rattle.plant_file.specs.Kinds.{wind_row_in};

use crate::document::{list, number, number_at, text};
use plant_model::limits::{
    AXES, FEWEST_RING_POINTS, MOST_RING_POINTS, MOST_SECTORS, MOST_THRESHOLD, MOST_THRUST,
    MOST_WIND_FORCE, MOST_WIND_MOMENT, QUARTERS, THRESHOLDS, WIND_ROWS,
};
use plant_model::name::Name;
use toml::Value;

/// How many elements a list has. One that must have the one number has another kind where it has
/// another.
#[derive(Clone, Copy, Debug, PartialEq, Eq)]
pub struct Count {
    pub fewest: u32,
    pub most: u32,
}

impl Count {
    pub const fn exactly(number: usize) -> Count
        requires { number < 2 ^ 32 }
        ensures { result ≡ exactly number }
    {
        Count {
            fewest: number as u32,
            most: number as u32,
        }
    }

    /// Whether so many elements are few enough, and enough.
    fn has(self, elements: &[Value]) -> bool
        ensures { result ≡ is_count self (map view elements.now) }
    {
        self.fewest as usize <= elements.len() && elements.len() <= self.most as usize
    }
}

/// The limits of a number.
#[derive(Clone, Copy, Debug, PartialEq, Eq)]
pub struct Span {
    pub least: i64,
    pub most: i64,
}

impl Span {
    /// Whether the number that the value is is in the limits.
    fn has(self, value: &Value) -> bool
        ensures { result ≡ is_in self (view value.now) }
    {
        let number = number(value);
        self.least <= number && number <= self.most
    }
}

/// What a key holds.
#[derive(Clone, Copy, Debug, PartialEq, Eq)]
pub enum Kind {
    Whole(Span),
    Name,
    Truth,
    Texts(Count),
    Wholes(Count, Span),
    /// Whole numbers, one for each quarter of a thruster's thrust, none less than the one before.
    Thresholds,
    /// A list of three whole numbers for every ten degrees.
    Wind,
    /// A list of points.
    Ring,
    /// A list of pairs of places of a ring.
    Sectors,
}

/// The numbers of a point, and the places of a sector.
const PAIR: Count = Count { fewest: 2, most: 2 };

const RING_COUNT: Count = Count {
    fewest: FEWEST_RING_POINTS as u32,
    most: MOST_RING_POINTS as u32,
};

const SECTORS_COUNT: Count = Count {
    fewest: 0,
    most: MOST_SECTORS as u32,
};

/// The places of the longest ring.
const PLACES: Span = Span {
    least: 0,
    most: MOST_RING_POINTS as i64 - 1,
};

/// Whether the value is a list, and has the right length where that is fixed.
fn is_list(count: Count, value: &Value) -> bool
    ensures { result ≡ is_list count (view value.now) }
{
    value.is_array() && (count.fewest != count.most || list(value).len() == count.most as usize)
}

fn are_wholes(values: &[Value]) -> bool
    ensures { result ≡ list_all is_whole (map view values.now) }
{
    values.iter().all(|value| value.is_integer())
}

fn are_texts(values: &[Value]) -> bool
    ensures { result ≡ list_all is_text (map view values.now) }
{
    values.iter().all(|value| value.is_str())
}

fn is_list_of_wholes(count: Count, value: &Value) -> bool
    ensures { result ≡ is_list_of_wholes count (view value.now) }
{
    is_list(count, value) && are_wholes(list(value))
}

/// Whether the values are lists of whole numbers, of which each is so long.
fn are_rows(width: Count, values: &[Value]) -> bool
    ensures { result ≡ list_all (is_list_of_wholes width) (map view values.now) }
{
    values.iter().all(|value| is_list_of_wholes(width, value))
}

fn is_list_of_rows(count: Count, width: Count, value: &Value) -> bool
    ensures { result ≡ is_list_of_rows count width (view value.now) }
{
    is_list(count, value) && are_rows(width, list(value))
}

/// Whether the value and its elements are of the kind.
pub fn has_kind(kind: Kind, value: &Value) -> bool
    ensures { result ≡ has_kind kind (view value.now) }
{
    match kind {
        Kind::Whole(_) => value.is_integer(),
        Kind::Name => value.is_str(),
        Kind::Truth => value.is_bool(),
        Kind::Texts(count) => { is_list(count, value) && are_texts(list(value)) }
        Kind::Wholes(count, _) => is_list_of_wholes(count, value),
        Kind::Thresholds => is_list_of_wholes(Count::exactly(THRESHOLDS), value),
        Kind::Wind => is_list_of_rows(Count::exactly(WIND_ROWS), Count::exactly(AXES), value),
        Kind::Ring => is_list_of_rows(RING_COUNT, PAIR, value),
        Kind::Sectors => is_list_of_rows(SECTORS_COUNT, PAIR, value),
    }
}

fn is_name(text: &str) -> bool
    ensures { result ≡ is_name text.now }
{
    Name::of(text.as_bytes()).is_some()
}

/// Whether each of the numbers is at least the one before, the first at least 1, and the last
/// within the limit.
fn are_thresholds(values: &[Value]) -> bool
    ensures { result
        ≡ are_thresholds_from 1 (map (λ d. natural (number_in d)) (map view values.now)) }
{
    let mut least = 1;
    for value in values {
        let threshold = number(value);
        if threshold < least || i64::from(MOST_THRESHOLD) < threshold {
            return false;
        }
        least = threshold;
    }
    true
}

/// Whether the value is a row of the wind table within its limits.
fn is_wind_row(value: &Value) -> bool
    ensures { result ≡ is_wind_row (wind_row_in (view value.now)) }
{
    number_at(value, 0).unsigned_abs() <= u64::from(MOST_WIND_FORCE.unsigned_abs())
        && number_at(value, 1).unsigned_abs() <= u64::from(MOST_WIND_FORCE.unsigned_abs())
        && number_at(value, 2).unsigned_abs() <= u64::from(MOST_WIND_MOMENT.unsigned_abs())
}

/// Whether the value is a point that a ring may have.
fn is_ring_point(value: &Value) -> bool
    ensures { result ≡ is_ring_point (point_in (view value.now)) }
{
    let x = number_at(value, 0).unsigned_abs();
    let y = number_at(value, 1).unsigned_abs();
    let most = u64::from(MOST_THRUST.unsigned_abs());
    let quarters = u64::from(QUARTERS);
    x <= most && y <= most && x % quarters == 0 && y % quarters == 0
}

fn are_in(span: Span, values: &[Value]) -> bool
    ensures { result ≡ list_all (is_in span) (map view values.now) }
{
    values.iter().all(|value| span.has(value))
}

fn are_wind_rows(values: &[Value]) -> bool
    ensures { result ≡ list_all (λ d. is_wind_row (wind_row_in d)) (map view values.now) }
{
    values.iter().all(|value| is_wind_row(value))
}

fn are_ring_points(values: &[Value]) -> bool
    ensures { result ≡ list_all (λ d. is_ring_point (point_in d)) (map view values.now) }
{
    values.iter().all(|value| is_ring_point(value))
}

/// Whether the elements of each of the values are places of the longest ring.
fn are_sectors(values: &[Value]) -> bool
    ensures { result ≡ list_all are_places (map view values.now) }
{
    values.iter().all(|value| are_in(PLACES, list(value)))
}

/// Whether the numbers, counts and names of a value of the kind keep their limits.
pub fn keeps_limit(kind: Kind, value: &Value) -> bool
    ensures { result ≡ keeps_limit kind (view value.now) }
{
    let values = list(value);
    match kind {
        Kind::Whole(span) => span.has(value),
        Kind::Name => is_name(text(value)),
        Kind::Truth => true,
        Kind::Texts(count) => count.has(values),
        Kind::Wholes(count, span) => count.has(values) && are_in(span, values),
        Kind::Thresholds => are_thresholds(values),
        Kind::Wind => are_wind_rows(values),
        Kind::Ring => RING_COUNT.has(values) && are_ring_points(values),
        Kind::Sectors => SECTORS_COUNT.has(values) && are_sectors(values),
    }
}
