//! What stands in a document.
ghost use Rattle.std.specs.Prelude.{◌≡◌, ◌<◌, ◌^◌, map, option_map, slice_get};
ghost use Rattle.toml.specs.Data.{get_member};
ghost use Rattle.toml.specs.Data.{table as table_of};
ghost use Rattle.toml.specs.View.{view, table_view};
ghost use Rattle.plant_file.specs.Documents.{list_in, natural, number_in, number_at, text_in};
ghost use Rattle.plant_file.specs.Documents.{truth_in};
ghost use Rattle.plant_file.specs.Described.{held, list_at, natural_at, text_at, texts_at};
ghost use Rattle.plant_file.specs.Described.{truth_at};

use crate::fault::Key;
use toml::{Table, Value};

/// What a key of a table holds.
pub fn value_at<'a>(table: &'a Table, key: &str) -> Option<&'a Value>
    ensures { option_map (λ value. view value.now) result
        ≡ get_member key.now (table_view table.now) }
{
    table.get(key)
}

/// The elements of a list. None where the value is no list.
pub fn list(value: &Value) -> &[Value]
    ensures { list_in (view value.now) ≡ map view result.now }
{
    match value.as_array() {
        Some(values) => values.as_slice(),
        None => &[],
    }
}

/// The whole number that the value is. 0 where it is none.
pub fn number(value: &Value) -> i64
    ensures { result ≡ number_in (view value.now) }
{
    value.as_integer().unwrap_or(0)
}

/// The text that the value is. An empty one where it is none.
pub fn text(value: &Value) -> &str
    ensures { result.now ≡ text_in (view value.now) }
{
    value.as_str().unwrap_or("")
}

/// The truth value that the value is. False where it is none.
pub fn truth(value: &Value) -> bool
    ensures { result ≡ truth_in (view value.now) }
{
    value.as_bool().unwrap_or(false)
}

/// The whole number at a place of a list. 0 where there is none.
pub fn number_at(value: &Value, place: usize) -> i64
    ensures { result ≡ number_at place (view value.now) }
{
    match list(value).get(place) {
        Some(element) => number(element),
        None => 0,
    }
}

/// What a key of a value holds. None where the value is no table that has the key.
pub fn held(value: &Value, key: Key) -> Option<&Value>
    ensures { option_map (λ held. view held.now) result ≡ held key (view value.now) }
{
    match value.as_table() {
        Some(table) => value_at(table, key.text()),
        None => None,
    }
}

/// The text that a key of a value holds. An empty one where there is none.
pub fn text_at(value: &Value, key: Key) -> &str
    ensures { result.now ≡ text_at key (view value.now) }
{
    match held(value, key) {
        Some(held) => text(held),
        None => "",
    }
}

/// The elements of the list that a key of a value holds. None where there is none.
pub fn list_at(value: &Value, key: Key) -> &[Value]
    ensures { map view result.now ≡ list_at key (view value.now) }
{
    match held(value, key) {
        Some(held) => list(held),
        None => &[],
    }
}

/// The number that the value is. 0 where it is none, or one below 0.
pub fn natural(value: &Value) -> u64
    ensures { result ≡ natural (number_in (view value.now)) }
{
    number(value).max(0) as u64
}

/// The number that a key of a value holds. 0 where there is none, or one below 0.
pub fn natural_at(value: &Value, key: Key) -> u64
    ensures { result ≡ natural_at key (view value.now) }
{
    match held(value, key) {
        Some(held) => natural(held),
        None => 0,
    }
}

/// The number that a key of a value holds, which fits.
pub fn small_at(value: &Value, key: Key) -> u32
    requires { natural_at key (view value.now) < 2 ^ 32 }
    ensures { result ≡ natural_at key (view value.now) }
{
    natural_at(value, key) as u32
}

/// The truth value that a key of a value holds. False where there is none.
pub fn truth_at(value: &Value, key: Key) -> bool
    ensures { result ≡ truth_at key (view value.now) }
{
    match held(value, key) {
        Some(held) => truth(held),
        None => false,
    }
}

/// The text that a key of the document holds. An empty one where there is none.
pub fn text_in(document: &Table, key: Key) -> &str
    ensures { result.now ≡ text_at key (table_of (table_view document.now)) }
{
    match value_at(document, key.text()) {
        Some(value) => text(value),
        None => "",
    }
}

/// The elements of the list that a key of the document holds. None where there is none.
pub fn list_in(document: &Table, key: Key) -> &[Value]
    ensures { map view result.now ≡ list_at key (table_of (table_view document.now)) }
{
    match value_at(document, key.text()) {
        Some(value) => list(value),
        None => &[],
    }
}

/// The number at a place of a list. 0 where there is none, or one below 0.
pub fn natural_number_at(value: &Value, place: usize) -> u64
    ensures { result ≡ natural (number_at place (view value.now)) }
{
    number_at(value, place).max(0) as u64
}

/// The text at a place of the list that a key of a value holds. None where there is none.
pub fn text_at_place(value: &Value, key: Key, place: usize) -> Option<&str>
    ensures { option_map (λ text. text.now) result
        ≡ slice_get (texts_at key (view value.now)) place }
{
    match list_at(value, key).get(place) {
        Some(element) => Some(text(element)),
        None => None,
    }
}
