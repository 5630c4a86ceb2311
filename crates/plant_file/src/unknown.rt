//! Keys that a table of the file can't have.
ghost use Rattle.std.specs.Prelude.{◌≡◌, ◌<◌, ◌^◌, map, length};
ghost use Rattle.std.specs.List.{flat_map, list_any, enumerate_from};
ghost use Rattle.std.specs.Str.{bytes_eq};
ghost use Rattle.toml.specs.Data.{get_member};
ghost use Rattle.toml.specs.View.{view, table_view};
ghost use Rattle.plant_file.specs.Texts.{part_text};
ghost use Rattle.plant_file.specs.Keys.{arrays, axis_keys, row_keys, top_keys};
ghost use Rattle.plant_file.specs.Faults.{elements_at, faults_of_elements, faults_of_unknown_keys};
ghost use Rattle.plant_file.specs.Faults.{in_element, has_known, judged, unknown_unless};
ghost use Rattle.plant_file.specs.Faults.{unknown_faults, unknown_faults_at, unknown_below};
ghost use Rattle.plant_file.specs.Faults.{unknown_in_axis, unknown_in_controller, unknown_in_part};
ghost use Rattle.plant_file.specs.Faults.{HasShortArrays};

use crate::document::value_at;
use crate::fault::{Part, PlantFault, axis_text};
use crate::judging::{elements, whole};
use crate::key::{ARRAYS, Format, Row, rows};
use toml::{Table, Value};

/// Whether the key is that of a row.
fn has_row(rows: &[Row], key: &str) -> bool
    ensures { result ≡ list_any (bytes_eq key.now) (row_keys rows.now) }
{
    rows.iter().any(|row| key == row.key.text())
}

/// Whether the key is that of an array of tables.
fn is_array(key: &str) -> bool
    ensures { result ≡ list_any (bytes_eq key.now) (map part_text arrays) }
{
    key == Part::Section.text()
        || key == Part::Tie.text()
        || key == Part::Generator.text()
        || key == Part::Thruster.text()
        || key == Part::Group.text()
}

/// Whether the document may have the key.
fn is_top_key(key: &str) -> bool
    ensures { result ≡ list_any (bytes_eq key.now) top_keys }
{
    has_row(rows(Format::One, Part::Top), key) || key == Part::Controller.text() || is_array(key)
}

/// Whether the table `controller` may have the key.
fn is_axis(key: &str) -> bool
    ensures { result ≡ list_any (bytes_eq key.now) axis_keys }
{
    key == axis_text(0) || key == axis_text(1) || key == axis_text(2)
}

/// Whether the document has no other keys than it may have.
fn has_top_keys(document: &Table) -> bool
    ensures { result ≡ has_known top_keys (table_view document.now) }
{
    document.keys().all(|key| is_top_key(key.as_str()))
}

/// Whether the table `controller` has no other keys than it may have.
fn has_axes(controller: &Table) -> bool
    ensures { result ≡ has_known axis_keys (table_view controller.now) }
{
    controller.keys().all(|key| is_axis(key.as_str()))
}

/// Whether the table has no other keys than those of the rows.
fn has_rows(table: &Table, rows: &[Row]) -> bool
    ensures { result ≡ has_known (row_keys rows.now) (table_view table.now) }
{
    table.keys().all(|key| has_row(rows, key.as_str()))
}

/// The fault of a table with other keys than it may have.
fn judge_table_keys(has_known: bool, part: Part, index: u32) -> Result<(), PlantFault>
    ensures { result ≡ judged (unknown_unless has_known part index) }
{
    if has_known {
        Ok(())
    } else {
        Err(PlantFault::UnknownKey(whole(part, index)))
    }
}

fn judge_element_keys(
    element: &Value,
    part: Part,
    index: u32,
    rows: &[Row],
) -> Result<(), PlantFault>
    ensures { result
        ≡ judged (in_element (unknown_faults part index (row_keys rows.now)) (view element.now)) }
{
    match element.as_table() {
        Some(table) => judge_table_keys(has_rows(table, rows), part, index),
        None => Ok(()),
    }
}

/// Judges the keys of one of the controller's three tables.
fn judge_keys_of_axis(controller: &Table, format: Format, index: u32) -> Result<(), PlantFault>
    ensures { result ≡ judged (unknown_in_axis format (table_view controller.now) index) }
{
    match value_at(controller, axis_text(index)) {
        Some(axis) => judge_element_keys(
            axis,
            Part::Controller,
            index,
            rows(format, Part::Controller),
        ),
        None => Ok(()),
    }
}

fn judge_keys_of_axes(controller: &Table, format: Format) -> Result<(), PlantFault>
    ensures { result ≡ judged (unknown_in_controller format (table_view controller.now)) }
{
    judge_table_keys(has_axes(controller), Part::Controller, 0)?;
    judge_keys_of_axis(controller, format, 0)?;
    judge_keys_of_axis(controller, format, 1)?;
    judge_keys_of_axis(controller, format, 2)
}

fn judge_keys_of_controller(document: &Table, format: Format) -> Result<(), PlantFault>
    ensures { result
        ≡ judged (unknown_below (unknown_in_controller format)
        (get_member (part_text Part.Controller) (table_view document.now))) }
{
    let Some(value) = value_at(document, Part::Controller.text()) else {
        return Ok(());
    };
    match value.as_table() {
        Some(controller) => judge_keys_of_axes(controller, format),
        None => Ok(()),
    }
}

/// Judges the keys of each of the tables, which are the part's.
fn judge_keys_of_elements(elements: &[Value], part: Part, rows: &[Row]) -> Result<(), PlantFault>
    requires { length elements.now < 2 ^ 32 }
    ensures { result
        ≡ judged (faults_of_elements (unknown_faults_at part rows.now)
        (enumerate_from 0 (map view elements.now))) }
{
    for (index, element) in elements.iter().enumerate() {
        judge_element_keys(element, part, index as u32, rows)?;
    }
    Ok(())
}

/// Judges the keys of the tables of a part that is an array of tables.
fn judge_keys_of_part(document: &Table, format: Format, part: Part) -> Result<(), PlantFault>
    requires { HasShortArrays (table_view document.now) }
    ensures { result ≡ judged (unknown_in_part format (table_view document.now) part) }
{
    judge_keys_of_elements(elements(document, part), part, rows(format, part))
}

fn judge_keys_of_parts(document: &Table, format: Format) -> Result<(), PlantFault>
    requires { HasShortArrays (table_view document.now) }
    ensures { result ≡ judged (flat_map (unknown_in_part format (table_view document.now)) arrays) }
{
    for part in ARRAYS {
        judge_keys_of_part(document, format, part)?;
    }
    Ok(())
}

/// Judges which keys each table of the document has.
pub fn judge_known_keys(document: &Table, format: Format) -> Result<(), PlantFault>
    requires { HasShortArrays (table_view document.now) }
    ensures { result ≡ judged (faults_of_unknown_keys format (table_view document.now)) }
{
    judge_table_keys(has_top_keys(document), Part::Top, 0)?;
    judge_keys_of_controller(document, format)?;
    judge_keys_of_parts(document, format)
}
