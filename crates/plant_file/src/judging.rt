//! The faults of a document, found in the order in which they are judged.
ghost use Rattle.std.specs.Prelude.{◌≡◌, ◌<◌, ◌^◌, map, length, option_map};
ghost use Rattle.std.specs.List.{flat_map, list_all, enumerate_from};
ghost use Rattle.toml.specs.View.{view, table_view};
ghost use Rattle.plant_file.specs.Documents.{is_table};
ghost use Rattle.plant_file.specs.Keys.{arrays, axes};
ghost use Rattle.plant_file.specs.Faults.{array_faults, axis_faults, controller_faults};
ghost use Rattle.plant_file.specs.Faults.{elements_at, faults_of_elements, faults_of_keys};
ghost use Rattle.plant_file.specs.Faults.{format_of, in_element, judged, part_faults, path_to};
ghost use Rattle.plant_file.specs.Faults.{row_faults, table_faults, table_faults_at, value_faults};

use crate::document::{list, number, value_at};
use crate::fault::{Key, Part, Path, PlantFault, axis_text};
use crate::key::{ARRAYS, Format, Row, count_of, rows};
use crate::kind::{Count, Kind, has_kind, keeps_limit};
use toml::{Table, Value};

/// The format that the document says. Format 1 where it says none.
pub fn format_of(document: &Table) -> Format
    ensures { result ≡ format_of (table_view document.now) }
{
    match value_at(document, Key::Format.text()) {
        Some(value) if number(value) >= 2 => Format::Two,
        _ => Format::One,
    }
}

/// The place of a whole table.
pub fn whole(part: Part, index: u32) -> Path
    ensures { result ≡ path_to part index Key.Whole }
{
    Path {
        part,
        index,
        key: Key::Whole,
    }
}

fn judge_value(path: Path, kind: Kind, value: &Value) -> Result<(), PlantFault>
    ensures { result ≡ judged (value_faults path kind (view value.now)) }
{
    if !has_kind(kind, value) {
        return Err(PlantFault::WrongKind(path));
    }
    if !keeps_limit(kind, value) {
        return Err(PlantFault::OutOfLimit(path));
    }
    Ok(())
}

fn judge_row(table: &Table, part: Part, index: u32, row: &Row) -> Result<(), PlantFault>
    ensures { result ≡ judged (row_faults part index (table_view table.now) row.now) }
{
    let path = Path {
        part,
        index,
        key: row.key,
    };
    match value_at(table, row.key.text()) {
        Some(value) => judge_value(path, row.kind, value),
        None if row.needed => Err(PlantFault::MissingKey(path)),
        None => Ok(()),
    }
}

/// Judges each key of a table, in the order of the rows.
fn judge_table(table: &Table, part: Part, index: u32, rows: &[Row]) -> Result<(), PlantFault>
    ensures { result ≡ judged (table_faults part index rows.now (table_view table.now)) }
{
    for row in rows {
        judge_row(table, part, index, row)?;
    }
    Ok(())
}

/// Judges one of the controller's three tables.
fn judge_axis(controller: &Table, format: Format, index: u32) -> Result<(), PlantFault>
    ensures { result ≡ judged (axis_faults format (table_view controller.now) index) }
{
    let path = whole(Part::Controller, index);
    let Some(value) = value_at(controller, axis_text(index)) else {
        return Err(PlantFault::MissingKey(path));
    };
    match value.as_table() {
        Some(axis) => judge_table(
            axis,
            Part::Controller,
            index,
            rows(format, Part::Controller),
        ),
        None => Err(PlantFault::WrongKind(path)),
    }
}

fn judge_axes(controller: &Table, format: Format) -> Result<(), PlantFault>
    ensures { result ≡ judged (flat_map (axis_faults format (table_view controller.now)) axes) }
{
    judge_axis(controller, format, 0)?;
    judge_axis(controller, format, 1)?;
    judge_axis(controller, format, 2)
}

fn judge_controller(document: &Table, format: Format) -> Result<(), PlantFault>
    ensures { result ≡ judged (controller_faults format (table_view document.now)) }
{
    let path = whole(Part::Controller, 0);
    let Some(value) = value_at(document, Part::Controller.text()) else {
        return Err(PlantFault::MissingKey(path));
    };
    match value.as_table() {
        Some(controller) => judge_axes(controller, format),
        None => Err(PlantFault::WrongKind(path)),
    }
}

fn are_tables(values: &[Value]) -> bool
    ensures { result ≡ list_all is_table (map view values.now) }
{
    values.iter().all(|value| value.is_table())
}

/// Judges an array of tables itself, and not its elements.
fn judge_array(part: Part, count: Count, value: Option<&Value>) -> Result<(), PlantFault>
    ensures { result
        ≡ judged (array_faults part count (option_map (λ value. view value.now) value.entry)) }
{
    let Some(value) = value else {
        return if count.fewest >= 1 {
            Err(PlantFault::MissingKey(whole(part, 0)))
        } else {
            Ok(())
        };
    };
    let elements = list(value);
    if !value.is_array() || !are_tables(elements) {
        Err(PlantFault::WrongKind(whole(part, 0)))
    } else if elements.len() < count.fewest as usize {
        Err(PlantFault::OutOfLimit(whole(part, 0)))
    } else if elements.len() > count.most as usize {
        Err(PlantFault::OutOfLimit(whole(part, count.most)))
    } else {
        Ok(())
    }
}

fn judge_element(element: &Value, part: Part, index: u32, rows: &[Row]) -> Result<(), PlantFault>
    ensures { result ≡ judged (in_element (table_faults part index rows.now) (view element.now)) }
{
    match element.as_table() {
        Some(table) => judge_table(table, part, index, rows),
        None => Ok(()),
    }
}

/// Judges each key of each of the tables, which are the part's.
fn judge_elements(elements: &[Value], part: Part, rows: &[Row]) -> Result<(), PlantFault>
    requires { length elements.now < 2 ^ 32 }
    ensures { result
        ≡ judged (faults_of_elements (table_faults_at part rows.now)
        (enumerate_from 0 (map view elements.now))) }
{
    for (index, element) in elements.iter().enumerate() {
        judge_element(element, part, index as u32, rows)?;
    }
    Ok(())
}

/// The elements of an array of tables. None where it is missing, and for a part that is no array of
/// tables.
pub fn elements(document: &Table, part: Part) -> &[Value]
    ensures { elements_at part (table_view document.now) ≡ map view result.now }
{
    if part == Part::Top || part == Part::Controller {
        return &[];
    }
    match value_at(document, part.text()) {
        Some(value) => list(value),
        None => &[],
    }
}

fn judge_part(document: &Table, format: Format, part: Part) -> Result<(), PlantFault>
    ensures { result ≡ judged (part_faults format (table_view document.now) part) }
{
    judge_array(
        part,
        count_of(format, part),
        value_at(document, part.text()),
    )?;
    judge_elements(elements(document, part), part, rows(format, part))
}

fn judge_parts(document: &Table, format: Format) -> Result<(), PlantFault>
    ensures { result ≡ judged (flat_map (part_faults format (table_view document.now)) arrays) }
{
    for part in ARRAYS {
        judge_part(document, format, part)?;
    }
    Ok(())
}

/// Judges each key of the document: whether it is there, the kind of what it holds, and its limits.
pub fn judge_keys(document: &Table, format: Format) -> Result<(), PlantFault>
    ensures { result ≡ judged (faults_of_keys format (table_view document.now)) }
{
    judge_table(document, Part::Top, 0, rows(format, Part::Top))?;
    judge_controller(document, format)?;
    judge_parts(document, format)
}
