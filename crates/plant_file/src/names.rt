//! The names of a document: none stands twice, and each that a part cites is there.
ghost use Rattle.std.specs.Prelude.{◌≡◌, ◌++◌, map};
ghost use Rattle.std.specs.List.{flat_map, list_any};
ghost use Rattle.std.specs.Str.{bytes_eq};
ghost use Rattle.toml.specs.View.{view, table_view};
ghost use Rattle.plant_model.specs.Plants.{are_distinct};
ghost use Rattle.plant_file.specs.declared.fault.Key.TheVariants.{Name};
ghost use Rattle.plant_file.specs.declared.fault.Part.TheVariants.{Section};
ghost use Rattle.plant_file.specs.Documents.{text_in};
ghost use Rattle.plant_file.specs.Described.{names_of, names_of_parts, text_at};
ghost use Rattle.plant_file.specs.Faults.{judged, HasShortArrays};
ghost use Rattle.plant_file.specs.PlantText.{are_known, faults_of_names, faults_of_references};
ghost use Rattle.plant_file.specs.PlantText.{faults_of_part_names, named, placed, repeated};
ghost use Rattle.plant_file.specs.PlantText.{twice_after, unfed, unknown};

use crate::document::{list_at, text, text_at};
use crate::fault::{Key, Part, Path, PlantFault};
use crate::judging::elements;
use toml::{Table, Value};

/// Whether the text is the name of one of the elements.
fn is_name_of(sought: &str, elements: &[Value]) -> bool
    ensures { result ≡ list_any (bytes_eq sought.now) (map (text_at Name) (map view elements.now)) }
{
    elements
        .iter()
        .any(|element| sought == text_at(element, Key::Name))
}

/// Whether the text is the name of an element of one of the parts.
fn is_name_in(sought: &str, document: &Table, parts: &[Part]) -> bool
    ensures { result
        ≡ list_any (bytes_eq sought.now) (names_of_parts parts.now (table_view document.now)) }
{
    parts
        .iter()
        .any(|part| is_name_of(sought, elements(document, *part)))
}

/// Whether the text is the name of an element of one of the parts, or of one of the elements.
fn stands_earlier(sought: &str, document: &Table, parts: &[Part], elements: &[Value]) -> bool
    ensures { result
        ≡ list_any (bytes_eq sought.now)
        (names_of_parts parts.now (table_view document.now)
        ++ map (text_at Name) (map view elements.now)) }
{
    is_name_in(sought, document, parts) || is_name_of(sought, elements)
}

/// Whether one of the values is the text.
fn is_one_of(sought: &str, values: &[Value]) -> bool
    ensures { result ≡ list_any (bytes_eq sought.now) (map text_in (map view values.now)) }
{
    values.iter().any(|value| sought == text(value))
}

/// Whether no two of the values are one text.
fn are_distinct_texts(values: &[Value]) -> bool
    ensures { result ≡ are_distinct bytes_eq (map text_in (map view values.now)) }
{
    for (index, value) in values.iter().enumerate() {
        if is_one_of(text(value), &values[index + 1..]) {
            return false;
        }
    }
    true
}

/// Whether each of the values is a name of one of the parts.
fn are_known(values: &[Value], document: &Table, parts: &[Part]) -> bool
    ensures { result
        ≡ are_known (names_of_parts parts.now (table_view document.now))
        (map text_in (map view values.now)) }
{
    values
        .iter()
        .all(|value| is_name_in(text(value), document, parts))
}

/// Judges the names of a part's elements, of which none may be one of the earlier parts' or of an
/// earlier element's.
fn judge_names_of(document: &Table, earlier: &[Part], part: Part) -> Result<(), PlantFault>
    requires { HasShortArrays (table_view document.now) }
    ensures { result
        ≡ judged (twice_after (names_of_parts earlier.now (table_view document.now))
        (named part (table_view document.now))) }
{
    let elements = elements(document, part);
    for (index, element) in elements.iter().enumerate() {
        let name = text_at(element, Key::Name);
        if stands_earlier(name, document, earlier, &elements[..index]) {
            return Err(PlantFault::NameTwice(Path {
                part,
                index: index as u32,
                key: Key::Name,
            }));
        }
    }
    Ok(())
}

/// Judges the list of texts at a key of an element: no two may be equal.
fn judge_repeated_in(element: &Value, part: Part, index: u32, key: Key) -> Result<(), PlantFault>
    ensures { result ≡ judged (repeated part key (index, view element.now)) }
{
    if are_distinct_texts(list_at(element, key)) {
        Ok(())
    } else {
        Err(PlantFault::NameTwice(Path { part, index, key }))
    }
}

/// Judges the lists of texts at a key of a part's elements: no two of one may be equal.
fn judge_repeated(document: &Table, part: Part, key: Key) -> Result<(), PlantFault>
    requires { HasShortArrays (table_view document.now) }
    ensures { result
        ≡ judged (flat_map (repeated part key) (placed part (table_view document.now))) }
{
    let elements = elements(document, part);
    for (index, element) in elements.iter().enumerate() {
        judge_repeated_in(element, part, index as u32, key)?;
    }
    Ok(())
}

/// Judges the list of texts at a key of an element: each must be a name of one of the cited parts.
fn judge_unknown_in(
    element: &Value,
    part: Part,
    index: u32,
    key: Key,
    document: &Table,
    cited: &[Part],
) -> Result<(), PlantFault>
    ensures { result
        ≡ judged (unknown (names_of_parts cited.now (table_view document.now)) part key
        (index, view element.now)) }
{
    if are_known(list_at(element, key), document, cited) {
        Ok(())
    } else {
        Err(PlantFault::UnknownName(Path { part, index, key }))
    }
}

/// Judges the lists of texts at a key of a part's elements: each must be a name of one of the cited
/// parts.
fn judge_unknown(document: &Table, part: Part, key: Key, cited: &[Part]) -> Result<(), PlantFault>
    requires { HasShortArrays (table_view document.now) }
    ensures { result
        ≡ judged (flat_map (unknown (names_of_parts cited.now (table_view document.now)) part key)
        (placed part (table_view document.now))) }
{
    let elements = elements(document, part);
    for (index, element) in elements.iter().enumerate() {
        judge_unknown_in(element, part, index as u32, key, document, cited)?;
    }
    Ok(())
}

/// Judges the section that feeds an element.
fn judge_feeder(
    element: &Value,
    part: Part,
    index: u32,
    sections: &[Value],
) -> Result<(), PlantFault>
    ensures { result
        ≡ judged (unfed (map (text_at Name) (map view sections.now)) part
        (index, view element.now)) }
{
    if is_name_of(text_at(element, Key::Section), sections) {
        Ok(())
    } else {
        Err(PlantFault::UnknownName(Path {
            part,
            index,
            key: Key::Section,
        }))
    }
}

/// Judges the sections that feed a part's elements.
fn judge_feeders(document: &Table, part: Part) -> Result<(), PlantFault>
    requires { HasShortArrays (table_view document.now) }
    ensures { result
        ≡ judged (flat_map (unfed (names_of Section (table_view document.now)) part)
        (placed part (table_view document.now))) }
{
    let sections = elements(document, Part::Section);
    let elements = elements(document, part);
    for (index, element) in elements.iter().enumerate() {
        judge_feeder(element, part, index as u32, sections)?;
    }
    Ok(())
}

/// Judges the names of sections, ties, generators and thrusters: no two may be equal.
fn judge_part_names(document: &Table) -> Result<(), PlantFault>
    requires { HasShortArrays (table_view document.now) }
    ensures { result ≡ judged (faults_of_part_names (table_view document.now)) }
{
    judge_names_of(document, &[], Part::Section)?;
    judge_names_of(document, &[Part::Section], Part::Tie)?;
    judge_names_of(document, &[Part::Section, Part::Tie], Part::Generator)?;
    judge_names_of(
        document,
        &[Part::Section, Part::Tie, Part::Generator],
        Part::Thruster,
    )
}

/// Judges that no name stands twice, that a tie's ends differ, and that no group has a member
/// twice.
pub fn judge_names(document: &Table) -> Result<(), PlantFault>
    requires { HasShortArrays (table_view document.now) }
    ensures { result ≡ judged (faults_of_names (table_view document.now)) }
{
    judge_part_names(document)?;
    judge_names_of(document, &[], Part::Group)?;
    judge_repeated(document, Part::Tie, Key::Ends)?;
    judge_repeated(document, Part::Group, Key::Members)
}

/// The parts that a group may have as members.
const MEMBERS: [Part; 4] = [Part::Section, Part::Tie, Part::Generator, Part::Thruster];

/// Judges that each section that is a tie's end or feeds a part is there, and each member of a
/// group.
pub fn judge_references(document: &Table) -> Result<(), PlantFault>
    requires { HasShortArrays (table_view document.now) }
    ensures { result ≡ judged (faults_of_references (table_view document.now)) }
{
    judge_unknown(document, Part::Tie, Key::Ends, &[Part::Section])?;
    judge_feeders(document, Part::Generator)?;
    judge_feeders(document, Part::Thruster)?;
    judge_unknown(document, Part::Group, Key::Members, &MEMBERS)
}
