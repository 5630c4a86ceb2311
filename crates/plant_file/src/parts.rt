//! The parts of the plant that a document without faults describes.
ghost use Rattle.std.specs.Prelude.{◌≡◌, ◌<◌, ◌≤◌, ◌^◌, map, option_map, unwrap_or, length, false};
ghost use Rattle.std.specs.Prelude.{IsTrue};
ghost use Rattle.toml.specs.Data.{table as table_of, no_members};
ghost use Rattle.toml.specs.View.{view, table_view};
ghost use Rattle.plant_model.specs.Names.{is_name};
ghost use Rattle.plant_model.specs.Plants.{is_wind_row};
ghost use Rattle.plant_file.specs.declared.fault.Key.TheVariants as key;
ghost use Rattle.plant_file.specs.declared.fault.Part.TheVariants as part;
ghost use Rattle.plant_file.specs.Described.{axis_in, end_at, filled, gains_in, generator_in};
ghost use Rattle.plant_file.specs.Described.{group_in, list_at, member_named, names_of};
ghost use Rattle.plant_file.specs.Described.{naturals_at, number_of, section_of, text_at, texts_at};
ghost use Rattle.plant_file.specs.Described.{tie_in, truth_at};
ghost use Rattle.plant_file.specs.Faults.{elements_at, HasShortArrays};
ghost use Rattle.plant_file.specs.Keys.{axes, axis_rows, generator_rows, group_rows, tie_rows};
ghost use Rattle.std.specs.List.{list_all};
ghost use Rattle.plant_file.specs.Documents.{is_small, natural, number_in};
ghost use Rattle.plant_file.specs.Kinds.{wind_row_in};
ghost use Rattle.plant_file.specs.RightKeys.{has_right_keys, HasRightKeys};

use crate::document::{
    list_at, list_in, natural, natural_at, number_at, small_at, text, text_at, text_at_place,
    text_in, truth_at, value_at,
};
use crate::fault::{Key, Part, axis_text};
use crate::judging::elements;
use arrayvec::ArrayVec;
use plant_model::controller::{Gains, WindRow};
use plant_model::limits::{
    AXES, MOST_GENERATORS, MOST_GROUPS, MOST_MEMBERS, MOST_SECTIONS, MOST_TIES, WIND_ROWS,
};
use plant_model::name::Name;
use plant_model::parts::{Generator, Group, Member, Tie};
use toml::{Table, Value};

/// The name that the text is.
pub fn name(text: &str) -> Name
    requires { IsTrue (is_name text.now) }
    ensures { result ≡ text.now }
{
    Name::of(text.as_bytes()).unwrap()
}

/// The place of the first of the elements that has the name. Where none has it, how many there are.
fn number_of(sought: &str, elements: &[Value]) -> usize
    ensures place { result ≡ number_of sought.now (map (text_at key.Name) (map view elements.now)) }
    ensures within { result ≤ length elements.now }
{
    elements
        .iter()
        .position(|element| sought == text_at(element, Key::Name))
        .unwrap_or(elements.len())
}

/// The place of the section that has the name. Where none has it, how many there are.
fn place_of_section(document: &Table, name: &str) -> u32
    requires { HasShortArrays (table_view document.now) }
    ensures { result ≡ number_of name.now (names_of part.Section (table_view document.now)) }
{
    number_of(name, elements(document, Part::Section)) as u32
}

/// The place of the section that feeds an element.
pub fn section_of(document: &Table, element: &Value) -> u32
    requires { HasShortArrays (table_view document.now) }
    ensures { result ≡ section_of (table_view document.now) (view element.now) }
{
    place_of_section(document, text_at(element, Key::Section))
}

/// The place of the section at one of a tie's ends.
fn end_at(document: &Table, element: &Value, place: usize) -> u32
    requires { HasShortArrays (table_view document.now) }
    ensures { result ≡ end_at place (table_view document.now) (view element.now) }
{
    match text_at_place(element, Key::Ends, place) {
        Some(end) => place_of_section(document, end),
        None => 0,
    }
}

fn tie(document: &Table, element: &Value) -> Tie
    requires short { HasShortArrays (table_view document.now) }
    requires keys { IsTrue (has_right_keys tie_rows (view element.now)) }
    ensures { result ≡ tie_in (table_view document.now) (view element.now) }
{
    Tie {
        name: name(text_at(element, Key::Name)),
        first: end_at(document, element, 0),
        second: end_at(document, element, 1),
    }
}

fn generator(document: &Table, element: &Value) -> Generator
    requires short { HasShortArrays (table_view document.now) }
    requires keys { IsTrue (has_right_keys generator_rows (view element.now)) }
    ensures { result ≡ generator_in (table_view document.now) (view element.now) }
{
    Generator {
        name: name(text_at(element, Key::Name)),
        section: section_of(document, element),
        power: small_at(element, Key::Power),
    }
}

/// The part that has the name: a section, a tie, a generator, or else a thruster.
fn member_named(document: &Table, name: &str) -> Member
    requires { HasShortArrays (table_view document.now) }
    ensures { result ≡ member_named (table_view document.now) name.now }
{
    let sections = elements(document, Part::Section);
    let section = number_of(name, sections);
    if section < sections.len() {
        return Member::Section(section as u32);
    }
    let ties = elements(document, Part::Tie);
    let tie = number_of(name, ties);
    if tie < ties.len() {
        return Member::Tie(tie as u32);
    }
    let generators = elements(document, Part::Generator);
    let generator = number_of(name, generators);
    if generator < generators.len() {
        return Member::Generator(generator as u32);
    }
    Member::Thruster(number_of(name, elements(document, Part::Thruster)) as u32)
}

fn group(document: &Table, element: &Value) -> Group
    requires short { HasShortArrays (table_view document.now) }
    requires keys { IsTrue (has_right_keys group_rows (view element.now)) }
    ensures { result ≡ group_in (table_view document.now) (view element.now) }
{
    let mut members = ArrayVec::new();
    for value in list_at(element, Key::Members) {
        members.push(member_named(document, text(value)));
    }
    Group {
        name: name(text_at(element, Key::Name)),
        members,
    }
}

/// The names of the sections.
pub fn sections(document: &Table) -> ArrayVec<Name, MOST_SECTIONS>
    requires { HasRightKeys (table_view document.now) }
    ensures { result.items ≡ names_of part.Section (table_view document.now) }
{
    let mut sections = ArrayVec::new();
    for element in elements(document, Part::Section) {
        sections.push(name(text_at(element, Key::Name)));
    }
    sections
}

pub fn ties(document: &Table) -> ArrayVec<Tie, MOST_TIES>
    requires { HasRightKeys (table_view document.now) }
    ensures { result.items
        ≡ map (tie_in (table_view document.now)) (elements_at part.Tie (table_view document.now)) }
{
    let mut ties = ArrayVec::new();
    for element in elements(document, Part::Tie) {
        ties.push(tie(document, element));
    }
    ties
}

pub fn generators(document: &Table) -> ArrayVec<Generator, MOST_GENERATORS>
    requires { HasRightKeys (table_view document.now) }
    ensures { result.items
        ≡ map (generator_in (table_view document.now))
        (elements_at part.Generator (table_view document.now)) }
{
    let mut generators = ArrayVec::new();
    for element in elements(document, Part::Generator) {
        generators.push(generator(document, element));
    }
    generators
}

/// The redundancy groups.
pub fn groups(document: &Table) -> ArrayVec<Group, MOST_GROUPS>
    requires { HasRightKeys (table_view document.now) }
    ensures { result.items
        ≡ map (group_in (table_view document.now))
        (elements_at part.Group (table_view document.now)) }
{
    let mut groups = ArrayVec::new();
    for element in elements(document, Part::Group) {
        groups.push(group(document, element));
    }
    groups
}

/// A truth value of each element of a part. False past the elements.
pub fn flags<const N: usize>(elements: &[Value], key: Key) -> [bool; N]
    requires { length elements.now ≤ N }
    ensures { result ≡ filled N false (map (truth_at key) (map view elements.now)) }
{
    let mut flags = [false; N];
    for (place, element) in elements.iter().enumerate() {
        flags[place] = truth_at(element, key);
    }
    flags
}

/// The numbers that the values are, as many as the array has.
pub fn numbers<const N: usize>(values: &[Value]) -> [u32; N]
    requires count { length values.now ≡ N }
    requires small { IsTrue (list_all is_small (map view values.now)) }
    ensures { result ≡ map (λ d. natural (number_in d)) (map view values.now) }
{
    let mut numbers = [0; N];
    for (place, value) in values.iter().enumerate() {
        numbers[place] = natural(value) as u32;
    }
    numbers
}

fn gains_in(axis: &Value) -> Gains
    requires { IsTrue (has_right_keys axis_rows (view axis.now)) }
    ensures { result ≡ gains_in (view axis.now) }
{
    Gains {
        kp: small_at(axis, Key::Kp),
        ki: small_at(axis, Key::Ki),
        kd: small_at(axis, Key::Kd),
        limit: natural_at(axis, Key::Limit),
    }
}

/// One of the controller's three tables.
fn axis(document: &Table, index: u32) -> Option<&Value>
    ensures { unwrap_or (option_map (λ axis. view axis.now) result) (table_of no_members)
        ≡ axis_in (table_view document.now) index }
{
    match value_at(document, Part::Controller.text()) {
        Some(controller) => match controller.as_table() {
            Some(axes) => value_at(axes, axis_text(index)),
            None => None,
        },
        None => None,
    }
}

/// The gains of surge, sway or yaw.
fn gains_of(document: &Table, index: u32) -> Gains
    requires { IsTrue (has_right_keys axis_rows (axis_in (table_view document.now) index)) }
    ensures { result ≡ gains_in (axis_in (table_view document.now) index) }
{
    match axis(document, index) {
        Some(axis) => gains_in(axis),
        None => Gains::default(),
    }
}

/// The gains of surge, sway and yaw.
pub fn gains(document: &Table) -> [Gains; AXES]
    requires { HasRightKeys (table_view document.now) }
    ensures { result ≡ map (λ index. gains_in (axis_in (table_view document.now) index)) axes }
{
    [
        gains_of(document, 0),
        gains_of(document, 1),
        gains_of(document, 2),
    ]
}

/// The name of the plant.
pub fn plant_name(document: &Table) -> Name
    requires { HasRightKeys (table_view document.now) }
    ensures { result ≡ text_at key.Name (table_of (table_view document.now)) }
{
    name(text_in(document, Key::Name))
}

/// How far a demand may move along each axis.
pub fn band(document: &Table) -> [u32; AXES]
    requires { HasRightKeys (table_view document.now) }
    ensures { result ≡ naturals_at key.Band (table_of (table_view document.now)) }
{
    numbers(list_in(document, Key::Band))
}

fn wind_row(value: &Value) -> WindRow
    requires { IsTrue (is_wind_row (wind_row_in (view value.now))) }
    ensures { result ≡ wind_row_in (view value.now) }
{
    WindRow {
        x: number_at(value, 0) as i32,
        y: number_at(value, 1) as i32,
        n: number_at(value, 2) as i32,
    }
}

/// The wind table.
pub fn wind(document: &Table) -> [WindRow; WIND_ROWS]
    requires { HasRightKeys (table_view document.now) }
    ensures { result ≡ map wind_row_in (list_at key.Wind (table_of (table_view document.now))) }
{
    let mut wind = [WindRow::default(); WIND_ROWS];
    for (place, value) in list_in(document, Key::Wind).iter().enumerate() {
        wind[place] = wind_row(value);
    }
    wind
}
