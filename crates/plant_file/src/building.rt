//! The plant that a document without faults describes.
ghost use Rattle.std.specs.Prelude.{◌≡◌, ◌<◌, ◌≤◌, ◌++◌, map, length, Ok, IsTrue};
ghost use Rattle.std.specs.List.{flat_map, list_all};
ghost use Rattle.toml.specs.View.{view, table_view};
ghost use Rattle.plant_model.specs.Plants.{choices_of};
ghost use Rattle.plant_model.specs.declared.limits.TheConstants.{MOST_PIECES};
ghost use Rattle.plant_file.specs.declared.fault.Key.TheVariants as key;
ghost use Rattle.plant_file.specs.declared.fault.Part.TheVariants as part;
ghost use Rattle.plant_file.specs.Described.{filled, mask_of, naturals_at, opening_in, parts_in};
ghost use Rattle.plant_file.specs.Described.{thruster_in};
ghost use Rattle.plant_file.specs.Faults.{elements_at, judged};
ghost use Rattle.plant_file.specs.PlantText.{are_barred, other_faults_of, placed, thruster_faults};
ghost use Rattle.plant_file.specs.RightKeys.{HasRightKeys};

use crate::document::text_at;
use crate::fault::{Key, Part};
use crate::judging::elements;
use crate::parts::{
    band, flags, gains, generators, groups, name, plant_name, section_of, sections, ties, wind,
};
use crate::thruster::{mask, thruster};
use arrayvec::ArrayVec;
use plant_model::limits::MOST_THRUSTERS;
use plant_model::parts::Thruster;
use plant_model::plant::{Parts, Plant};
use plant_model::status::Status;
use toml::{Table, Value};

/// The thrusters, whose rings, sectors and barred pieces have no faults.
pub fn thrusters(document: &Table) -> ArrayVec<Thruster, MOST_THRUSTERS>
    requires keys { HasRightKeys (table_view document.now) }
    requires right { judged (flat_map thruster_faults
        (placed part.Thruster (table_view document.now))) ≡ Ok tt }
    ensures { result.items
        ≡ map (thruster_in (table_view document.now))
        (elements_at part.Thruster (table_view document.now)) }
{
    let mut thrusters = ArrayVec::new();
    for element in elements(document, Part::Thruster) {
        let name = name(text_at(element, Key::Name));
        thrusters.push(thruster(element, name, section_of(document, element)));
    }
    thrusters
}

/// How many choices of one piece for each thruster there are.
pub fn choices(thrusters: &[Thruster]) -> u64
    requires { length thrusters.now ≤ MOST_THRUSTERS }
    ensures { result ≡ choices_of thrusters.now }
{
    let mut choices = 1;
    for thruster in thrusters {
        choices *= thruster.pieces.list.len() as u64;
    }
    choices
}

/// The masks of the thrusters' barred pieces. 0 past the thrusters.
fn masks(elements: &[Value]) -> [u16; MOST_THRUSTERS]
    requires few { length elements.now ≤ MOST_THRUSTERS }
    requires barred { IsTrue (list_all (λ d. are_barred MOST_PIECES (naturals_at key.Barred d))
        (map view elements.now)) }
    ensures { result
        ≡ filled MOST_THRUSTERS 0
        (map (λ d. mask_of (naturals_at key.Barred d)) (map view elements.now)) }
{
    let mut masks = [0; MOST_THRUSTERS];
    for (place, element) in elements.iter().enumerate() {
        masks[place] = mask(element);
    }
    masks
}

/// How the parts stand when a session opens.
fn opening(document: &Table) -> Status
    requires keys { HasRightKeys (table_view document.now) }
    requires right { judged (flat_map thruster_faults
        (placed part.Thruster (table_view document.now))) ≡ Ok tt }
    ensures { result ≡ opening_in (table_view document.now) }
{
    let thrusters = elements(document, Part::Thruster);
    Status {
        selected: flags(thrusters, Key::Selected),
        running: flags(elements(document, Part::Generator), Key::Running),
        closed: flags(elements(document, Part::Tie), Key::Closed),
        barred: masks(thrusters),
    }
}

/// The plant of these thrusters, of a document that has no faults.
pub fn plant(document: &Table, thrusters: ArrayVec<Thruster, MOST_THRUSTERS>) -> Plant
    requires keys { HasRightKeys (table_view document.now) }
    requires right { judged (other_faults_of (table_view document.now)) ≡ Ok tt }
    requires thrusters { thrusters.items
        ≡ map (thruster_in (table_view document.now))
        (elements_at part.Thruster (table_view document.now)) }
    ensures { result ≡ parts_in (table_view document.now) }
{
    Plant::of(Parts {
        name: plant_name(document),
        band: band(document),
        gains: gains(document),
        wind: wind(document),
        sections: sections(document),
        ties: ties(document),
        generators: generators(document),
        thrusters,
        groups: groups(document),
        opening: opening(document),
    })
}
