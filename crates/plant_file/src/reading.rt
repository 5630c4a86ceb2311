//! The document of a plant file.
ghost use Rattle.std.specs.Prelude.{◌≡◌, length};
ghost use Rattle.toml.specs.View.{table_view};
ghost use Rattle.plant_file.specs.Answers.{IsAnswer};
ghost use Rattle.plant_file.specs.PlantText.{document_of, plant_of, right_document};
ghost use Rattle.plant_file.specs.RightKeys.{judged_document};

use crate::building::{choices, plant, thrusters};
use crate::fault::PlantFault;
use crate::judging::{format_of, judge_keys};
use crate::names::{judge_names, judge_references};
use crate::thruster::judge_thrusters;
use crate::unknown::judge_known_keys;
use plant_model::limits::{MOST_CHOICES, MOST_PLANT_BYTES};
use plant_model::plant::Plant;
use std::alloc::Global;
use toml::Table;

/// The document that the bytes are: `TooLong`, `NotToml`, or `NoMemory`.
fn parse(alloc: Global, bytes: &[u8]) -> Result<Table, PlantFault>
    ensures { IsAnswer table_view result (document_of bytes.now) }
{
    if bytes.len() > MOST_PLANT_BYTES {
        return Err(PlantFault::TooLong);
    }
    match toml::table_from_slice(alloc, bytes) {
        Ok(document) => Ok(document),
        Err(error) => Err(if error.is_memory() {
            PlantFault::NoMemory
        } else {
            PlantFault::NotToml
        }),
    }
}

/// The document of a plant file, with each key judged: each that must be there is there, each holds
/// its kind within its limits, and there is no other key. Names, rings, sectors and choices are not
/// judged.
///
/// A file has at most [`plant_model::limits::MOST_PLANT_BYTES`] bytes. The fault is the first in
/// this order: `TooLong`; `NotToml`; for each key in the order of the table of keys `MissingKey`,
/// `WrongKind` or `OutOfLimit`; `UnknownKey`, table by table. `NoMemory` says nothing of the bytes.
pub fn read_document(alloc: Global, bytes: &[u8]) -> Result<Table, PlantFault>
    ensures { IsAnswer table_view result (right_document bytes.now) }
{
    let document = parse(alloc, bytes)?;
    let format = format_of(&document);
    judge_keys(&document, format)?;
    judge_known_keys(&document, format)?;
    Ok(document)
}

/// The document of a plant file, with all judged but the number of choices: its keys, its names,
/// and the rings, the sectors and the barred pieces of its thrusters.
pub(crate) fn judged_document(alloc: Global, bytes: &[u8]) -> Result<Table, PlantFault>
    ensures { IsAnswer table_view result (judged_document bytes.now) }
{
    let document = read_document(alloc, bytes)?;
    judge_names(&document)?;
    judge_references(&document)?;
    judge_thrusters(&document)?;
    Ok(document)
}

/// The plant that the bytes of a plant file describe.
///
/// A file has at most [`plant_model::limits::MOST_PLANT_BYTES`] bytes. The fault is the first in
/// this order: those of [`read_document`]; `NameTwice`, for the parts, the groups, the ends of ties
/// and the members of groups; `UnknownName`; thruster by thruster `RingNotConvex`, `SectorBad` and
/// `PieceBad`; `TooManyChoices`. `NoMemory` says nothing of the bytes.
pub fn read_plant(alloc: Global, bytes: &[u8]) -> Result<Plant, PlantFault>
    ensures { IsAnswer (λ plant. plant) result (plant_of bytes.now) }
{
    let document = judged_document(alloc, bytes)?;
    let thrusters = thrusters(&document);
    if choices(&thrusters) > MOST_CHOICES as u64 {
        return Err(PlantFault::TooManyChoices);
    }
    Ok(plant(&document, thrusters))
}
