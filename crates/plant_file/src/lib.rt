//! The plant file: a TOML text that describes a plant, and the plant that it describes.
#![tactic(auto)]

mod building;
mod document;
mod fault;
mod judging;
mod key;
mod kind;
mod names;
mod parts;
mod reading;
mod rings;
mod thruster;
mod unknown;

pub use fault::{Key, MOST_KEY_BYTES, Part, Path, PlantFault, axis_text};
pub use reading::{read_document, read_plant};
