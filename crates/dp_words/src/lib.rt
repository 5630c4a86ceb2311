//! The words of the command line, the statuses that the program ends with, and the plant that a word names.
#![tactic(auto)]

mod form;
mod line;
mod plant_source;
mod run_form;
mod sorting;
mod status;
mod writing;

pub use form::{Form, WordsFault, file_words, form_of};
pub use plant_source::plant_from;
pub use status::{RunStatus, tell};
pub use writing::send_lines;
