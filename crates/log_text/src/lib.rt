//! The texts of a history, which are its log, its report and the frames of its commands, and those of a check.
#![tactic(auto)]

mod check;
mod command;
mod entry;
mod findings;
mod fits;
mod law;
mod outcome;
mod report;
mod values;

pub use check::check_text;
pub use command::command_text;
pub use entry::{entry_text, log_head};
pub use findings::Findings;
pub use fits::histories_are_held;
pub use law::{logs_tell_histories, texts_tell_histories};
pub use outcome::outcome_text;
pub use report::report_text;
pub use values::check_json;
