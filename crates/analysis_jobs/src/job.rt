//! What a worker is to do.

use plant_model::status::Version;

/// What a worker takes from the queue.
#[derive(Clone, Copy, Debug, PartialEq, Eq)]
pub enum Job {
    /// A verdict of the version on the loss of a group, by its place.
    Analyse { version: Version, group: u32 },
    /// No job is left for the worker that takes it.
    Stop,
}
