//! What no call changes.

use glance::Identity;
use plant_model::plant::Parts;

/// The plant, the limit of telegrams and notes, and which displays show the board. No value of it
/// is made.
pub struct BookBase {
    pub plant: Parts,
    pub limit: u32,
    pub glance: Identity,
}
