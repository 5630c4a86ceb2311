//! What a check finds.

use arrayvec::ArrayVec;
use certificate::Outcome;
use plant_core::Allocation;
use plant_model::limits::MOST_GROUPS;

/// What a check of a plant and a demand finds.
#[derive(Debug, Drop)]
pub struct Findings {
    /// Whether the plant meets the demand with nothing lost.
    pub intact: Outcome,
    /// Whether it does after the loss of each redundancy group, in the order of the plant.
    pub groups: ArrayVec<Outcome, MOST_GROUPS>,
    /// How much of the demand is asked of the thrusters, with nothing lost.
    pub allocation: Allocation,
}
