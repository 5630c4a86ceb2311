//! What doesn't depend on the thrusts of commands, and what a verdict leaves open.
ghost use Rattle.log_audit.specs.Twins.{RepliesAreAlike, RightsAreAlike, TwinsStandAlike};
ghost use Rattle.log_audit.specs.Verdicts.{VerdictsAreOne};

use crate::head::has_names;
use log_text::{logs_tell_histories, texts_tell_histories};
use plant_model::plant::Plant;

/// How a plant's machine stands after a history doesn't depend on the denominators and the thrusts of its commands.
pub fn twins_stand_alike()
    ensures { TwinsStandAlike }
{}

/// To a call there is one reply as a machine stands, but for the denominator and the thrusts of a command; and of a
/// demand there is one greatest part, and one first choice in which it can be given.
pub fn replies_are_alike()
    ensures replies { RepliesAreAlike }
    ensures allocations { RightsAreAlike }
{}

/// A text has one verdict, as a log and as all that a session writes.
pub fn verdicts_are_one(plant: &Plant)
    ensures { VerdictsAreOne plant.now }
{
    has_names(plant);
    logs_tell_histories(plant);
    texts_tell_histories(plant);
}
