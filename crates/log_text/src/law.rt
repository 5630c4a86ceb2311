//! What a log tells of its history.
ghost use Rattle.std.specs.Prelude.{All, IsTrue};
ghost use Rattle.plant_model.specs.Names.{is_name};
ghost use Rattle.log_text.specs.Laws.{LogsTellHistories, TextsTellHistories};

use plant_model::plant::Plant;

/// Each redundancy group has a name that is one.
fn groups_are_named(plant: &Plant)
    ensures { All (λ group. IsTrue (is_name group.name)) plant.now.groups.items }
{
    for group in plant.groups().as_slice() {
        let _name = group.name.bytes();
    }
}

/// A log tells its history: two legal histories of the plant whose logs are the same, byte for byte, are the same, with
/// the same callers, calls and replies in the same order. This holds of all histories that a program can hold, as
/// [`crate::histories_are_held`] says of each that one does.
pub fn logs_tell_histories(plant: &Plant)
    ensures { LogsTellHistories plant.now }
{
    // What a plant keeps true of its groups: their names are names, and no two have one.
    groups_are_named(plant);
    let _parts = plant.parts();
}

/// Each thruster has a name that is one.
fn thrusters_are_named(plant: &Plant)
    ensures { All (λ thruster. IsTrue (is_name thruster.name)) plant.now.thrusters.items }
{
    for thruster in plant.thrusters().as_slice() {
        let _name = thruster.name.bytes();
    }
}

/// What is written of a history tells it: two legal histories of the plant are the same where the frames of their
/// commands, their logs and their reports, one after another, are the same, byte for byte.
pub fn texts_tell_histories(plant: &Plant)
    ensures { TextsTellHistories plant.now }
{
    groups_are_named(plant);
    thrusters_are_named(plant);
    let _parts = plant.parts();
}
