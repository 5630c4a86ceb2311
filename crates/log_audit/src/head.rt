//! The first line of a log.
ghost use Rattle.std.specs.Prelude.{◌≡◌, ◌↔◌, All, IsTrue};
ghost use Rattle.plant_model.specs.Names.{is_name};
ghost use Rattle.log_audit.specs.Lines.{HasNames, head_line};

use plant_model::plant::Plant;

/// Whether the line is the first of a log of the plant.
pub(crate) fn is_head(plant: &Plant, line: &[u8]) -> bool
    ensures { IsTrue result ↔ (line.now ≡ head_line plant.now) }
{
    match line.strip_prefix(b"LOG,1,") {
        Some(name) => name == plant.name().bytes(),
        None => false,
    }
}

/// Each redundancy group has a name that is one.
fn groups_are_named(plant: &Plant)
    ensures { All (λ group. IsTrue (is_name group.name)) plant.now.groups.items }
{
    for group in plant.groups().as_slice() {
        let _name = group.name.bytes();
    }
}

/// Each thruster has a name that is one.
fn thrusters_are_named(plant: &Plant)
    ensures { All (λ thruster. IsTrue (is_name thruster.name)) plant.now.thrusters.items }
{
    for thruster in plant.thrusters().as_slice() {
        let _name = thruster.name.bytes();
    }
}

/// The plant, its thrusters and its groups have names that are ones, and no two groups share one.
pub(crate) fn has_names(plant: &Plant)
    ensures { HasNames plant.now }
{
    thrusters_are_named(plant);
    groups_are_named(plant);
    let _name = plant.name().bytes();
    let _parts = plant.parts();
}
