//! The summary of a drill, as a text.
ghost use Rattle.std.specs.Prelude.{◌≡◌, ◌++◌, ℤ, IfOk, OnOk, string_bytes};
ghost use Rattle.std.specs.List.{flat_map};
ghost use Rattle.drill_summary.specs.Texts.{counts_line, demand_line, digit_of, drill_text};
ghost use Rattle.drill_summary.specs.Texts.{status_line, wrench_text};

use crate::count::{commanded, entries, last_demand, late, same, versions};
use no_memory::NoMemory;
use plant_core::Core;
use plant_model::plant::Plant;
use plant_model::status::Status;
use plant_model::wrench::Wrench;
use std::alloc::{AllocError, Global};

/// The callers of the two streams.
const SENSORS: u32 = 1;

const OPERATORS: u32 = 2;

/// Appends a line of a word and three numbers.
fn push_counts(
    text: &mut String,
    word: &str,
    one: usize,
    two: usize,
    three: usize,
) -> Result<(), AllocError>
    ensures { OnOk result
        (string_bytes text.new ≡ string_bytes text.old ++ counts_line word.now one two three) }
{
    write!(text, "{word},{one},{two},{three}\n")
}

/// Appends a digit for each switch: 1 where it is on.
fn push_digits(text: &mut String, switches: &[bool]) -> Result<(), AllocError>
    ensures { OnOk result
        (string_bytes text.new ≡ string_bytes text.old ++ flat_map digit_of switches.now) }
{
    for on in switches {
        text.push_str(if *on { "1" } else { "0" })?;
    }
    Ok(())
}

/// Appends the line of how the plant is switched.
fn push_status(text: &mut String, plant: &Plant, status: &Status) -> Result<(), AllocError>
    ensures { OnOk result
        (string_bytes text.new ≡ string_bytes text.old ++ status_line plant.now status.now) }
{
    text.push_str("STATUS,")?;
    push_digits(text, &status.selected[..plant.thrusters().len()])?;
    text.push_str(",")?;
    push_digits(text, &status.running[..plant.generators().len()])?;
    text.push_str(",")?;
    push_digits(text, &status.closed[..plant.ties().len()])?;
    text.push_str("\n")
}

/// Appends a demand along x, along y and in yaw.
fn push_wrench(text: &mut String, demand: &Wrench) -> Result<(), AllocError>
    ensures { OnOk result (string_bytes text.new ≡ string_bytes text.old ++ wrench_text demand.now) }
{
    let Wrench { x, y, n } = demand;
    write!(text, "{x},{y},{n}")
}

/// Appends the line of a demand.
fn push_demand(text: &mut String, demand: &Wrench) -> Result<(), AllocError>
    ensures { OnOk result
        (string_bytes text.new ≡ string_bytes text.old ++ demand_line demand.now) }
{
    text.push_str("DEMAND,")?;
    push_wrench(text, demand)?;
    text.push_str("\n")
}

/// The summary of the history of a drill of this seed and size, of six lines: the drill; the sensors' entries, with how
/// many were commands and how many late; the operators' entries, with how many made a version and how many changed
/// nothing; how the plant is switched, with a digit for each thruster, generator and tie; what the last command asks of
/// the thrusters, in kN and kN·dm; and `END`.
pub fn drill_text(alloc: Global, seed: u32, size: u32, core: &Core) -> Result<String, NoMemory>
    ensures { IfOk result (λ text. string_bytes text
        ≡ drill_text seed size core.now.plant core.now.history) }
{
    let history = core.history();
    let mut text = format!(in alloc; "DRILL,{seed},{size}\n")?;
    push_counts(
        &mut text,
        "SENSORS",
        entries(history, SENSORS),
        commanded(history, SENSORS),
        late(history, SENSORS),
    )?;
    push_counts(
        &mut text,
        "OPERATORS",
        entries(history, OPERATORS),
        versions(history, OPERATORS),
        same(history, OPERATORS),
    )?;
    push_status(&mut text, core.plant(), &core.latest().status)?;
    push_demand(&mut text, &last_demand(history))?;
    text.push_str("END\n")?;
    Ok(text)
}
