//! A capability that is written as it is found.
ghost use Rattle.std.specs.Prelude.{◌≡◌, ℕ, List, ◌<◌, IfOk, string_bytes};
ghost use Rattle.plant_model.specs.Versions.{IsDemand};
ghost use Rattle.plant_model.specs.declared.limits.TheConstants.{WIND_ROWS};
ghost use Rattle.dp_io.specs.Shown.{writing};
ghost use Rattle.dp_words.specs.Writing.{EndsText};
ghost use Rattle.capability_report.specs.Found.{WritesFound, WritesLimit, WritesLimits, WritesMargins};

use crate::lines::{limit_lines, margin_lines};
use crate::margins::margins_of;
use capability::wind_limit;
use dp_io::Sink;
use dp_words::{RunStatus, send_lines};
use no_memory::NoMemory;
use plant_model::limits::WIND_ROWS;
use plant_model::plant::Plant;
use plant_model::wrench::Wrench;
use std::alloc::Global;

/// From one angle to the next, in centidegrees.
const ANGLE_STEP: u32 = 1_000;

/// Writes a text that was made, or else says that memory ran out. The error is `WriteFault` or `NoMemory`.
fn send_text<O: Sink>(text: Result<String, NoMemory>, out: &mut O) -> Result<(), RunStatus>
    ensures { (whole : List ℕ) → IfOk text (λ made. string_bytes made ≡ whole)
        → EndsText result (writing O.Sink out.old out.new) whole }
{
    let text = text?;
    send_lines(out, text.as_bytes())?;
    Ok(())
}

/// Writes how much of the demand the losses leave. The error is `WriteFault` or `NoMemory`.
fn write_margins<O: Sink>(
    alloc: Global,
    plant: &Plant,
    demand: Wrench,
    out: &mut O,
) -> Result<(), RunStatus>
    requires { IsDemand demand }
    ensures { WritesMargins plant.now demand result (writing O.Sink out.old out.new) }
{
    let margins = margins_of(plant, demand);
    send_text(margin_lines(alloc, plant, demand, &margins), out)
}

/// Writes how much wind from an angle of so many tens of degrees the plant holds. True where it holds none, as some
/// loss leaves too little for the demand alone. The error is `WriteFault` or `NoMemory`.
fn write_limit<O: Sink>(
    alloc: Global,
    plant: &Plant,
    demand: Wrench,
    tens: u32,
    out: &mut O,
) -> Result<bool, RunStatus>
    requires demand { IsDemand demand }
    requires tens { tens < WIND_ROWS }
    ensures { WritesLimit plant.now demand tens result (writing O.Sink out.old out.new) }
{
    let angle = tens * ANGLE_STEP;
    let limit = wind_limit(plant, plant.opening(), demand, angle);
    send_text(limit_lines(alloc, plant, angle, &limit), out)?;
    Ok(limit.speed.is_none())
}

/// Writes how much wind the plant holds, angle by angle. True where some loss leaves too little for the demand alone.
/// The error is `WriteFault` or `NoMemory`.
fn write_limits<O: Sink>(
    alloc: Global,
    plant: &Plant,
    demand: Wrench,
    out: &mut O,
) -> Result<bool, RunStatus>
    requires { IsDemand demand }
    ensures { WritesLimits plant.now demand result (writing O.Sink out.old out.new) }
{
    let mut lost = false;
    for tens in 0..WIND_ROWS as u32 {
        lost = write_limit(alloc, plant, demand, tens, out)?;
    }
    Ok(lost)
}

/// Writes the capability of the plant, as it opens, for the demand, which is within its limits. True where some loss
/// leaves too little for the demand alone. The error is `WriteFault` or `NoMemory`.
pub(crate) fn write_capability<O: Sink>(
    alloc: Global,
    plant: &Plant,
    demand: Wrench,
    out: &mut O,
) -> Result<bool, RunStatus>
    requires { IsDemand demand }
    ensures { WritesFound plant.now demand result (writing O.Sink out.old out.new) }
{
    write_margins(alloc, plant, demand, out)?;
    let lost = write_limits(alloc, plant, demand, out)?;
    send_lines(out, b"END\n")?;
    Ok(lost)
}
