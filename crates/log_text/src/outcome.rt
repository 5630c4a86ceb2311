//! The texts of demands, of outcomes and of allocations.
ghost use Rattle.std.specs.Prelude.{◌≡◌, ◌++◌, IfOk, OnOk, string_bytes};
ghost use Rattle.log_text.specs.Outcomes.{cuts_text, given_part_text, given_text, outcome_text};
ghost use Rattle.log_text.specs.Outcomes.{thrusts_text, wrench_text};

use certificate::{Cuts, Outcome};
use no_memory::NoMemory;
use plant_core::Allocation;
use plant_model::plant::Plant;
use plant_model::thrust::{Thrust, Thrusts};
use plant_model::wrench::Wrench;
use std::alloc::{AllocError, Global};
use wrench_geometry::Vec3;

/// Appends a demand along x, along y and in yaw.
pub(crate) fn push_wrench(text: &mut String, demand: &Wrench) -> Result<(), AllocError>
    ensures { OnOk result (string_bytes text.new ≡ string_bytes text.old ++ wrench_text demand.now) }
{
    let Wrench { x, y, n } = demand;
    write!(text, "{x},{y},{n}")
}

/// Appends each thruster's thrust along x and along y.
fn push_thrusts(text: &mut String, thrusts: &Thrusts) -> Result<(), AllocError>
    ensures { OnOk result (string_bytes text.new
        ≡ string_bytes text.old ++ thrusts_text thrusts.now) }
{
    for thrust in thrusts.list.as_slice() {
        let Thrust { x, y } = thrust;
        write!(text, ",{x},{y}")?;
    }
    Ok(())
}

/// Appends a choice with thrusts over a denominator.
fn push_given(text: &mut String, choice: u32, q: i64, thrusts: &Thrusts) -> Result<(), AllocError>
    ensures { OnOk result (string_bytes text.new
        ≡ string_bytes text.old ++ given_text choice q thrusts.now) }
{
    write!(text, "{choice},{q}")?;
    push_thrusts(text, thrusts)
}

/// Appends the part of a demand that is given, with the choice and the thrusts that give it.
pub(crate) fn push_given_part(text: &mut String, allocation: &Allocation) -> Result<(), AllocError>
    ensures { OnOk result (string_bytes text.new
        ≡ string_bytes text.old ++ given_part_text allocation.now) }
{
    let (top, bottom) = (allocation.fraction.top, allocation.fraction.bottom);
    write!(text, "{top},{bottom},")?;
    push_given(text, allocation.choice, allocation.q, &allocation.thrusts)
}

/// Appends the count of cuts, and each cut along x, along y and in yaw.
fn push_cuts(text: &mut String, cuts: &Cuts) -> Result<(), AllocError>
    ensures { OnOk result (string_bytes text.new ≡ string_bytes text.old ++ cuts_text cuts.now) }
{
    let count = cuts.list.len();
    write!(text, "{count}")?;
    for cut in cuts.list.as_slice() {
        let Vec3 { x, y, z } = cut;
        write!(text, ",{x},{y},{z}")?;
    }
    Ok(())
}

pub(crate) fn push_outcome(text: &mut String, outcome: &Outcome) -> Result<(), AllocError>
    ensures { OnOk result (string_bytes text.new
        ≡ string_bytes text.old ++ outcome_text outcome.now) }
{
    match outcome {
        Outcome::Holds { choice, q, thrusts } => {
            text.push_str("HOLDS,")?;
            push_given(text, *choice, *q, thrusts)
        }
        Outcome::Lost { cuts } => {
            text.push_str("LOST,")?;
            push_cuts(text, cuts)
        }
    }
}

/// An outcome of the plant: `HOLDS` with the choice, the denominator and each thruster's thrust along x and along y,
/// or `LOST` with the count of cuts and each cut along x, along y and in yaw.
pub fn outcome_text(alloc: Global, _plant: &Plant, outcome: &Outcome) -> Result<String, NoMemory>
    ensures { IfOk result (λ text. string_bytes text ≡ outcome_text outcome.now) }
{
    let mut text = String::new(alloc);
    push_outcome(&mut text, outcome)?;
    Ok(text)
}
