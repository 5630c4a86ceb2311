//! The lines of a capability. Each function appends a part of a line, or whole lines, to a text.
ghost use Rattle.std.specs.Prelude.{◌≡◌, ◌++◌, ◌≤◌, IfOk, OnOk, length, string_bytes};
ghost use Rattle.std.specs.List.{flat_map, zip};
ghost use Rattle.log_text.specs.Outcomes.{outcome_text, wrench_text};
ghost use Rattle.log_text.specs.Texts.{group_name};
ghost use Rattle.plant_model.specs.declared.limits.TheConstants.{MOST_GROUPS};
ghost use Rattle.capability_report.specs.Texts.{at_group_line, at_intact_line, at_lines, head_line};
ghost use Rattle.capability_report.specs.Texts.{intact_line, limit_lines, loss_text, margin_lines};
ghost use Rattle.capability_report.specs.Texts.{margin_text, next_line, next_loss_text, reserve_line};
ghost use Rattle.capability_report.specs.Texts.{speed_text, step_text, wind_line, worst_line, worst_text};

use crate::margins::{Left, Margins, Worst, worst_from};
use capability::{Margin, Next, Step, WindLimit};
use certificate::Outcome;
use log_text::outcome_text;
use no_memory::NoMemory;
use plant_model::parts::Group;
use plant_model::plant::Plant;
use plant_model::status::Loss;
use plant_model::wrench::Wrench;
use std::alloc::{AllocError, Global};

fn push_margin(text: &mut String, margin: Margin) -> Result<(), AllocError>
    ensures { OnOk result (string_bytes text.new ≡ string_bytes text.old ++ margin_text margin) }
{
    match margin {
        Margin::Any => text.push_str("ANY"),
        Margin::Frozen => text.push_str("FROZEN"),
        Margin::Least(part) => {
            let (top, bottom) = (part.top, part.bottom);
            write!(text, "{top},{bottom}")
        }
    }
}

/// A demand along x, along y and in yaw.
fn push_demand(text: &mut String, demand: &Wrench) -> Result<(), AllocError>
    ensures { OnOk result (string_bytes text.new ≡ string_bytes text.old ++ wrench_text demand.now) }
{
    let Wrench { x, y, n } = demand;
    write!(text, "{x},{y},{n}")
}

fn push_head(text: &mut String, demand: &Wrench) -> Result<(), AllocError>
    ensures { OnOk result (string_bytes text.new ≡ string_bytes text.old ++ head_line demand.now) }
{
    text.push_str("CAPABILITY,")?;
    push_demand(text, demand)?;
    text.push_str("\n")
}

fn push_intact(text: &mut String, margin: Margin) -> Result<(), AllocError>
    ensures { OnOk result (string_bytes text.new ≡ string_bytes text.old ++ intact_line margin) }
{
    text.push_str("INTACT,")?;
    push_margin(text, margin)?;
    text.push_str("\n")
}

fn push_reserve(text: &mut String, group: &Group, left: &Left) -> Result<(), AllocError>
    ensures { OnOk result (string_bytes text.new
        ≡ string_bytes text.old ++ reserve_line (group.now, left.now)) }
{
    let name = &group.name;
    write!(text, "RESERVE,{name},")?;
    push_margin(text, left.margin)?;
    text.push_str("\n")
}

/// A line for the loss of each group.
fn push_reserves(text: &mut String, groups: &[Group], margins: &[Left]) -> Result<(), AllocError>
    ensures { OnOk result (string_bytes text.new
        ≡ string_bytes text.old ++ flat_map reserve_line (zip groups.now margins.now)) }
{
    for (group, left) in groups.iter().zip(margins) {
        push_reserve(text, group, left)?;
    }
    Ok(())
}

/// The name of the group at a place, where the plant has one.
fn push_group_name(text: &mut String, plant: &Plant, group: u32) -> Result<(), AllocError>
    ensures { OnOk result (string_bytes text.new
        ≡ string_bytes text.old ++ group_name plant.now group) }
{
    match plant.groups().as_slice().get(group as usize) {
        Some(group) => text.push_str(group.name.as_str()),
        None => Ok(()),
    }
}

fn push_worst_name(text: &mut String, plant: &Plant, worst: Option<Worst>) -> Result<(), AllocError>
    ensures { OnOk result (string_bytes text.new
        ≡ string_bytes text.old ++ worst_text plant.now worst) }
{
    match worst {
        Some(worst) => push_group_name(text, plant, worst.group),
        None => text.push_str("NONE"),
    }
}

fn push_worst(text: &mut String, plant: &Plant, margins: &[Left]) -> Result<(), AllocError>
    requires { length margins.now ≤ MOST_GROUPS }
    ensures { OnOk result (string_bytes text.new
        ≡ string_bytes text.old ++ worst_line plant.now margins.now) }
{
    text.push_str("WORST,")?;
    push_worst_name(text, plant, worst_from(0, margins))?;
    text.push_str("\n")
}

/// The demand, in kN and kN·dm, what is left of it with nothing lost and after the loss of each group by the group's
/// name, and the group whose loss leaves the least.
pub(crate) fn margin_lines(
    alloc: Global,
    plant: &Plant,
    demand: Wrench,
    margins: &Margins,
) -> Result<String, NoMemory>
    ensures { IfOk result
        (λ text. string_bytes text ≡ margin_lines plant.now demand margins.now) }
{
    let mut text = String::new(alloc);
    push_head(&mut text, &demand)?;
    push_intact(&mut text, margins.intact)?;
    let groups = margins.groups.as_slice();
    push_reserves(&mut text, plant.groups().as_slice(), groups)?;
    push_worst(&mut text, plant, groups)?;
    Ok(text)
}

fn push_loss(text: &mut String, plant: &Plant, loss: Loss) -> Result<(), AllocError>
    ensures { OnOk result (string_bytes text.new
        ≡ string_bytes text.old ++ loss_text plant.now loss) }
{
    match loss {
        Loss::Intact => text.push_str("INTACT"),
        Loss::Group(group) => {
            text.push_str("GROUP,")?;
            push_group_name(text, plant, group)
        }
    }
}

fn push_speed(text: &mut String, speed: Option<u32>) -> Result<(), AllocError>
    ensures { OnOk result (string_bytes text.new ≡ string_bytes text.old ++ speed_text speed) }
{
    match speed {
        Some(speed) => write!(text, "{speed}"),
        None => text.push_str("NONE"),
    }
}

fn push_next_loss(text: &mut String, plant: &Plant, next: &Option<Next>) -> Result<(), AllocError>
    ensures { OnOk result (string_bytes text.new
        ≡ string_bytes text.old ++ next_loss_text plant.now next.now) }
{
    match next {
        Some(next) => push_loss(text, plant, next.loss),
        None => text.push_str("NONE"),
    }
}

/// The angle, in centidegrees, the greatest speed that is held, in dm/s, and the loss that ends it.
fn push_wind(
    text: &mut String,
    plant: &Plant,
    angle: u32,
    limit: &WindLimit,
) -> Result<(), AllocError>
    ensures { OnOk result (string_bytes text.new
        ≡ string_bytes text.old ++ wind_line plant.now angle limit.now) }
{
    write!(text, "WIND,{angle},")?;
    push_speed(text, limit.speed)?;
    text.push_str(",")?;
    push_next_loss(text, plant, &limit.next)?;
    text.push_str("\n")
}

fn push_outcome(
    alloc: Global,
    text: &mut String,
    plant: &Plant,
    outcome: &Outcome,
) -> Result<(), NoMemory>
    ensures { OnOk result (string_bytes text.new
        ≡ string_bytes text.old ++ outcome_text outcome.now) }
{
    let outcome = outcome_text(alloc, plant, outcome)?;
    text.push_str(outcome.as_str())?;
    Ok(())
}

fn push_at_intact(
    alloc: Global,
    text: &mut String,
    plant: &Plant,
    outcome: &Outcome,
) -> Result<(), NoMemory>
    ensures { OnOk result (string_bytes text.new
        ≡ string_bytes text.old ++ at_intact_line outcome.now) }
{
    text.push_str("AT,INTACT,")?;
    push_outcome(alloc, text, plant, outcome)?;
    text.push_str("\n")?;
    Ok(())
}

fn push_at_group(
    alloc: Global,
    text: &mut String,
    plant: &Plant,
    group: &Group,
    outcome: &Outcome,
) -> Result<(), NoMemory>
    ensures { OnOk result (string_bytes text.new
        ≡ string_bytes text.old ++ at_group_line (group.now, outcome.now)) }
{
    let name = &group.name;
    write!(text, "AT,GROUP,{name},")?;
    push_outcome(alloc, text, plant, outcome)?;
    text.push_str("\n")?;
    Ok(())
}

/// A line for the loss of each group.
fn push_at_groups(
    alloc: Global,
    text: &mut String,
    plant: &Plant,
    groups: &[Group],
    outcomes: &[Outcome],
) -> Result<(), NoMemory>
    ensures { OnOk result (string_bytes text.new
        ≡ string_bytes text.old ++ flat_map at_group_line (zip groups.now outcomes.now)) }
{
    for (group, outcome) in groups.iter().zip(outcomes) {
        push_at_group(alloc, text, plant, group, outcome)?;
    }
    Ok(())
}

/// What shows that the speed is held: with nothing lost, and after the loss of each group.
fn push_at(
    alloc: Global,
    text: &mut String,
    plant: &Plant,
    outcomes: &[Outcome],
) -> Result<(), NoMemory>
    ensures { OnOk result (string_bytes text.new
        ≡ string_bytes text.old ++ at_lines plant.now outcomes.now) }
{
    match outcomes.split_first() {
        Some((intact, groups)) => {
            push_at_intact(alloc, text, plant, intact)?;
            push_at_groups(alloc, text, plant, plant.groups().as_slice(), groups)
        }
        None => Ok(()),
    }
}

fn push_step(alloc: Global, text: &mut String, plant: &Plant, step: &Step) -> Result<(), NoMemory>
    ensures { OnOk result (string_bytes text.new
        ≡ string_bytes text.old ++ step_text step.now) }
{
    match step {
        Step::Beyond => {
            text.push_str("BEYOND")?;
            Ok(())
        }
        Step::Lost(outcome) => push_outcome(alloc, text, plant, outcome),
    }
}

/// What isn't withstood at the next speed.
fn push_next(
    alloc: Global,
    text: &mut String,
    plant: &Plant,
    next: &Option<Next>,
) -> Result<(), NoMemory>
    ensures { OnOk result (string_bytes text.new
        ≡ string_bytes text.old ++ next_line plant.now next.now) }
{
    let Some(next) = next else {
        return Ok(());
    };
    text.push_str("NEXT,")?;
    push_loss(text, plant, next.loss)?;
    text.push_str(",")?;
    push_step(alloc, text, plant, &next.step)?;
    text.push_str("\n")?;
    Ok(())
}

/// How much wind from the angle, in centidegrees, the plant holds, what shows it, and what it doesn't withstand.
pub(crate) fn limit_lines(
    alloc: Global,
    plant: &Plant,
    angle: u32,
    limit: &WindLimit,
) -> Result<String, NoMemory>
    ensures { IfOk result (λ text. string_bytes text ≡ limit_lines plant.now angle limit.now) }
{
    let mut text = String::new(alloc);
    push_wind(&mut text, plant, angle, limit)?;
    push_at(alloc, &mut text, plant, limit.at.as_slice())?;
    push_next(alloc, &mut text, plant, &limit.next)?;
    Ok(text)
}
