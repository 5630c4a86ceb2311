//! The text of a check.
ghost use Rattle.std.specs.Prelude.{◌≡◌, ◌++◌, IfOk, OnOk, length, string_bytes};
ghost use Rattle.std.specs.List.{flat_map, zip};
ghost use Rattle.log_text.specs.Outcomes.{allocation_text, check_head, check_text, intact_text};
ghost use Rattle.log_text.specs.Outcomes.{loss_text};

use crate::findings::Findings;
use crate::outcome::{push_given_part, push_outcome, push_wrench};
use certificate::Outcome;
use no_memory::NoMemory;
use plant_core::Allocation;
use plant_model::parts::Group;
use plant_model::plant::Plant;
use plant_model::wrench::Wrench;
use std::alloc::{AllocError, Global};

fn push_head(text: &mut String, demand: &Wrench) -> Result<(), AllocError>
    ensures { OnOk result (string_bytes text.new ≡ string_bytes text.old ++ check_head demand.now) }
{
    text.push_str("CHECK,")?;
    push_wrench(text, demand)?;
    text.push_str("\n")
}

fn push_intact(text: &mut String, outcome: &Outcome) -> Result<(), AllocError>
    ensures { OnOk result (string_bytes text.new
        ≡ string_bytes text.old ++ intact_text outcome.now) }
{
    text.push_str("INTACT,")?;
    push_outcome(text, outcome)?;
    text.push_str("\n")
}

fn push_loss(text: &mut String, group: &Group, outcome: &Outcome) -> Result<(), AllocError>
    ensures { OnOk result (string_bytes text.new
        ≡ string_bytes text.old ++ loss_text (group.now, outcome.now)) }
{
    let name = &group.name;
    write!(text, "GROUP,{name},")?;
    push_outcome(text, outcome)?;
    text.push_str("\n")
}

/// Appends a line for the loss of each group.
fn push_losses(text: &mut String, groups: &[Group], outcomes: &[Outcome]) -> Result<(), AllocError>
    requires { length outcomes.now ≡ length groups.now }
    ensures { OnOk result (string_bytes text.new
        ≡ string_bytes text.old ++ flat_map loss_text (zip groups.now outcomes.now)) }
{
    for (group, outcome) in groups.iter().zip(outcomes) {
        push_loss(text, group, outcome)?;
    }
    Ok(())
}

fn push_allocation(text: &mut String, allocation: &Allocation) -> Result<(), AllocError>
    ensures { OnOk result (string_bytes text.new
        ≡ string_bytes text.old ++ allocation_text allocation.now) }
{
    text.push_str("ALLOCATION,")?;
    push_given_part(text, allocation)?;
    text.push_str("\n")
}

/// The lines of a check, which found an outcome for each group of the plant: the demand in kN and kN·dm, the outcome
/// with nothing lost, that of each group's loss by the group's name, the allocation, and `END`.
pub fn check_text(
    alloc: Global,
    plant: &Plant,
    demand: Wrench,
    findings: &Findings,
) -> Result<String, NoMemory>
    requires { length findings.now.groups.items ≡ length plant.now.groups.items }
    ensures { IfOk result
        (λ text. string_bytes text ≡ check_text plant.now demand findings.now) }
{
    let mut text = String::new(alloc);
    push_head(&mut text, &demand)?;
    push_intact(&mut text, &findings.intact)?;
    let groups = plant.groups().as_slice();
    push_losses(&mut text, groups, findings.groups.as_slice())?;
    push_allocation(&mut text, &findings.allocation)?;
    text.push_str("END\n")?;
    Ok(text)
}
