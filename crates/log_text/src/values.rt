//! A check as JSON.
ghost use Rattle.std.specs.Prelude.{◌≡◌, IfOk, length, string_bytes};
ghost use Rattle.serde_json.specs.View.{view};
ghost use Rattle.log_text.specs.Json.{allocation_data, check_data, check_json, cut_data, cuts_data};
ghost use Rattle.log_text.specs.Json.{demand_data, loss_data, losses_data, outcome_data, spelled};
ghost use Rattle.log_text.specs.Json.{thrust_data, thrusts_data};

use crate::findings::Findings;
use certificate::{Cuts, Outcome};
use no_memory::NoMemory;
use plant_core::Allocation;
use plant_model::parts::Group;
use plant_model::plant::Plant;
use plant_model::thrust::{Thrust, Thrusts};
use plant_model::wrench::Wrench;
use serde_json::{Value, json};
use std::alloc::{AllocError, Global};
use wrench_geometry::Vec3;

/// A number as a text.
fn spelled(alloc: Global, number: i128) -> Result<Value, AllocError>
    ensures { IfOk result (λ value. view value ≡ spelled number) }
{
    Ok(Value::String(format!(in alloc; "{number}")?))
}

fn thrust_value(alloc: Global, thrust: &Thrust) -> Result<Value, AllocError>
    ensures { IfOk result (λ value. view value ≡ thrust_data thrust.now) }
{
    let x = spelled(alloc, thrust.x)?;
    let y = spelled(alloc, thrust.y)?;
    json!(in alloc; [x, y])
}

fn thrusts_value(alloc: Global, thrusts: &Thrusts) -> Result<Value, AllocError>
    ensures { IfOk result (λ value. view value ≡ thrusts_data thrusts.now) }
{
    let mut values = Vec::new(alloc);
    for thrust in thrusts.list.as_slice() {
        values.push(thrust_value(alloc, thrust)?)?;
    }
    Ok(Value::Array(values))
}

fn cut_value(alloc: Global, cut: &Vec3) -> Result<Value, AllocError>
    ensures { IfOk result (λ value. view value ≡ cut_data cut.now) }
{
    let x = spelled(alloc, i128::from(cut.x))?;
    let y = spelled(alloc, i128::from(cut.y))?;
    let z = spelled(alloc, i128::from(cut.z))?;
    json!(in alloc; [x, y, z])
}

fn cuts_value(alloc: Global, cuts: &Cuts) -> Result<Value, AllocError>
    ensures { IfOk result (λ value. view value ≡ cuts_data cuts.now) }
{
    let mut values = Vec::new(alloc);
    for cut in cuts.list.as_slice() {
        values.push(cut_value(alloc, cut)?)?;
    }
    Ok(Value::Array(values))
}

fn outcome_value(alloc: Global, outcome: &Outcome) -> Result<Value, AllocError>
    ensures { IfOk result (λ value. view value ≡ outcome_data outcome.now) }
{
    match outcome {
        Outcome::Holds { choice, q, thrusts } => {
            let q = spelled(alloc, i128::from(*q))?;
            let thrusts = thrusts_value(alloc, thrusts)?;
            json!(in alloc; {"choice": *choice, "q": q, "thrusts": thrusts, "verdict": "HOLDS"})
        }
        Outcome::Lost { cuts } => {
            let cuts = cuts_value(alloc, cuts)?;
            json!(in alloc; {"cuts": cuts, "verdict": "LOST"})
        }
    }
}

fn loss_value(alloc: Global, group: &Group, outcome: &Outcome) -> Result<Value, AllocError>
    ensures { IfOk result (λ value. view value ≡ loss_data (group.now, outcome.now)) }
{
    let name = group.name.as_str();
    let outcome = outcome_value(alloc, outcome)?;
    json!(in alloc; {"name": name, "outcome": outcome})
}

fn losses_value(alloc: Global, groups: &[Group], outcomes: &[Outcome]) -> Result<Value, AllocError>
    requires { length outcomes.now ≡ length groups.now }
    ensures { IfOk result (λ value. view value ≡ losses_data groups.now outcomes.now) }
{
    let mut values = Vec::new(alloc);
    for (group, outcome) in groups.iter().zip(outcomes) {
        values.push(loss_value(alloc, group, outcome)?)?;
    }
    Ok(Value::Array(values))
}

fn demand_value(alloc: Global, demand: Wrench) -> Result<Value, AllocError>
    ensures { IfOk result (λ value. view value ≡ demand_data demand) }
{
    let Wrench { x, y, n } = demand;
    json!(in alloc; [x, y, n])
}

fn allocation_value(alloc: Global, allocation: &Allocation) -> Result<Value, AllocError>
    ensures { IfOk result (λ value. view value ≡ allocation_data allocation.now) }
{
    let bottom = spelled(alloc, i128::from(allocation.fraction.bottom))?;
    let choice = allocation.choice;
    let q = spelled(alloc, i128::from(allocation.q))?;
    let thrusts = thrusts_value(alloc, &allocation.thrusts)?;
    let top = spelled(alloc, i128::from(allocation.fraction.top))?;
    json!(in alloc; {
        "bottom": bottom, "choice": choice, "q": q, "thrusts": thrusts, "top": top
    })
}

fn check_value(
    alloc: Global,
    plant: &Plant,
    demand: Wrench,
    findings: &Findings,
) -> Result<Value, AllocError>
    requires { length findings.now.groups.items ≡ length plant.now.groups.items }
    ensures { IfOk result (λ value. view value ≡ check_data plant.now demand findings.now) }
{
    let groups = plant.groups().as_slice();
    let allocation = allocation_value(alloc, &findings.allocation)?;
    let demand = demand_value(alloc, demand)?;
    let groups = losses_value(alloc, groups, findings.groups.as_slice())?;
    let intact = outcome_value(alloc, &findings.intact)?;
    json!(in alloc; {
        "allocation": allocation, "demand": demand, "groups": groups, "intact": intact
    })
}

/// A check, which found an outcome for each group of the plant, as a line of JSON: an object with no space, whose keys
/// stand in the order of their bytes. Choices and the demand, in kN and kN·dm, are numbers; all other numbers are
/// texts.
pub fn check_json(
    alloc: Global,
    plant: &Plant,
    demand: Wrench,
    findings: &Findings,
) -> Result<String, NoMemory>
    requires { length findings.now.groups.items ≡ length plant.now.groups.items }
    ensures { IfOk result
        (λ text. string_bytes text ≡ check_json plant.now demand findings.now) }
{
    let value = check_value(alloc, plant, demand, findings)?;
    let mut text = value.to_string(alloc)?;
    text.push_str("\n")?;
    Ok(text)
}
