//! What a check finds.
ghost use Rattle.std.specs.Prelude.{◌≡◌};
ghost use Rattle.std.specs.List.{list_any};
ghost use Rattle.plant_model.specs.Versions.{IsDemand};
ghost use Rattle.dp_sessions.specs.Checks.{AreRight, AreVerdicts, has_lost, is_lost};

use allocator::allocate;
use arrayvec::ArrayVec;
use certificate::Outcome;
use feasibility::analyse;
use log_text::Findings;
use plant_model::limits::MOST_GROUPS;
use plant_model::plant::Plant;
use plant_model::status::Loss;
use plant_model::wrench::Wrench;

/// What is found of the plant, as it opens, and the demand, which is within its limits.
pub fn findings_of(plant: &Plant, demand: Wrench) -> Findings
    requires { IsDemand demand }
    ensures { AreRight plant.now demand result }
{
    let status = plant.opening();
    Findings {
        intact: analyse(plant, status, Loss::Intact, demand),
        groups: losses_of(plant, demand),
        allocation: allocate(plant, status, demand),
    }
}

/// Whether the demand is met after the loss of each group.
fn losses_of(plant: &Plant, demand: Wrench) -> ArrayVec<Outcome, MOST_GROUPS>
    requires { IsDemand demand }
    ensures { AreVerdicts plant.now demand result.items }
{
    let mut outcomes = ArrayVec::new();
    for number in 0..plant.groups().len() as u32 {
        outcomes.push(analyse(plant, plant.opening(), Loss::Group(number), demand));
    }
    outcomes
}

fn is_lost(outcome: &Outcome) -> bool
    ensures { result ≡ is_lost outcome.now }
{
    matches!(outcome, Outcome::Lost { .. })
}

fn any_lost(outcomes: &[Outcome]) -> bool
    ensures { result ≡ list_any is_lost outcomes.now }
{
    outcomes.iter().any(|outcome| is_lost(outcome))
}

/// Whether some outcome is a `Lost`.
pub fn has_lost(findings: &Findings) -> bool
    ensures { result ≡ has_lost findings.now }
{
    is_lost(&findings.intact) || any_lost(findings.groups.as_slice())
}
