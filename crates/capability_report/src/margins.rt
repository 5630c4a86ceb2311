//! What each loss leaves of a demand.
ghost use Rattle.std.specs.Prelude.{◌≡◌, ◌+◌, ◌≤◌, length};
ghost use Rattle.plant_model.specs.Versions.{IsDemand};
ghost use Rattle.plant_model.specs.declared.limits.TheConstants.{MOST_GROUPS};
ghost use Rattle.capability_report.specs.Found.{AreMargins};
ghost use Rattle.capability_report.specs.Texts.{lesser, worst_from, worst_with};

use arrayvec::ArrayVec;
use capability::{Margin, reserve};
use dp_num::{Fraction, compare};
use plant_model::limits::MOST_GROUPS;
use plant_model::plant::Plant;
use plant_model::status::Loss;
use plant_model::wrench::Wrench;
use std::cmp::Ordering;

/// What the loss of a group leaves of a demand: any part of it where nothing is said.
#[derive(Clone, Copy)]
pub(crate) struct Left {
    pub(crate) margin: Margin,
}

impl Default for Left {
    fn default() -> Left {
        Left {
            margin: Margin::Any,
        }
    }
}

/// What the losses leave of a demand.
#[derive(Drop)]
pub(crate) struct Margins {
    /// With nothing lost.
    pub(crate) intact: Margin,
    /// After the loss of each redundancy group, in the order of the plant.
    pub(crate) groups: ArrayVec<Left, MOST_GROUPS>,
}

/// What the losses of the plant leave of the demand, which is within its limits, as the plant opens.
pub(crate) fn margins_of(plant: &Plant, demand: Wrench) -> Margins
    requires { IsDemand demand }
    ensures { AreMargins plant.now demand result }
{
    let mut groups = ArrayVec::new();
    for group in 0..plant.groups().len() as u32 {
        groups.push(Left {
            margin: reserve(plant, plant.opening(), Loss::Group(group), demand),
        });
    }
    Margins {
        intact: reserve(plant, plant.opening(), Loss::Intact, demand),
        groups,
    }
}

/// The loss of a group, with the part of the demand that it leaves.
#[derive(Clone, Copy)]
pub(crate) struct Worst {
    /// The group's place.
    pub(crate) group: u32,
    pub(crate) part: Fraction,
}

/// The one that leaves less, and the first where neither does.
fn lesser(first: Worst, second: Worst) -> Worst
    ensures { result ≡ lesser first second }
{
    match compare(second.part, first.part) {
        Ordering::Less => second,
        _ => first,
    }
}

/// The worst of the groups after one, with this one before them.
fn worst_with(group: u32, margin: Margin, rest: Option<Worst>) -> Option<Worst>
    ensures { result ≡ worst_with group margin rest }
{
    let Margin::Least(part) = margin else {
        return rest;
    };
    let first = Worst { group, part };
    match rest {
        Some(second) => Some(lesser(first, second)),
        None => Some(first),
    }
}

/// The first of the groups from this one on whose loss leaves the least part of the demand. None where of no loss of
/// theirs a part is told.
pub(crate) fn worst_from(group: u32, margins: &[Left]) -> Option<Worst>
    requires { group + length margins.now ≤ MOST_GROUPS }
    ensures { result ≡ worst_from group margins.now }
{
    let (left, others) = margins.split_first()?;
    worst_with(group, left.margin, worst_from(group + 1, others))
}
