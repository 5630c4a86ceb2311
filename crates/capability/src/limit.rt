//! The greatest wind speed that a plant holds, and the loss that ends it.
ghost use Rattle.std.specs.Prelude.{◌≡◌, ◌+◌, ◌<◌, ◌≤◌, All, length};
ghost use Rattle.plant_model.specs.Versions.{IsDemand};
ghost use Rattle.plant_model.specs.declared.limits.TheConstants.{WHOLE_TURN};
ghost use Rattle.redundancy_groups.specs.Standing.{IsLossOf};
ghost use Rattle.certificate.specs.Losses.{question_after};
ghost use Rattle.capability.specs.Limits.{AreOfEach, IsAnswer, IsStopped, IsWindLimit, StopsAt};
ghost use Rattle.capability.specs.Limits.{number_of};

use crate::speeds::{SPEEDS, met_up_to, path};
use arrayvec::ArrayVec;
use certificate::Outcome;
use feasibility::analyse;
use plant_model::limits::MOST_GROUPS;
use plant_model::plant::Plant;
use plant_model::status::{Loss, Status};
use plant_model::wrench::Wrench;

/// The losses of a plant: none at all, and that of each group.
pub const MOST_LOSSES: usize = MOST_GROUPS + 1;

/// Why a loss isn't withstood.
#[derive(Debug, PartialEq, Eq, Drop)]
pub enum Step {
    /// The demand is outside its limits, which are the greatest sums of thrusts.
    Beyond,
    /// What the loss leaves doesn't meet the demand: a `Lost`.
    Lost(Outcome),
}

/// The first loss that isn't withstood at a speed.
#[derive(Debug, PartialEq, Eq, Drop)]
pub struct Next {
    pub loss: Loss,
    pub step: Step,
}

/// How much wind a plant holds from one angle.
#[derive(Debug, PartialEq, Eq, Drop)]
pub struct WindLimit {
    /// The greatest whole speed, in dm/s, such that at each from 0 to it the demand is met with
    /// nothing lost and after the loss of each group. None where it isn't in no wind.
    pub speed: Option<u32>,
    /// What shows it at that speed, each a `Holds`: with nothing lost, and after the loss of each
    /// group in order. Nothing where there is no speed.
    pub at: ArrayVec<Outcome, MOST_LOSSES>,
    /// What isn't withstood at the next speed, or at 0. None where the speed is the greatest.
    pub next: Option<Next>,
}

/// Up to which place of a path the losses so far meet what is asked, and the first that doesn't
/// there. No loss where they meet all of it.
#[derive(Clone, Copy)]
pub struct Stop {
    pub speed: usize,
    pub loss: Option<Loss>,
}

/// The greatest wind speed from the angle that the plant holds in the status.
///
/// The base, in kN and kN·dm and within a demand's limits, is what the thrusters give beside what
/// they give against the wind; the angle is in centidegrees from the bow towards starboard, below a
/// whole turn. Every whole speed from 0 on is decided, since a speed may be held past one that isn't.
pub fn wind_limit(plant: &Plant, status: &Status, base: Wrench, angle: u32) -> WindLimit
    requires base { IsDemand base }
    requires angle { angle < WHOLE_TURN }
    ensures { IsWindLimit (record {
      plant = plant.now;
      status = status.now;
      base = base;
      angle = angle;
    }) result }
{
    let demands = path(plant, base, angle);
    let path = demands.as_slice();
    let stop = first_stop(plant, status, path);
    let next = next_at(plant, status, path, stop);
    match stop.speed.checked_sub(1) {
        Some(speed) => WindLimit {
            speed: Some(speed as u32),
            at: outcomes(plant, status, path[speed]),
            next,
        },
        None => WindLimit {
            speed: None,
            at: ArrayVec::new(),
            next,
        },
    }
}

/// Where the path stops, by all losses. The demands of the path are within their limits.
fn first_stop(plant: &Plant, status: &Status, path: &[Wrench]) -> Stop
    requires demands { All IsDemand path.now }
    ensures { StopsAt (question_after plant.now status.now) path.now
        (length plant.now.groups.items + 1) result }
{
    let whole = Stop {
        speed: path.len(),
        loss: None,
    };
    let mut stop = earlier(plant, status, path, whole, Loss::Intact);
    for group in 0..plant.groups().len() as u32 {
        stop = earlier(plant, status, path, stop, Loss::Group(group));
    }
    stop
}

/// Where the path stops by one loss more, which comes after those so far.
fn earlier(plant: &Plant, status: &Status, path: &[Wrench], stop: Stop, loss: Loss) -> Stop
    requires loss { IsLossOf plant.now loss }
    requires demands { All IsDemand path.now }
    requires stop { StopsAt (question_after plant.now status.now) path.now (number_of loss) stop }
    ensures { StopsAt (question_after plant.now status.now) path.now (number_of loss + 1) result }
{
    let speed = met_up_to(plant, status, loss, &path[..stop.speed]);
    if speed < stop.speed {
        Stop {
            speed,
            loss: Some(loss),
        }
    } else {
        stop
    }
}

/// What isn't withstood where the path stops.
fn next_at(plant: &Plant, status: &Status, path: &[Wrench], stop: Stop) -> Option<Next>
    requires demands { All IsDemand path.now }
    requires stop { StopsAt (question_after plant.now status.now) path.now
        (length plant.now.groups.items + 1) stop }
    ensures { IsStopped (question_after plant.now status.now) path.now stop result }
{
    match stop.loss {
        Some(loss) => Some(Next {
            loss,
            step: Step::Lost(analyse(plant, status, loss, path[stop.speed])),
        }),
        None if stop.speed < SPEEDS => Some(Next {
            loss: Loss::Intact,
            step: Step::Beyond,
        }),
        None => None,
    }
}

/// What shows that the demand is met with nothing lost and after the loss of each group, as it is.
fn outcomes(plant: &Plant, status: &Status, demand: Wrench) -> ArrayVec<Outcome, MOST_LOSSES>
    requires demand { IsDemand demand }
    ensures { AreOfEach plant.now
        (λ loss. IsAnswer (question_after plant.now status.now loss demand)) result.items }
{
    let mut outcomes = ArrayVec::new();
    outcomes.push(analyse(plant, status, Loss::Intact, demand));
    for group in 0..plant.groups().len() as u32 {
        outcomes.push(analyse(plant, status, Loss::Group(group), demand));
    }
    outcomes
}
