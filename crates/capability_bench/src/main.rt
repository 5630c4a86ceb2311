//! Decides up to which wind speed a plant is held, from 36 angles, for `bench/capability.py` to time. Two words: how each
//! speed is decided, by `tents`, as `dp capability` does, or by `exits`, a verdict for each; and a plant file, or `demo`.
#![tactic(auto)]

ghost use Rattle.std.specs.Prelude.{◌<◌, All};
ghost use Rattle.plant_model.specs.Versions.{IsDemand};
ghost use Rattle.plant_model.specs.declared.limits.TheConstants.{WHOLE_TURN};
ghost use Rattle.redundancy_groups.specs.Standing.{IsLossOf};

use capability::{path, wind_limit};
use certificate::Outcome;
use dp_io::LazyFile;
use dp_words::plant_from;
use feasibility::verdict;
use plant_model::limits::WHOLE_TURN;
use plant_model::plant::Plant;
use plant_model::status::Loss;
use plant_model::wrench::Wrench;
use redundancy_groups::surviving;
use std::{env, io};

/// From one angle to the next, in centidegrees.
const ANGLE_STEP: u32 = 1_000;

/// How each speed is decided.
#[derive(Clone, Copy)]
enum Way {
    Tents,
    Exits,
}

fn way_of(word: &str) -> Option<Way> {
    match word {
        "tents" => Some(Way::Tents),
        "exits" => Some(Way::Exits),
        _ => None,
    }
}

/// What the thrusters give beside what they give against the wind: little, so that many speeds are held.
fn base() -> Wrench
    ensures { IsDemand result }
{
    Wrench {
        x: 20,
        y: 30,
        n: 400,
    }
}

/// How many whole speeds from 0 on are held from an angle.
fn held(plant: &Plant, angle: u32, way: Way) -> usize
    requires { angle < WHOLE_TURN }
{
    match way {
        Way::Tents => match wind_limit(plant, plant.opening(), base(), angle).speed {
            Some(speed) => speed as usize + 1,
            None => 0,
        },
        Way::Exits => held_by_exits(plant, path(plant, base(), angle).as_slice()),
    }
}

/// How many demands of a path, from its first on, are met with nothing lost and after the loss of each group.
fn held_by_exits(plant: &Plant, path: &[Wrench]) -> usize
    requires demands { All IsDemand path.now }
{
    let mut held = met_by_exits(plant, Loss::Intact, path, path.len());
    for group in 0..plant.groups().len() as u32 {
        held = met_by_exits(plant, Loss::Group(group), path, held);
    }
    held
}

/// How many of so many demands of a path, from its first on, the loss leaves the plant able to meet, by a verdict for each.
fn met_by_exits(plant: &Plant, loss: Loss, path: &[Wrench], most: usize) -> usize
    requires loss { IsLossOf plant.now loss }
    requires demands { All IsDemand path.now }
{
    let regions = surviving(plant, plant.opening(), loss);
    for (speed, demand) in path.iter().enumerate() {
        if speed == most || !matches!(verdict(plant, &regions, *demand), Outcome::Holds { .. }) {
            return speed;
        }
    }
    path.len()
}

fn main(rt: HostRuntime) -> io::Result<()> {
    let mut words = Vec::new(rt.alloc());
    for word in env::args(&rt)?.skip(1) {
        words.push(word)?;
    }
    let [way, plant] = words.as_slice() else {
        return println!(rt; "tents or exits, and a plant file");
    };
    let Some(way) = way_of(way.as_str()) else {
        return println!(rt; "tents or exits, and a plant file");
    };
    let mut source = LazyFile::new(&rt, plant.as_str());
    let Ok(plant) = plant_from(rt.alloc(), plant.as_str(), &mut source) else {
        return println!(rt; "no plant");
    };
    let mut speeds = 0_usize;
    for angle in (0..WHOLE_TURN).step_by(ANGLE_STEP as usize) {
        speeds = speeds.saturating_add(held(&plant, angle, way));
    }
    println!(rt; "{speeds} speeds are held")
}
