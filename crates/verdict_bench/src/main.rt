//! Analyses a plant, or checks one verdict on it, again and again, for `bench/verdicts.py` to time. Three words: what is
//! done, `analyse` or `check`; a plant file, or `demo`; and how often.
#![tactic(auto)]

ghost use Rattle.plant_model.specs.Versions.{IsDemand};

use certificate::check;
use dp_io::LazyFile;
use dp_words::plant_from;
use feasibility::analyse;
use plant_model::limits::{MOST_FORCE, MOST_MOMENT};
use plant_model::plant::Plant;
use plant_model::status::Loss;
use plant_model::wrench::Wrench;
use std::{env, io};

/// What is done with a plant.
#[derive(Clone, Copy)]
enum Work {
    Analyse,
    Check,
}

fn work_of(word: &str) -> Option<Work> {
    match word {
        "analyse" => Some(Work::Analyse),
        "check" => Some(Work::Check),
        _ => None,
    }
}

/// The demand of a turn, near the greatest one. Turns that follow one another have different ones.
fn demand(turn: u32) -> Wrench
    ensures { IsDemand result }
{
    let step = (turn % 1_000) as i32;
    Wrench {
        x: MOST_FORCE - step,
        y: MOST_FORCE - 2 * step,
        n: MOST_MOMENT - 3 * step,
    }
}

/// How many of so many analyses of the intact plant answer that the demand holds.
fn held(plant: &Plant, turns: u32) -> u32 {
    let mut held = 0_u32;
    for turn in 0..turns {
        let outcome = analyse(plant, plant.opening(), Loss::Intact, demand(turn));
        if matches!(outcome, certificate::Outcome::Holds { .. }) {
            held = held.saturating_add(1);
        }
    }
    held
}

/// How many of so many checks of one verdict find it valid.
fn valid(plant: &Plant, turns: u32) -> u32 {
    let outcome = analyse(plant, plant.opening(), Loss::Intact, demand(0));
    let mut valid = 0_u32;
    for _ in 0..turns {
        if check(plant, plant.opening(), Loss::Intact, demand(0), &outcome).is_ok() {
            valid = valid.saturating_add(1);
        }
    }
    valid
}

fn main(rt: HostRuntime) -> io::Result<()> {
    let mut words = Vec::new(rt.alloc());
    for word in env::args(&rt)?.skip(1) {
        words.push(word)?;
    }
    let [work, plant, turns] = words.as_slice() else {
        return println!(rt; "analyse or check, a plant file, and a number");
    };
    let (Some(work), Ok(turns)) = (work_of(work.as_str()), turns.as_str().parse::<u32>()) else {
        return println!(rt; "analyse or check, a plant file, and a number");
    };
    let mut source = LazyFile::new(&rt, plant.as_str());
    let Ok(plant) = plant_from(rt.alloc(), plant.as_str(), &mut source) else {
        return println!(rt; "no plant");
    };
    let count = match work {
        Work::Analyse => held(&plant, turns),
        Work::Check => valid(&plant, turns),
    };
    println!(rt; "{count} of {turns}")
}
