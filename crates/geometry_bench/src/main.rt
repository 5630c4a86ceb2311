//! Finds least cuts and exits of sums again and again, for `bench/geometry.py` to time. Three words: what is found,
//! `cut` or `exit`; the sums, `demo`, `corners` or `greatest`; and how often.
#![tactic(auto)]

ghost use Rattle.std.specs.Prelude.{◌≢◌};
ghost use Rattle.wrench_geometry.specs.Vectors.{zero_vector};
ghost use Rattle.wrench_geometry.specs.Wrenches.{IsDemandVector};

mod sums;

use exit_point::exit;
use separation::least_cut;
use std::{env, io};
use wrench_geometry::{Sums, Vec3};

/// What is found of sums.
#[derive(Clone, Copy)]
enum Found {
    Cut,
    Exit,
}

fn found_of(word: &str) -> Option<Found> {
    match word {
        "cut" => Some(Found::Cut),
        "exit" => Some(Found::Exit),
        _ => None,
    }
}

fn sums_of(word: &str) -> Option<Sums> {
    match word {
        "demo" => Some(sums::demo()),
        "corners" => Some(sums::corners()),
        "greatest" => Some(sums::greatest()),
        _ => None,
    }
}

/// The demand of a turn. Turns that follow one another have different ones.
fn demand(turn: u32) -> Vec3
    ensures within { IsDemandVector result }
    ensures not_zero { result ≢ zero_vector }
{
    let step = i64::from(turn % 1_000);
    Vec3 {
        x: 100 + step,
        y: 2_000 - step,
        z: 10 * step,
    }
}

/// How far the finds of so many turns lie along their demands, summed as far as that goes.
fn total(found: Found, sums: &Sums, turns: u32) -> u64 {
    let mut total = 0_u64;
    for turn in 0..turns {
        let demand = demand(turn);
        let part = match found {
            Found::Cut => least_cut(sums, demand).top,
            Found::Exit => exit(sums, demand).t,
        };
        total = total.wrapping_add(part.unsigned_abs());
    }
    total
}

fn main(rt: HostRuntime) -> io::Result<()> {
    let mut words = Vec::new(rt.alloc());
    for word in env::args(&rt)?.skip(1) {
        words.push(word)?;
    }
    let [found, sums, turns] = words.as_slice() else {
        return println!(rt; "cut or exit, demo, corners or greatest, and a number");
    };
    let (Some(found), Some(sums), Ok(turns)) = (
        found_of(found.as_str()),
        sums_of(sums.as_str()),
        turns.as_str().parse::<u32>(),
    ) else {
        return println!(rt; "cut or exit, demo, corners or greatest, and a number");
    };
    let total = total(found, &sums, turns);
    println!(rt; "{total}")
}
