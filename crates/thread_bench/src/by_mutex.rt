//! The tally behind std's lock.
ghost use Rattle.std.specs.Prelude.{◌≤◌};

use crate::tally::Tally;
use std::alloc::Global;
use std::sync::{Mutex, Wait};
use std::thread::{Threads, join};

/// Adds as many entries of a caller, one a turn, while there is memory.
fn add_all<R: Wait>(rt: &R, tally: &Mutex<Tally>, caller: u32, count: u32) {
    for _ in 0..count {
        if tally.lock(rt).callers.push(caller).is_err() {
            break;
        }
    }
}

fn in_two<R: Threads + Wait + Sync>(rt: &R, tally: &Mutex<Tally>, caller: u32, count: u32)
    requires { caller ≤ 1000 }
{
    join(
        rt,
        || add_all(rt, tally, caller, count),
        || add_all(rt, tally, caller + 1, count),
    );
}

/// How many entries there are in the end.
fn counted(tally: Mutex<Tally>) -> Option<u64> {
    Some(tally.into_inner().callers.len() as u64)
}

pub fn one_thread<R: Threads + Wait + Sync>(rt: &R, alloc: Global, count: u32) -> Option<u64> {
    let tally = Mutex::new(Tally::new(alloc));
    add_all(rt, &tally, 0, count);
    counted(tally)
}

pub fn two_threads<R: Threads + Wait + Sync>(rt: &R, alloc: Global, count: u32) -> Option<u64> {
    let tally = Mutex::new(Tally::new(alloc));
    in_two(rt, &tally, 1, count);
    counted(tally)
}

pub fn four_threads<R: Threads + Wait + Sync>(rt: &R, alloc: Global, count: u32) -> Option<u64> {
    let tally = Mutex::new(Tally::new(alloc));
    let shared = &tally;
    join(
        rt,
        || in_two(rt, shared, 1, count),
        || in_two(rt, shared, 3, count),
    );
    counted(tally)
}
