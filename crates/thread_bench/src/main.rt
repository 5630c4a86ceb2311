//! Takes turns in threads, for `bench/turns.py` and `bench/book.py` to time. Three words: what is done; the number of
//! threads, 1, 2 or 4; and how often. `turn` and `mutex` add entries to a tally behind the lock, or behind std's. `book`
//! and `core` make calls of the demo plant through a book, or of its machine behind std's lock. `displays` and `cells`
//! look at the board of these for as long as one caller makes calls.
#![tactic(auto)]

mod by_book;
mod by_core;
mod by_mutex;
mod by_turn;
mod tally;

use std::alloc::Global;
use std::sync::Wait;
use std::thread::Threads;
use std::{env, io};

/// What to time.
#[derive(Clone, Copy)]
enum Work {
    Turn,
    Mutex,
    Book,
    Core,
    Displays,
    Cells,
}

fn work_of(word: &str) -> Option<Work> {
    match word {
        "turn" => Some(Work::Turn),
        "mutex" => Some(Work::Mutex),
        "book" => Some(Work::Book),
        "core" => Some(Work::Core),
        "displays" => Some(Work::Displays),
        "cells" => Some(Work::Cells),
        _ => None,
    }
}

/// How often each of four threads does it, of which the first ones do.
fn shares(threads: u32, count: u32) -> [u32; 4] {
    match threads {
        1 => [count, 0, 0, 0],
        2 => [count / 2, count / 2, 0, 0],
        _ => [count / 4; 4],
    }
}

/// How many entries there are in the end, or how often someone looked. None where there is no memory.
fn done<R: Threads + Wait + Sync>(
    rt: &R,
    alloc: Global,
    work: Work,
    threads: u32,
    count: u32,
) -> Option<u64> {
    match (work, threads) {
        (Work::Turn, 1) => by_turn::one_thread(rt, alloc, count),
        (Work::Turn, 2) => by_turn::two_threads(rt, alloc, count / 2),
        (Work::Turn, _) => by_turn::four_threads(rt, alloc, count / 4),
        (Work::Mutex, 1) => by_mutex::one_thread(rt, alloc, count),
        (Work::Mutex, 2) => by_mutex::two_threads(rt, alloc, count / 2),
        (Work::Mutex, _) => by_mutex::four_threads(rt, alloc, count / 4),
        (Work::Book, _) => by_book::calls(rt, alloc, shares(threads, count)),
        (Work::Core, _) => by_core::calls(rt, alloc, shares(threads, count)),
        (Work::Displays, _) => by_book::looks(rt, alloc, threads, count),
        (Work::Cells, _) => by_core::looks(rt, alloc, threads, count),
    }
}

const USAGE: &str = "turn, mutex, book, core, displays or cells, 1, 2 or 4, and a number";

fn main(rt: HostRuntime) -> io::Result<()> {
    let mut words = Vec::new(rt.alloc());
    for word in env::args(&rt)?.skip(1) {
        words.push(word)?;
    }
    let [work, threads, count] = words.as_slice() else {
        return println!(rt; "{USAGE}");
    };
    let (Some(work), Ok(threads), Ok(count)) = (
        work_of(work.as_str()),
        threads.as_str().parse::<u32>(),
        count.as_str().parse::<u32>(),
    ) else {
        return println!(rt; "{USAGE}");
    };
    match done(&rt, rt.alloc(), work, threads, count) {
        Some(count) => println!(rt; "{count}"),
        None => println!(rt; "no memory"),
    }
}
