//! The demo plant's machine behind std's lock: its calls, and looks at its board while a caller is busy.
use allocator::Direct;
use plant_core::{Call, Core};
use plant_model::demo::demo;
use plant_model::limits::MOST_ENTRIES;
use std::alloc::Global;
use std::sync::atomic::{AtomicU64, Ordering};
use std::sync::{Mutex, Wait};
use std::thread;
use std::thread::{Threads, join};
use telegram::Telegram;

/// Makes as many calls, while there is memory.
fn call_all<R: Wait>(rt: &R, core: &Mutex<Core>, count: u32) {
    for _ in 0..count {
        let call = Call::Telegram(Telegram::Ack { number: 1 });
        if core.lock(rt).apply(1, call, &Direct).is_err() {
            break;
        }
    }
}

fn started(alloc: Global) -> Option<Mutex<Core>> {
    Some(Mutex::new(Core::start(alloc, demo(), MOST_ENTRIES).ok()?))
}

/// How many calls of four callers are answered.
pub fn calls<R: Threads + Wait + Sync>(rt: &R, alloc: Global, mut counts: [u32; 4]) -> Option<u64> {
    let core = started(alloc)?;
    thread::for_each_mut(
        rt,
        &mut counts,
        4,
        &|_, count: &mut u32| call_all(rt, &core, *count),
    );
    Some(core.into_inner().history().len() as u64)
}

/// Looks at the board until the calls are done, and tells how often.
fn look<R: Wait>(rt: &R, core: &Mutex<Core>, done: &AtomicU64) -> u64 {
    for looks in 0..u64::MAX {
        if done.load(Ordering::SeqCst) == 1 {
            return looks;
        }
        core.lock(rt).cells();
    }
    u64::MAX
}

/// How often the board is looked at by some threads while one caller makes the calls.
pub fn looks<R: Threads + Wait + Sync>(
    rt: &R,
    alloc: Global,
    lookers: u32,
    count: u32,
) -> Option<u64> {
    let core = started(alloc)?;
    let done = AtomicU64::new(0);
    let looks = AtomicU64::new(0);
    let mut numbers = [0, 1, 2, 3];
    join(
        rt,
        || {
            call_all(rt, &core, count);
            done.store(1, Ordering::SeqCst);
        },
        || {
            thread::for_each_mut(
                rt,
                &mut numbers,
                4,
                &|_, number: &mut u32| {
                    if *number < lookers {
                        looks.fetch_add(look(rt, &core, &done), Ordering::SeqCst);
                    }
                },
            )
        },
    );
    Some(looks.load(Ordering::SeqCst))
}
