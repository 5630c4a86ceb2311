//! The rest of those that wait for jobs.

use std::sync::atomic::{AtomicU64, Ordering};
use std::sync::{Condvar, Mutex, Wait};
use std::{hint, thread};

/// How often one who rests looks for a wake before it lets others run between its looks.
const SPINS: u32 = 100;

/// How often one who rests looks for a wake before it sleeps.
const LOOKS: u32 = 200;

/// A count of wakes, which those that rest wait to change. A worker takes the mark before it looks
/// into the queue, and rests where the queue was empty; who pushes a job wakes after it. So a job that
/// is pushed after the worker's look ends its rest. No clause speaks of the count.
#[derive(Drop)]
pub struct Rest {
    wakes: AtomicU64,
    // Who goes to sleep holds it from its last look at the count until it sleeps.
    bed: Mutex<()>,
    woken: Condvar,
}

impl Rest {
    pub fn new() -> Rest {
        Rest {
            wakes: AtomicU64::new(0),
            bed: Mutex::new(()),
            woken: Condvar::new(),
        }
    }

    /// The count, as a mark to rest at.
    pub fn mark(&self) -> u64 {
        self.wakes.load(Ordering::SeqCst)
    }

    /// Waits while the count is the mark: for a short while awake, and then asleep.
    pub fn rest<R: Wait>(&self, rt: &R, mark: u64) {
        for looks in 0..LOOKS {
            if self.mark() != mark {
                return;
            }
            if looks < SPINS {
                hint::spin_loop();
            } else {
                thread::yield_now();
            }
        }
        self.woken
            .wait_while(rt, self.bed.lock(rt), |_| self.mark() == mark);
    }

    /// Adds one to the count, modulo 2^64, and wakes all that rest. It makes a system call only where
    /// one sleeps or goes to sleep.
    pub fn wake<R: Wait>(&self, rt: &R) {
        self.wakes.fetch_add(1, Ordering::SeqCst);
        drop(self.bed.lock(rt));
        self.woken.notify_all();
    }
}
