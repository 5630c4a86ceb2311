//! Gates that hold callers back until others got somewhere, which they do where the program runs them side by side. A
//! caller is held for so many turns at most: a program that never lets it go fails the test and doesn't hang.

use dp_io::{Gate, Stage};
use std::sync::atomic::AtomicU64;
use std::sync::atomic::Ordering::SeqCst;
use std::thread;

/// The turns that a caller is held for at most.
const TURNS: u64 = 5_000_000;

/// Whether callers were held for too long.
#[derive(Drop)]
pub(crate) struct Patience {
    late: AtomicU64,
}

impl Patience {
    fn new() -> Patience {
        Patience {
            late: AtomicU64::new(0),
        }
    }

    /// Waits until the word is no longer 0.
    fn until(&self, word: &AtomicU64) {
        for _ in 0..TURNS {
            if word.load(SeqCst) != 0 {
                return;
            }
            thread::yield_now();
        }
        self.late.store(1, SeqCst);
    }

    /// Whether no caller was held for so long that it was let go.
    pub(crate) fn was_enough(&self) -> bool {
        self.late.load(SeqCst) == 0
    }
}

/// Holds the first worker that takes a job until another worker and the operators' loop have answers, and that loop at its
/// first item until the other worker has one.
#[derive(Drop)]
pub(crate) struct HeldWorker {
    pub(crate) patience: Patience,
    held: AtomicU64,
    other: AtomicU64,
    operators: AtomicU64,
}

impl HeldWorker {
    pub(crate) fn new() -> HeldWorker {
        HeldWorker {
            patience: Patience::new(),
            held: AtomicU64::new(0),
            other: AtomicU64::new(0),
            operators: AtomicU64::new(0),
        }
    }
}

impl Gate for HeldWorker {
    fn reached(&self, stage: Stage) {
        match stage {
            Stage::JobTaken(caller) => {
                if self
                    .held
                    .compare_exchange(0, u64::from(caller), SeqCst, SeqCst)
                    .is_ok()
                {
                    self.patience.until(&self.other);
                    self.patience.until(&self.operators);
                }
            }
            Stage::Item(2) => self.patience.until(&self.other),
            Stage::Answered(2) => self.operators.store(1, SeqCst),
            Stage::Answered(caller) if caller >= 3 => {
                if self.held.load(SeqCst) != u64::from(caller) {
                    self.other.store(1, SeqCst);
                }
            }
            _ => {}
        }
    }
}

/// Holds the control loop at its first item until the operators' loop has drawn its ticket, and that loop there until the
/// control loop has drawn one too.
#[derive(Drop)]
pub(crate) struct BothLoops {
    pub(crate) patience: Patience,
    control: AtomicU64,
    operators: AtomicU64,
}

impl BothLoops {
    pub(crate) fn new() -> BothLoops {
        BothLoops {
            patience: Patience::new(),
            control: AtomicU64::new(0),
            operators: AtomicU64::new(0),
        }
    }
}

impl Gate for BothLoops {
    fn reached(&self, stage: Stage) {
        match stage {
            Stage::Item(1) => self.patience.until(&self.operators),
            Stage::Drawn(1) => self.control.store(1, SeqCst),
            Stage::Drawn(2) => {
                self.operators.store(1, SeqCst);
                self.patience.until(&self.control);
            }
            _ => {}
        }
    }
}

/// Counts the items of the two loops, and holds each loop at its first until a worker has taken a job.
#[derive(Drop)]
pub(crate) struct CountedItems {
    pub(crate) patience: Patience,
    taken: AtomicU64,
    sensors: AtomicU64,
    operators: AtomicU64,
}

impl CountedItems {
    pub(crate) fn new() -> CountedItems {
        CountedItems {
            patience: Patience::new(),
            taken: AtomicU64::new(0),
            sensors: AtomicU64::new(0),
            operators: AtomicU64::new(0),
        }
    }

    fn count(&self, items: &AtomicU64) {
        if items.fetch_add(1, SeqCst) == 0 {
            self.patience.until(&self.taken);
        }
    }

    /// How many items the sensors' loop had, and how many the operators'.
    pub(crate) fn counts(&self) -> (u64, u64) {
        (self.sensors.load(SeqCst), self.operators.load(SeqCst))
    }
}

impl Gate for CountedItems {
    fn reached(&self, stage: Stage) {
        match stage {
            Stage::JobTaken(_) => self.taken.store(1, SeqCst),
            Stage::Item(1) => self.count(&self.sensors),
            Stage::Item(2) => self.count(&self.operators),
            _ => {}
        }
    }
}
