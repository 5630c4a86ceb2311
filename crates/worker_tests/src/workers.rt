//! A worker that takes jobs, and the sweep after it, on the demo plant.
ghost use Rattle.std.specs.Prelude.{◌≡◌, [], IfOk};
ghost use Rattle.plant_model.specs.Demo.{demo_parts};
ghost use Rattle.plant_model.specs.declared.limits.TheConstants.{MOST_ENTRIES};
ghost use Rattle.plant_book.specs.Books.{IsOf, IsStarted};
ghost use Rattle.plant_book.specs.Telegrams.{IsOrder};
ghost use Rattle.telegram.specs.Telegrams.{IsTelegram};
ghost use Rattle.analysis_workers.specs.Works.{IsDisplayOf};

use allocator::Direct;
use analysis_jobs::{Job, Jobs, Rest};
use analysis_workers::{sweep, work};
use dp_io::{Gate, NoGate, Stage};
use glance::GlancePass;
use no_memory::NoMemory;
use plant_book::{Book, BookPass, PlantBoard};
use plant_core::{Call, Cell, Entry, Reply};
use plant_model::demo::demo;
use plant_model::limits::MOST_ENTRIES;
use plant_model::name::Name;
use std::alloc::Global;
use std::sync::Wait;
use std::sync::atomic::{AtomicU64, Ordering};
use std::test::Fail;
use telegram::Telegram;

/// Counts the jobs that are told as taken, and the calls that are told as answered.
#[derive(Drop)]
struct Told {
    taken: AtomicU64,
    answered: AtomicU64,
}

impl Told {
    fn new() -> Told {
        Told {
            taken: AtomicU64::new(0),
            answered: AtomicU64::new(0),
        }
    }
}

impl Gate for Told {
    fn reached(&self, stage: Stage) {
        match stage {
            Stage::JobTaken(1) => {
                self.taken.fetch_add(1, Ordering::SeqCst);
            }
            Stage::Answered(1) => {
                self.answered.fetch_add(1, Ordering::SeqCst);
            }
            _ => {}
        }
    }
}

fn started<R: Wait, G: Gate + Drop>(
    rt: &R,
    alloc: Global,
    gate: G,
) -> Result<(Book<Direct, G>, BookPass), NoMemory>
    ensures { IfOk result (λ r. IsStarted demo_parts MOST_ENTRIES r.0 r.1) }
{
    Book::start(rt, alloc, demo(), MOST_ENTRIES, Direct, gate)
}

/// The order to close the bus tie.
fn tie() -> Telegram
    ensures telegram { IsTelegram result }
    ensures order { IsOrder result }
{
    Telegram::Tie {
        name: Name::of(b"T1").unwrap(),
        closed: true,
    }
}

/// The caller, the version and the group of a verdict that is shown.
fn verdict_in(entry: &Entry) -> Option<[u32; 3]> {
    match entry.call {
        Call::Publish { version, group, .. } if entry.reply == Reply::Shown => {
            Some([entry.caller, version, group])
        }
        _ => None,
    }
}

/// A worker does the jobs, and stops.
fn do_jobs<R: Wait, G: Gate>(
    rt: &R,
    alloc: Global,
    book: &Book<Direct, G>,
    pass: &mut BookPass,
    eyes: &mut GlancePass<PlantBoard>,
    gate: &G,
    list: &[Job],
) -> Result<(), NoMemory>
    requires of { IsOf book.now pass.old }
    requires eyes { IsDisplayOf book.now.base eyes.old }
    ensures { IsOf book.now pass.new }
{
    let (jobs, mut own) = Jobs::new(alloc)?;
    for job in list {
        let _ = jobs.push(rt, &mut own, *job);
    }
    let _ = jobs.push(rt, &mut own, Job::Stop);
    work(rt, book, pass, &jobs, &mut own, &Rest::new(), eyes, gate)
}

/// A worker takes a job of version 0 and one of version 1 when its display shows version 1.
fn work_after_an_order<R: Wait, G: Gate>(
    rt: &R,
    alloc: Global,
    book: &Book<Direct, G>,
    root: &mut BookPass,
    gate: &G,
) -> Result<(), NoMemory>
    requires of { IsOf book.now root.old }
    requires root { root.old.shown.caller ≡ 0 }
    requires next { root.old.shown.next ≡ 1 }
    requires away { root.old.shown.away ≡ 0 }
    requires displays { root.old.displays ≡ 0 }
    ensures of { IsOf book.now root.new }
    ensures root { root.new.shown.caller ≡ 0 }
    ensures away { root.new.shown.away ≡ 0 }
{
    let old = Job::Analyse {
        version: book.latest(rt, root),
        group: 0,
    };
    book.operator_call(rt, root, tie())?;
    let new = Job::Analyse {
        version: book.latest(rt, root),
        group: 0,
    };
    let mut eyes = book.display(root)?;
    book.show(rt, root, &mut eyes)?;
    let mut pass = book.pass(root).unwrap();
    let answer = do_jobs(rt, alloc, book, &mut pass, &mut eyes, gate, &[old, new]);
    book.take_back(root, pass);
    answer
}

#[test]
fn a_worker_drops_a_job_before_the_version_on_its_display(rt: HostRuntime) -> Result<(), Fail> {
    let told = Told::new();
    let gate = &told;
    let (book, mut root) = match started(&rt, rt.alloc(), gate) {
        Ok(pair) => pair,
        Err(no_memory) => return Ok(Err(no_memory)?),
    };
    let answer = work_after_an_order(&rt, rt.alloc(), &book, &mut root, &gate);
    let core = book.close(&rt, root);
    answer?;
    assert_eq!(rt; core.history().len(), 2);
    assert!(rt; core.history().iter().filter_map(verdict_in).eq([[1, 1, 0]]));
    assert_eq!(rt; told.taken.load(Ordering::SeqCst), 1);
    assert_eq!(rt; told.answered.load(Ordering::SeqCst), 1);
    Ok(())
}

/// The second sweep finds each cell current.
fn sweep_twice<R: Wait>(
    rt: &R,
    book: &Book<Direct, NoGate>,
    root: &mut BookPass,
) -> Result<(), NoMemory>
    requires of { IsOf book.now root.old }
    requires root { root.old.shown.caller ≡ 0 }
    requires away { root.old.shown.away ≡ 0 }
    requires seen { root.old.shown.seen ≡ [] }
    ensures of { IsOf book.now root.new }
    ensures root { root.new.shown.caller ≡ 0 }
    ensures away { root.new.shown.away ≡ 0 }
{
    sweep(rt, book, root)?;
    sweep(rt, book, root)
}

#[test]
fn a_sweep_makes_the_board_current_once(rt: HostRuntime) -> Result<(), Fail> {
    let (book, mut root) = match started(&rt, rt.alloc(), NoGate) {
        Ok(pair) => pair,
        Err(no_memory) => return Ok(Err(no_memory)?),
    };
    let answer = sweep_twice(&rt, &book, &mut root);
    let core = book.close(&rt, root);
    answer?;
    assert_eq!(rt; core.history().len(), 2);
    assert!(rt;
        core.history()
            .iter()
            .filter_map(verdict_in)
            .eq([[0, 0, 0], [0, 0, 1]])
    );
    let cells = core.cells();
    let mut current = cells
        .list
        .iter()
        .map(|cell| matches!(cell, Cell::Seen { current: true, .. }));
    assert!(rt; current.all(|is| is));
    Ok(())
}
