//! Displays of the board.
ghost use Rattle.std.specs.Prelude.{◌≡◌, ◌<◌};
ghost use Rattle.plant_book.specs.Books.{IsOf};

use crate::demo_book::{started, tie};
use allocator::Direct;
use dp_io::{Gate, NoGate, Stage};
use glance::{Glance, GlancePass};
use no_memory::NoMemory;
use plant_book::{Book, BookPass, PlantBoard};
use std::sync::Wait;
use std::sync::atomic::{AtomicU64, Ordering};
use std::test::Fail;
use std::thread::{Threads, join, yield_now};

/// The latest versions on a display: once it is shown the board, after an order and another showing,
/// and after an order alone.
fn look<R: Wait>(
    rt: &R,
    book: &Book<Direct, NoGate>,
    root: &mut BookPass,
) -> Result<[u32; 3], NoMemory>
    requires of { IsOf book.now root.old }
    requires root { root.old.shown.caller ≡ 0 }
    requires away { root.old.shown.away ≡ 0 }
    requires displays { root.old.displays ≡ 0 }
    ensures of { IsOf book.now root.new }
    ensures root { root.new.shown.caller ≡ 0 }
    ensures away { root.new.shown.away ≡ 0 }
{
    let mut display = book.display(root)?;
    book.show(rt, root, &mut display)?;
    let first = book.glance().board(&mut display).latest;
    book.operator_call(rt, root, tie(true))?;
    book.show(rt, root, &mut display)?;
    let second = book.glance().board(&mut display).latest;
    book.operator_call(rt, root, tie(false))?;
    let third = book.glance().board(&mut display).latest;
    Ok([first, second, third])
}

#[test]
fn a_display_follows_the_board(rt: HostRuntime) -> Result<(), Fail> {
    let (book, mut root) = match started(&rt, rt.alloc(), 2, NoGate) {
        Ok(pair) => pair,
        Err(no_memory) => return Ok(Err(no_memory)?),
    };
    let latest = look(&rt, &book, &mut root);
    book.close(&rt, root);
    assert_eq!(rt; latest?, [0, 1, 2]);
    Ok(())
}

// How often a thread looks before the test has failed.
const LOOKS: u32 = 5_000_000;

/// Holds the first pass, once it has its ticket, until a display was looked at.
#[derive(Drop)]
struct Holding {
    drawn: AtomicU64,
    looked: AtomicU64,
    late: AtomicU64,
}

impl Holding {
    fn new() -> Holding {
        Holding {
            drawn: AtomicU64::new(0),
            looked: AtomicU64::new(0),
            late: AtomicU64::new(0),
        }
    }

    /// Looks at a word until it is set, and takes down where that takes too long.
    fn until_set(&self, word: &AtomicU64) {
        for _ in 0..LOOKS {
            if word.load(Ordering::SeqCst) == 1 {
                return;
            }
            yield_now();
        }
        self.late.store(1, Ordering::SeqCst);
    }
}

impl Gate for Holding {
    fn reached(&self, stage: Stage) {
        if stage == Stage::Drawn(1) {
            self.drawn.store(1, Ordering::SeqCst);
            self.until_set(&self.looked);
        }
    }
}

/// Makes a call, and gives the pass back.
fn close_tie<R: Wait, G: Gate>(rt: &R, book: &Book<Direct, G>, mut pass: BookPass) -> BookPass
    requires { IsOf book.now pass }
    ensures { IsOf book.now result }
{
    let _ = book.operator_call(rt, &mut pass, tie(true));
    pass
}

/// Looks at the display once the pass has its ticket, and then lets the pass go on.
fn look_meanwhile(
    glance: &Glance<PlantBoard>,
    gate: &Holding,
    mut display: GlancePass<PlantBoard>,
) -> (u32, GlancePass<PlantBoard>)
    requires { display.glance ≡ glance.now.glance }
    ensures { result.1.glance ≡ glance.now.glance }
{
    gate.until_set(&gate.drawn);
    let latest = glance.board(&mut display).latest;
    gate.looked.store(1, Ordering::SeqCst);
    (latest, display)
}

/// The latest version on the display while the pass is held with its ticket; then the pass and the
/// display come back.
fn look_while_held<R: Threads + Wait + Sync, G: Gate + Sync>(
    rt: &R,
    book: &Book<Direct, G>,
    gate: &Holding,
    pass: BookPass,
    display: GlancePass<PlantBoard>,
) -> (BookPass, (u32, GlancePass<PlantBoard>))
    requires of { IsOf book.now pass }
    requires display { display.glance ≡ book.now.base.glance }
    ensures of { IsOf book.now result.0 }
    ensures display { result.1.1.glance ≡ book.now.base.glance }
{
    let glance = book.glance();
    join(
        rt,
        move || -> BookPass
            requires { IsOf book.now pass }
            ensures { IsOf book.entry.now result }
        { close_tie(rt, book, pass) },
        move || -> (u32, GlancePass<PlantBoard>)
            requires { display.glance ≡ glance.now.glance }
            ensures { result.1.glance ≡ glance.entry.now.glance }
        { look_meanwhile(glance, gate, display) },
    )
}

/// The latest versions on the display, before the held pass makes its call and after.
fn hold<R: Threads + Wait + Sync, G: Gate + Sync>(
    rt: &R,
    book: &Book<Direct, G>,
    gate: &Holding,
    root: &mut BookPass,
) -> Result<[u32; 2], NoMemory>
    requires of { IsOf book.now root.old }
    requires root { root.old.shown.caller ≡ 0 }
    requires next { root.old.shown.next ≡ 1 }
    requires away { root.old.shown.away ≡ 0 }
    requires displays { root.old.displays ≡ 0 }
    ensures of { IsOf book.now root.new }
    ensures root { root.new.shown.caller ≡ 0 }
    ensures away { root.new.shown.away ≡ 0 }
{
    let mut display = book.display(root)?;
    book.show(rt, root, &mut display)?;
    let pass = book.pass(root).unwrap();
    let (pass, (held, mut display)) = look_while_held(rt, book, gate, pass, display);
    book.take_back(root, pass);
    Ok([held, book.glance().board(&mut display).latest])
}

#[test]
fn a_display_waits_for_nobody(rt: HostRuntime) -> Result<(), Fail> {
    let gate = Holding::new();
    let (book, mut root) = match started(&rt, rt.alloc(), 1, &gate) {
        Ok(pair) => pair,
        Err(no_memory) => return Ok(Err(no_memory)?),
    };
    let latest = hold(&rt, &book, &gate, &mut root);
    book.close(&rt, root);
    assert_eq!(rt; latest?, [0, 1]);
    assert_eq!(rt; gate.late.load(Ordering::SeqCst), 0);
    Ok(())
}
