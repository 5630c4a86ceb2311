//! The demo plant as a book: its calls, and looks at displays while a caller is busy.
ghost use Rattle.std.specs.Prelude.{◌≡◌, ◌+◌, ◌<◌, All, IfSome};
ghost use Rattle.plant_book.specs.Books.{IsOf, IsStarted};
ghost use Rattle.plant_model.specs.Demo.{demo_parts};
ghost use Rattle.plant_model.specs.declared.limits.TheConstants.{MOST_ENTRIES};

use allocator::Direct;
use dp_io::NoGate;
use glance::{Glance, GlancePass};
use plant_book::{Book, BookPass, PlantBoard};
use plant_model::demo::demo;
use plant_model::limits::MOST_ENTRIES;
use std::alloc::Global;
use std::sync::Wait;
use std::sync::atomic::{AtomicU64, Ordering};
use std::thread;
use std::thread::{Threads, join};
use telegram::Telegram;

type DemoBook = Book<Direct, NoGate>;

/// Makes as many calls, while there is memory, and gives the pass back.
fn call_all<R: Wait>(rt: &R, book: &DemoBook, mut pass: BookPass, count: u32) -> BookPass
    requires { IsOf book.now pass }
    ensures { IsOf book.now result }
{
    for _ in 0..count {
        if book
            .operator_call(rt, &mut pass, Telegram::Ack { number: 1 })
            .is_err()
        {
            break;
        }
    }
    pass
}

fn call_in_two<R: Threads + Wait + Sync>(
    rt: &R,
    book: &DemoBook,
    one: BookPass,
    two: BookPass,
    counts: [u32; 2],
) -> (BookPass, BookPass)
    requires one { IsOf book.now one }
    requires two { IsOf book.now two }
    ensures one { IsOf book.now result.0 }
    ensures two { IsOf book.now result.1 }
{
    let [first, second] = counts;
    join(
        rt,
        move || -> BookPass
            requires { IsOf book.now one }
            ensures { IsOf book.entry.now result }
        { call_all(rt, book, one, first) },
        move || -> BookPass
            requires { IsOf book.now two }
            ensures { IsOf book.entry.now result }
        { call_all(rt, book, two, second) },
    )
}

/// Four callers make so many calls each.
fn call_in_four<R: Threads + Wait + Sync>(
    rt: &R,
    book: &DemoBook,
    root: &mut BookPass,
    counts: [u32; 4],
)
    requires of { IsOf book.now root.old }
    requires root { root.old.shown.caller ≡ 0 }
    requires next { root.old.shown.next ≡ 1 }
    requires away { root.old.shown.away ≡ 0 }
    ensures of { IsOf book.now root.new }
    ensures root { root.new.shown.caller ≡ 0 }
    ensures away { root.new.shown.away ≡ 0 }
{
    let [first, second, third, fourth] = counts;
    let one = book.pass(root).unwrap();
    let two = book.pass(root).unwrap();
    let three = book.pass(root).unwrap();
    let four = book.pass(root).unwrap();
    let ((one, two), (three, four)) = join(
        rt,
        move || -> (BookPass, BookPass)
            requires one { IsOf book.now one }
            requires two { IsOf book.now two }
            ensures one { IsOf book.entry.now result.0 }
            ensures two { IsOf book.entry.now result.1 }
        { call_in_two(rt, book, one, two, [first, second]) },
        move || -> (BookPass, BookPass)
            requires one { IsOf book.now three }
            requires two { IsOf book.now four }
            ensures one { IsOf book.entry.now result.0 }
            ensures two { IsOf book.entry.now result.1 }
        { call_in_two(rt, book, three, four, [third, fourth]) },
    );
    book.take_back(root, one);
    book.take_back(root, two);
    book.take_back(root, three);
    book.take_back(root, four);
}

fn started<R: Wait>(rt: &R, alloc: Global) -> Option<(DemoBook, BookPass)>
    ensures { IfSome result (λ r. IsStarted demo_parts MOST_ENTRIES r.0 r.1) }
{
    Book::start(rt, alloc, demo(), MOST_ENTRIES, Direct, NoGate).ok()
}

/// How many calls of four callers are answered.
pub fn calls<R: Threads + Wait + Sync>(rt: &R, alloc: Global, counts: [u32; 4]) -> Option<u64> {
    let (book, mut root) = started(rt, alloc)?;
    call_in_four(rt, &book, &mut root, counts);
    Some(book.close(rt, root).history().len() as u64)
}

/// A display, and how often it was looked at.
#[derive(Drop)]
struct Looker {
    display: GlancePass<PlantBoard>,
    looks: u64,
}

impl Looker {
    /// A display that was shown the board.
    fn new<R: Wait>(rt: &R, book: &DemoBook, root: &mut BookPass) -> Looker
        requires of { IsOf book.now root.old }
        requires root { root.old.shown.caller ≡ 0 }
        requires room { root.old.displays < 4 }
        ensures of { IsOf book.now root.new }
        ensures root { root.new.shown.caller ≡ 0 }
        ensures next { root.new.shown.next ≡ root.old.shown.next }
        ensures away { root.new.shown.away ≡ root.old.shown.away }
        ensures displays { root.new.displays ≡ root.old.displays + 1 }
        ensures looker { result.display.glance ≡ book.now.base.glance }
    {
        let mut display = book.display(root).unwrap();
        let _ = book.show(rt, root, &mut display);
        Looker { display, looks: 0 }
    }

    /// Looks until the calls are done.
    fn look(&mut self, glance: &Glance<PlantBoard>, done: &AtomicU64)
        requires { self.old.display.glance ≡ glance.now.glance }
    {
        for looks in 0..u64::MAX {
            if done.load(Ordering::SeqCst) == 1 {
                self.looks = looks;
                return;
            }
            glance.board(&mut self.display);
        }
    }
}

fn total(lookers: &[Looker]) -> u64 {
    lookers
        .iter()
        .fold(0, |sum, looker| u64::wrapping_add(sum, looker.looks))
}

/// One caller makes the calls, while the displays are looked at. Its pass comes back.
fn call_beside<R: Threads + Wait + Sync>(
    rt: &R,
    book: &DemoBook,
    pass: BookPass,
    lookers: &mut [Looker],
    count: u32,
) -> BookPass
    requires pass { IsOf book.now pass }
    requires lookers { All (λ looker. looker.display.glance ≡ book.now.base.glance) lookers.old }
    ensures { IsOf book.now result }
{
    let done = AtomicU64::new(0);
    let told = &done;
    let glance = book.glance();
    let (pass, ()) = join(
        rt,
        move || -> BookPass
            requires { IsOf book.now pass }
            ensures { IsOf book.entry.now result }
        {
            let pass = call_all(rt, book, pass, count);
            told.store(1, Ordering::SeqCst);
            pass
        },
        move ||
            requires { All (λ looker. looker.display.glance ≡ glance.now.glance) lookers.now }
        {
            thread::for_each_mut(
                rt,
                lookers,
                4,
                &|_, looker: &mut Looker| { looker.look(glance, told) },
            )
        },
    );
    pass
}

fn look_beside<R: Threads + Wait + Sync>(
    rt: &R,
    book: &DemoBook,
    root: &mut BookPass,
    displays: u32,
    count: u32,
) -> u64
    requires of { IsOf book.now root.old }
    requires root { root.old.shown.caller ≡ 0 }
    requires next { root.old.shown.next ≡ 1 }
    requires away { root.old.shown.away ≡ 0 }
    requires displays { root.old.displays ≡ 0 }
    ensures of { IsOf book.now root.new }
    ensures root { root.new.shown.caller ≡ 0 }
    ensures away { root.new.shown.away ≡ 0 }
{
    let one = Looker::new(rt, book, root);
    let two = Looker::new(rt, book, root);
    let three = Looker::new(rt, book, root);
    let four = Looker::new(rt, book, root);
    let pass = book.pass(root).unwrap();
    let mut lookers = [one, two, three, four];
    let pass = match displays {
        1 => call_beside(rt, book, pass, &mut lookers[..1], count),
        2 => call_beside(rt, book, pass, &mut lookers[..2], count),
        _ => call_beside(rt, book, pass, &mut lookers, count),
    };
    book.take_back(root, pass);
    total(&lookers)
}

/// How often one of some displays is looked at while one caller makes the calls.
pub fn looks<R: Threads + Wait + Sync>(
    rt: &R,
    alloc: Global,
    displays: u32,
    count: u32,
) -> Option<u64> {
    let (book, mut root) = started(rt, alloc)?;
    let looks = look_beside(rt, &book, &mut root, displays, count);
    book.close(rt, root);
    Some(looks)
}
