//! Two callers in threads of their own.
ghost use Rattle.std.specs.Prelude.{◌≡◌};
ghost use Rattle.plant_book.specs.Books.{IsOf};

use crate::demo_book::started;
use allocator::Direct;
use dp_io::NoGate;
use plant_book::{Book, BookPass};
use plant_core::{Call, Entry};
use std::sync::Wait;
use std::test::Fail;
use std::thread::{Threads, join};
use telegram::Telegram;

const CALLS: u32 = 1000;

/// Acknowledges so many alarms from the first on, of which there is none, and gives the pass back.
fn acknowledge_all<R: Wait>(
    rt: &R,
    book: &Book<Direct, NoGate>,
    mut pass: BookPass,
    count: u32,
) -> BookPass
    requires { IsOf book.now pass }
    ensures { IsOf book.now result }
{
    for number in 0..count {
        let call = Telegram::Ack { number: number + 1 };
        if book.operator_call(rt, &mut pass, call).is_err() {
            break;
        }
    }
    pass
}

fn in_two_threads<R: Threads + Wait + Sync>(
    rt: &R,
    book: &Book<Direct, NoGate>,
    one: BookPass,
    two: BookPass,
) -> (BookPass, BookPass)
    requires one { IsOf book.now one }
    requires two { IsOf book.now two }
    ensures one { IsOf book.now result.0 }
    ensures two { IsOf book.now result.1 }
{
    join(
        rt,
        move || -> BookPass
            requires { IsOf book.now one }
            ensures { IsOf book.entry.now result }
        { acknowledge_all(rt, book, one, CALLS) },
        move || -> BookPass
            requires { IsOf book.now two }
            ensures { IsOf book.entry.now result }
        { acknowledge_all(rt, book, two, CALLS) },
    )
}

fn take_turns<R: Threads + Wait + Sync>(rt: &R, book: &Book<Direct, NoGate>, root: &mut BookPass)
    requires of { IsOf book.now root.old }
    requires root { root.old.shown.caller ≡ 0 }
    requires next { root.old.shown.next ≡ 1 }
    requires away { root.old.shown.away ≡ 0 }
    ensures of { IsOf book.now root.new }
    ensures root { root.new.shown.caller ≡ 0 }
    ensures away { root.new.shown.away ≡ 0 }
{
    let one = book.pass(root).unwrap();
    let two = book.pass(root).unwrap();
    let (one, two) = in_two_threads(rt, book, one, two);
    book.take_back(root, one);
    book.take_back(root, two);
}

/// The number of the alarm that a caller's entry is about.
fn number_of(entry: &Entry, caller: u32) -> Option<u32> {
    match entry.call {
        Call::Telegram(Telegram::Ack { number }) if entry.caller == caller => Some(number),
        _ => None,
    }
}

#[test]
fn two_callers_in_threads(rt: HostRuntime) -> Result<(), Fail> {
    let (book, mut root) = match started(&rt, rt.alloc(), 2 * CALLS, NoGate) {
        Ok(pair) => pair,
        Err(no_memory) => return Ok(Err(no_memory)?),
    };
    take_turns(&rt, &book, &mut root);
    let core = book.close(&rt, root);
    for caller in 1..=2 {
        let numbers = core
            .history()
            .iter()
            .filter_map(|entry| number_of(entry, caller));
        assert!(rt; numbers.eq(1..=CALLS));
    }
    assert_eq!(rt; core.history().len(), 2000);
    Ok(())
}
