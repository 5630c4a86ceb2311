//! Two callers that take turns on one thread.
ghost use Rattle.std.specs.Prelude.{◌≡◌};
ghost use Rattle.plant_model.specs.Demo.{demo_parts};
ghost use Rattle.plant_book.specs.Books.{IsOf};

use crate::demo_book::{started, tie};
use allocator::Direct;
use dp_io::NoGate;
use no_memory::NoMemory;
use plant_book::{Book, BookPass, Served};
use plant_core::{Cell, Note, Outcome, Reply};
use plant_model::thrust::Thrusts;
use std::sync::Wait;
use std::test::Fail;

/// What five calls are answered, the last of which is about an old version.
#[derive(Drop)]
struct Answers {
    tie: Served,
    board: Served,
    noted: Served,
    full: Served,
    old: Served,
}

fn ask<R: Wait>(
    rt: &R,
    book: &Book<Direct, NoGate>,
    one: &mut BookPass,
    two: &mut BookPass,
) -> Result<Answers, NoMemory>
    requires one { IsOf book.now one.old }
    requires two { IsOf book.now two.old }
    requires plant { book.now.base.plant ≡ demo_parts }
    ensures one { IsOf book.now one.new }
    ensures two { IsOf book.now two.new }
{
    let tie = book.operator_call(rt, one, tie(true))?;
    let board = book.board(rt, two)?;
    let noted = book.note(rt, one, Note::Stray)?;
    let full = book.note(rt, two, Note::Stray)?;
    let outcome = Outcome::Holds {
        choice: 0,
        q: 1,
        thrusts: Thrusts::default(),
    };
    let old = book.publish(rt, one, 0, 0, outcome)?;
    Ok(Answers {
        tie,
        board,
        noted,
        full,
        old,
    })
}

fn answered(reply: Reply) -> Served {
    Served { reply, made: None }
}

fn closes_the_tie(served: &Served) -> bool {
    served.reply == Reply::Version(1)
        && served
            .made
            .is_some_and(|made| made.number == 1 && made.status.closed[0])
}

/// The board of version 1, on which nothing was shown of two groups.
fn is_pending(served: &Served) -> bool {
    match &served.reply {
        Reply::Cells(cells) => {
            cells.latest == 1 && cells.list.as_slice() == [Cell::Pending, Cell::Pending].as_slice()
        }
        _ => false,
    }
}

fn are_expected(answers: &Answers) -> bool {
    closes_the_tie(&answers.tie)
        && is_pending(&answers.board)
        && answers.noted == answered(Reply::Noted)
        && answers.full == answered(Reply::JournalFull)
        && answers.old == answered(Reply::Superseded { latest: 1 })
}

/// Whether two callers are answered so, and the root then ends the session.
fn take_turns<R: Wait>(
    rt: &R,
    book: &Book<Direct, NoGate>,
    root: &mut BookPass,
) -> Result<bool, NoMemory>
    requires of { IsOf book.now root.old }
    requires root { root.old.shown.caller ≡ 0 }
    requires next { root.old.shown.next ≡ 1 }
    requires away { root.old.shown.away ≡ 0 }
    requires plant { book.now.base.plant ≡ demo_parts }
    ensures of { IsOf book.now root.new }
    ensures root { root.new.shown.caller ≡ 0 }
    ensures away { root.new.shown.away ≡ 0 }
{
    let mut one = book.pass(root).unwrap();
    let mut two = book.pass(root).unwrap();
    let answers = ask(rt, book, &mut one, &mut two);
    let _ = book.meet(&mut one, &mut two);
    book.take_back(root, one);
    book.take_back(root, two);
    let end = book.end(rt, root);
    let board = book.board(rt, root);
    let ended = end? == answered(Reply::Taken) && board? == answered(Reply::Closed);
    Ok(are_expected(&answers?) && ended)
}

#[test]
fn two_callers_take_turns(rt: HostRuntime) -> Result<(), Fail> {
    let (book, mut root) = match started(&rt, rt.alloc(), 3, NoGate) {
        Ok(pair) => pair,
        Err(no_memory) => return Ok(Err(no_memory)?),
    };
    let answers = take_turns(&rt, &book, &mut root);
    let core = book.close(&rt, root);
    assert_eq!(rt; core.history().len(), 5);
    assert!(rt; answers?);
    Ok(())
}
