//! A small value behind the lock.
ghost use Rattle.std.specs.Prelude.{◌≡◌, ◌++◌, ◌∷◌, [], false, IfOk, OnOk, OnErr};
ghost use Rattle.turn_lock.specs.Passes.{root_of};

use dp_io::{Gate, NoGate, Stage};
use no_memory::NoMemory;
use std::alloc::Global;
use std::sync::Wait;
use std::sync::atomic::{AtomicU64, Ordering};
use std::test::Fail;
use std::thread::{Threads, join};
use turn_lock::{Keeps, Pass, Turn};

/// An entry: who made it, and its number.
#[derive(Clone, Copy, Debug, PartialEq, Eq)]
pub struct Mark {
    pub caller: u32,
    pub number: u32,
}

/// A list of marks, with a number that never changes.
#[derive(Drop)]
pub struct Tally {
    pub name: u32,
    pub marks: Vec<Mark>,
}

impl Keeps for Tally {
    type Entry = Mark;

    type Base = u32;

    ghost entries = { λ t. t.marks.items };

    ghost base_of = { λ t. t.name };

    ghost caller_of = { λ mark. mark.caller };

    ghost any_base = { 0 };
}

/// A gate that counts the tickets that caller 2 draws.
#[derive(Drop)]
struct Counting {
    drawn: AtomicU64,
}

impl Gate for Counting {
    fn reached(&self, stage: Stage) {
        if stage == Stage::Drawn(2) {
            self.drawn.fetch_add(1, Ordering::SeqCst);
        }
    }
}

/// Adds a mark of the caller's, or leaves the tally as it is where there is no memory.
pub fn add<R: Wait>(
    rt: &R,
    turn: &Turn<Tally>,
    pass: &mut Pass<Tally>,
    mark: Mark,
) -> Result<(), NoMemory>
    requires lock { pass.old.lock ≡ turn.now }
    requires free { pass.old.holds ≡ false }
    requires own { mark.caller ≡ pass.old.caller }
    ensures mine { OnOk result (pass.new.mine ≡ pass.old.mine ++ mark ∷ []) }
    ensures kept { OnErr result (pass.new.mine ≡ pass.old.mine) }
    ensures lock { pass.new.lock ≡ pass.old.lock }
    ensures free { pass.new.holds ≡ false }
    ensures caller { pass.new.caller ≡ pass.old.caller }
{
    let mut tally = turn.enter(rt, pass, &NoGate);
    if tally.marks.reserve(1).is_err() {
        turn.leave(pass, tally);
        return Err(NoMemory);
    }
    tally.marks.push_reserved(mark);
    turn.leave_with(pass, tally);
    Ok(())
}

/// Adds marks with the numbers from 0 on, as long as there is memory, and gives the pass back.
fn add_all<R: Wait>(
    rt: &R,
    turn: &Turn<Tally>,
    mut pass: Pass<Tally>,
    caller: u32,
    count: u32,
) -> Pass<Tally>
    requires lock { pass.lock ≡ turn.now }
    requires free { pass.holds ≡ false }
    requires own { pass.caller ≡ caller }
    ensures lock { result.lock ≡ turn.now }
    ensures free { result.holds ≡ false }
{
    for number in 0..count {
        if add(rt, turn, &mut pass, Mark { caller, number }).is_err() {
            break;
        }
    }
    pass
}

/// Two callers take turns in threads of their own.
fn add_in_two_threads<R: Threads + Wait + Sync>(
    rt: &R,
    turn: &Turn<Tally>,
    one: Pass<Tally>,
    two: Pass<Tally>,
    count: u32,
) -> (Pass<Tally>, Pass<Tally>)
    requires one { (one.lock ≡ turn.now) × (one.holds ≡ false) × (one.caller ≡ 1) }
    requires two { (two.lock ≡ turn.now) × (two.holds ≡ false) × (two.caller ≡ 2) }
    ensures one { (result.0.lock ≡ turn.now) × (result.0.holds ≡ false) }
    ensures two { (result.1.lock ≡ turn.now) × (result.1.holds ≡ false) }
{
    join(
        rt,
        move || -> Pass<Tally>
            requires { (one.lock ≡ turn.now) × (one.holds ≡ false) × (one.caller ≡ 1) }
            ensures { (result.lock ≡ turn.entry.now) × (result.holds ≡ false) }
        { add_all(rt, turn, one, 1, count) },
        move || -> Pass<Tally>
            requires { (two.lock ≡ turn.now) × (two.holds ≡ false) × (two.caller ≡ 2) }
            ensures { (result.lock ≡ turn.entry.now) × (result.holds ≡ false) }
        { add_all(rt, turn, two, 2, count) },
    )
}

/// A lock round an empty tally.
fn started(alloc: Global) -> Result<(Turn<Tally>, Pass<Tally>), NoMemory>
    ensures { IfOk result (λ r. r.1 ≡ root_of r.0 7) }
{
    let tally = Tally {
        name: 7,
        marks: Vec::new(alloc),
    };
    match Turn::start(alloc, tally) {
        Ok(pair) => Ok(pair),
        Err((no_memory, _)) => Err(no_memory),
    }
}

#[test]
fn each_call_on_one_thread(rt: HostRuntime) -> Result<(), Fail> {
    let (turn, mut root) = started(rt.alloc())?;
    let mut one = turn.split(&mut root)?;
    let mut two = turn.split(&mut root)?;
    add(
        &rt,
        &turn,
        &mut one,
        Mark {
            caller: 1,
            number: 0,
        },
    )?;
    add(
        &rt,
        &turn,
        &mut two,
        Mark {
            caller: 2,
            number: 0,
        },
    )?;
    add(
        &rt,
        &turn,
        &mut one,
        Mark {
            caller: 1,
            number: 1,
        },
    )?;
    turn.meet(&mut two, &mut one)?;
    let gate = Counting {
        drawn: AtomicU64::new(0),
    };
    let tally = turn.enter(&rt, &mut two, &gate);
    let marks = tally.marks.len();
    turn.leave(&mut two, tally);
    assert_eq!(rt; (marks, gate.drawn.load(Ordering::SeqCst)), (3, 1));
    turn.join(&mut root, one);
    turn.join(&mut root, two);
    let tally = turn.close(root);
    let expected = [
        Mark {
            caller: 1,
            number: 0,
        },
        Mark {
            caller: 2,
            number: 0,
        },
        Mark {
            caller: 1,
            number: 1,
        },
    ];
    assert_eq!(rt; tally.name, 7);
    assert_eq!(rt; tally.marks.as_slice(), expected.as_slice());
    Ok(())
}

#[test]
fn two_callers_in_threads(rt: HostRuntime) -> Result<(), Fail> {
    const COUNT: u32 = 1000;
    let (turn, mut root) = started(rt.alloc())?;
    let one = turn.split(&mut root)?;
    let two = turn.split(&mut root)?;
    let (one, two) = add_in_two_threads(&rt, &turn, one, two, COUNT);
    turn.join(&mut root, one);
    turn.join(&mut root, two);
    let tally = turn.close(root);
    for caller in 1..=2 {
        let numbers = tally
            .marks
            .iter()
            .filter(|mark| mark.caller == caller)
            .map(|mark| mark.number);
        assert!(rt; numbers.eq(0..COUNT));
    }
    assert_eq!(rt; tally.marks.len(), 2000);
    Ok(())
}
