//! The tally behind the turn.
ghost use Rattle.std.specs.Prelude.{◌≡◌, [], false, IfSome};
ghost use Rattle.turn_lock.specs.Passes.{root_of};

use crate::tally::Tally;
use dp_io::NoGate;
use std::alloc::Global;
use std::sync::Wait;
use std::thread::{Threads, join};
use turn_lock::{Pass, Turn};

/// Adds an entry of the pass's, and tells whether there was memory.
fn add<R: Wait>(rt: &R, turn: &Turn<Tally>, pass: &mut Pass<Tally>) -> bool
    requires lock { pass.old.lock ≡ turn.now }
    requires free { pass.old.holds ≡ false }
    ensures lock { pass.new.lock ≡ pass.old.lock }
    ensures free { pass.new.holds ≡ false }
    ensures caller { pass.new.caller ≡ pass.old.caller }
    ensures away { pass.new.away ≡ pass.old.away }
    ensures next { pass.new.next ≡ pass.old.next }
{
    let caller = pass.caller();
    let mut tally = turn.enter(rt, pass, &NoGate);
    if tally.callers.reserve(1).is_err() {
        turn.leave(pass, tally);
        return false;
    }
    tally.callers.push_reserved(caller);
    turn.leave_with(pass, tally);
    true
}

/// Adds as many entries, one a turn, while there is memory. The pass comes back.
fn add_all<R: Wait>(rt: &R, turn: &Turn<Tally>, mut pass: Pass<Tally>, count: u32) -> Pass<Tally>
    requires lock { pass.lock ≡ turn.now }
    requires free { pass.holds ≡ false }
    ensures lock { result.lock ≡ turn.now }
    ensures free { result.holds ≡ false }
    ensures caller { result.caller ≡ pass.caller }
    ensures away { result.away ≡ pass.away }
{
    for _ in 0..count {
        if !add(rt, turn, &mut pass) {
            break;
        }
    }
    pass
}

fn in_two<R: Threads + Wait + Sync>(
    rt: &R,
    turn: &Turn<Tally>,
    one: Pass<Tally>,
    two: Pass<Tally>,
    count: u32,
) -> (Pass<Tally>, Pass<Tally>)
    requires one { (one.lock ≡ turn.now) × (one.holds ≡ false) }
    requires two { (two.lock ≡ turn.now) × (two.holds ≡ false) }
    ensures one { (result.0.lock ≡ turn.now) × (result.0.holds ≡ false) }
    ensures two { (result.1.lock ≡ turn.now) × (result.1.holds ≡ false) }
{
    join(
        rt,
        move || -> Pass<Tally>
            requires { (one.lock ≡ turn.now) × (one.holds ≡ false) }
            ensures { (result.lock ≡ turn.entry.now) × (result.holds ≡ false) }
        { add_all(rt, turn, one, count) },
        move || -> Pass<Tally>
            requires { (two.lock ≡ turn.now) × (two.holds ≡ false) }
            ensures { (result.lock ≡ turn.entry.now) × (result.holds ≡ false) }
        { add_all(rt, turn, two, count) },
    )
}

fn in_four<R: Threads + Wait + Sync>(
    rt: &R,
    turn: &Turn<Tally>,
    one: Pass<Tally>,
    two: Pass<Tally>,
    three: Pass<Tally>,
    four: Pass<Tally>,
    count: u32,
) -> ((Pass<Tally>, Pass<Tally>), (Pass<Tally>, Pass<Tally>))
    requires one { (one.lock ≡ turn.now) × (one.holds ≡ false) }
    requires two { (two.lock ≡ turn.now) × (two.holds ≡ false) }
    requires three { (three.lock ≡ turn.now) × (three.holds ≡ false) }
    requires four { (four.lock ≡ turn.now) × (four.holds ≡ false) }
    ensures one { (result.0.0.lock ≡ turn.now) × (result.0.0.holds ≡ false) }
    ensures two { (result.0.1.lock ≡ turn.now) × (result.0.1.holds ≡ false) }
    ensures three { (result.1.0.lock ≡ turn.now) × (result.1.0.holds ≡ false) }
    ensures four { (result.1.1.lock ≡ turn.now) × (result.1.1.holds ≡ false) }
{
    join(
        rt,
        move || -> (Pass<Tally>, Pass<Tally>)
            requires one { (one.lock ≡ turn.now) × (one.holds ≡ false) }
            requires two { (two.lock ≡ turn.now) × (two.holds ≡ false) }
            ensures one { (result.0.lock ≡ turn.entry.now) × (result.0.holds ≡ false) }
            ensures two { (result.1.lock ≡ turn.entry.now) × (result.1.holds ≡ false) }
        { in_two(rt, turn, one, two, count) },
        move || -> (Pass<Tally>, Pass<Tally>)
            requires one { (three.lock ≡ turn.now) × (three.holds ≡ false) }
            requires two { (four.lock ≡ turn.now) × (four.holds ≡ false) }
            ensures one { (result.0.lock ≡ turn.entry.now) × (result.0.holds ≡ false) }
            ensures two { (result.1.lock ≡ turn.entry.now) × (result.1.holds ≡ false) }
        { in_two(rt, turn, three, four, count) },
    )
}

fn started(alloc: Global) -> Option<(Turn<Tally>, Pass<Tally>)>
    ensures { IfSome result (λ r. r.1 ≡ root_of r.0 tt) }
{
    Turn::start(alloc, Tally::new(alloc)).ok()
}

pub fn one_thread<R: Threads + Wait + Sync>(rt: &R, alloc: Global, count: u32) -> Option<u64> {
    let (turn, root) = started(alloc)?;
    let root = add_all(rt, &turn, root, count);
    Some(turn.close(root).callers.len() as u64)
}

pub fn two_threads<R: Threads + Wait + Sync>(rt: &R, alloc: Global, count: u32) -> Option<u64> {
    let (turn, mut root) = started(alloc)?;
    let one = turn.split(&mut root).ok()?;
    let two = turn.split(&mut root).ok()?;
    let (one, two) = in_two(rt, &turn, one, two, count);
    turn.join(&mut root, one);
    turn.join(&mut root, two);
    Some(turn.close(root).callers.len() as u64)
}

pub fn four_threads<R: Threads + Wait + Sync>(rt: &R, alloc: Global, count: u32) -> Option<u64> {
    let (turn, mut root) = started(alloc)?;
    let one = turn.split(&mut root).ok()?;
    let two = turn.split(&mut root).ok()?;
    let three = turn.split(&mut root).ok()?;
    let four = turn.split(&mut root).ok()?;
    let ((one, two), (three, four)) = in_four(rt, &turn, one, two, three, four, count);
    turn.join(&mut root, one);
    turn.join(&mut root, two);
    turn.join(&mut root, three);
    turn.join(&mut root, four);
    Some(turn.close(root).callers.len() as u64)
}
