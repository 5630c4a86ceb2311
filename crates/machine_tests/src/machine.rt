//! The machine of calls, with the direct allocator.
ghost use Rattle.std.specs.Prelude.{◌≤◌, IfSome};
ghost use Rattle.plant_model.specs.declared.limits.TheConstants.{MOST_ENTRIES};
ghost use Rattle.telegram.specs.Telegrams.{IsTelegram};

use allocator::Direct;
use arrayvec::ArrayVec;
use certificate::{Cuts, Outcome};
use frame::Body;
use plant_core::{Call, Core, Note, Reply};
use plant_model::demo::demo;
use plant_model::thrust::{Thrust, Thrusts};
use std::alloc::Global;
use std::test::Fail;
use telegram::Telegram;
use wrench_geometry::Vec3;

mod consequences;
mod positions;
mod reports;
mod sessions;
mod switching;
mod verdicts;

/// No thrust.
const REST: Thrust = Thrust { x: 0, y: 0 };

/// A telegram's body, and the reply to it.
type Answer = (&'static [u8], Reply);

/// The demo plant, with this limit of telegrams and notes.
fn demo_core(alloc: Global, limit: u32) -> Result<Core, Fail>
    requires { limit ≤ MOST_ENTRIES }
{
    Ok(Core::start(alloc, demo(), limit)?)
}

/// The telegram of the body.
fn telegram_of(text: &[u8]) -> Option<Telegram>
    ensures { IfSome result IsTelegram }
{
    let body = Body::of(text)?;
    match telegram::read(&body) {
        Ok(telegram) => Some(telegram),
        Err(_) => None,
    }
}

/// The reply to the telegram of the body, where there is one.
fn told(core: &mut Core, text: &[u8]) -> Option<Reply> {
    let telegram = telegram_of(text)?;
    core.apply(2, Call::Telegram(telegram), &Direct).ok()
}

fn is_told(core: &mut Core, text: &[u8], wanted: &Reply) -> bool {
    match told(core, text) {
        Some(reply) => reply == *wanted,
        None => false,
    }
}

/// The place of the first answer that isn't the one in the list.
fn first_other(core: &mut Core, answers: &[Answer]) -> Option<usize> {
    for (place, (text, wanted)) in answers.iter().enumerate() {
        if !is_told(core, text, wanted) {
            return Some(place);
        }
    }
    None
}

/// The version and the demand with which the position of the body is answered.
fn commanded(core: &mut Core, text: &[u8]) -> Option<(u32, i32, i32, i32)> {
    match told(core, text)? {
        Reply::Commanded {
            version,
            demand,
            ..
        } => Some((version, demand.x, demand.y, demand.n)),
        _ => None,
    }
}

fn is_noted(core: &mut Core, note: Note, wanted: &Reply) -> bool {
    match core.apply(1, Call::Note(note), &Direct) {
        Ok(reply) => reply == *wanted,
        Err(_) => false,
    }
}

fn is_ended(core: &mut Core, wanted: &Reply) -> bool {
    match core.apply(0, Call::Close, &Direct) {
        Ok(reply) => reply == *wanted,
        Err(_) => false,
    }
}

/// The demand holds in the first choice with these thrusts.
fn holds(thrusts: [Thrust; 4]) -> Outcome {
    let mut list = ArrayVec::new();
    list.try_extend_from_slice(&thrusts).unwrap();
    Outcome::Holds {
        choice: 0,
        q: 1,
        thrusts: Thrusts { list },
    }
}

/// The demand is farther to starboard than each of two choices reaches.
fn lost() -> Outcome {
    let starboard = Vec3 { x: 0, y: 1, z: 0 };
    let mut list = ArrayVec::new();
    list.push(starboard);
    list.push(starboard);
    Outcome::Lost {
        cuts: Cuts { list },
    }
}

/// The reply to a worker's verdict on the loss of the group, where there is such a group.
fn published(core: &mut Core, version: u32, group: u32, outcome: Outcome) -> Option<Reply> {
    if core.plant().groups().len() <= group as usize {
        return None;
    }
    let call = Call::Publish {
        version,
        group,
        outcome,
    };
    core.apply(3, call, &Direct).ok()
}

/// Whether the reply to the verdict of the version on the loss of the first group is this one.
fn is_judged(core: &mut Core, version: u32, outcome: Outcome, wanted: &Reply) -> bool {
    match published(core, version, 0, outcome) {
        Some(reply) => reply == *wanted,
        None => false,
    }
}

/// The operator takes over, and asks for 380 kN to starboard.
const MANUAL: [Answer; 2] = [
    (b"MOD,MANUAL", Reply::Taken),
    (b"MAN,0,380,0", Reply::Taken),
];

const TOO_MUCH: [Answer; 2] = [
    (b"MOD,MANUAL", Reply::Taken),
    (b"MAN,0,2000,0", Reply::Taken),
];

/// The tie is closed in version 2.
const CLOSED: [Answer; 1] = [(b"TIE,T1,CLOSE", Reply::Version(2))];

/// The plant with the demand of 2000 kN to starboard in version 1.
fn overloaded(alloc: Global) -> Result<Core, Fail> {
    let mut core = demo_core(alloc, 10)?;
    if first_other(&mut core, &TOO_MUCH).is_some() {
        return Err("no manual demand".into());
    }
    if commanded(&mut core, b"POS,1000,0,0,0") != Some((1, 0, 2000, 0)) {
        return Err("no command".into());
    }
    Ok(core)
}

/// The plant with the demand of 380 kN to starboard in version 1.
fn to_be_judged(alloc: Global) -> Result<Core, Fail> {
    let mut core = demo_core(alloc, 10)?;
    if first_other(&mut core, &MANUAL).is_some() {
        return Err("no manual demand".into());
    }
    if commanded(&mut core, b"POS,1000,0,0,0") != Some((1, 0, 380, 0)) {
        return Err("no command".into());
    }
    Ok(core)
}
