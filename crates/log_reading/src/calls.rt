//! Callers and calls by their texts.
ghost use Rattle.std.specs.Prelude.{◌≡◌, ◌<◌, IfSome};
ghost use Rattle.plant_model.specs.declared.limits.TheConstants.{MOST_GROUPS};
ghost use Rattle.telegram.specs.Telegrams.{fields, fields_left, telegram};
ghost use Rattle.log_reading.specs.Calls.{call_forms, call_of, caller_of, damage_of, damaged_of};
ghost use Rattle.log_reading.specs.Calls.{group_of, reject_of, rejected_of, telegram_of, verdict_of};
ghost use Rattle.log_reading.specs.Calls.{worker_of};
ghost use Rattle.log_reading.specs.Fields.{at_first, by_kind, ended, taken};

use crate::fields::{first_field, next_field, number_in, only_u32, u32_at};
use crate::outcomes::outcome;
use frame::{Body, Damage};
use plant_core::{Call, Note};
use plant_model::plant::Plant;
use telegram::Reject;

/// The caller whose worker's number this is, which stands after a `W`.
fn worker(text: &str) -> Option<u32>
    ensures { result ≡ worker_of text.now }
{
    let digits = text.strip_prefix('W')?;
    let number = number_in(digits, 1, i128::from(u32::MAX - 2))?;
    Some(number as u32 + 2)
}

/// The caller of a name: `S` for the session, `C` for the control loop, `O` for the operators, or `W` and a worker's
/// number.
pub(crate) fn caller_of(text: &str) -> Option<u32>
    ensures { result ≡ caller_of text.now }
{
    if text == "S" {
        Some(0)
    } else if text == "C" {
        Some(1)
    } else if text == "O" {
        Some(2)
    } else {
        worker(text)
    }
}

fn damage(number: u32) -> Option<Damage>
    ensures { result ≡ damage_of number }
{
    match number {
        1 => Some(Damage::Shape),
        2 => Some(Damage::TooLong),
        3 => Some(Damage::Checksum),
        4 => Some(Damage::Cut),
        _ => None,
    }
}

fn reject(number: u32) -> Option<Reject>
    ensures { result ≡ reject_of number }
{
    match number {
        1 => Some(Reject::Kind),
        2 => Some(Reject::Count),
        3 => Some(Reject::Number),
        4 => Some(Reject::Range),
        5 => Some(Reject::Word),
        _ => None,
    }
}

fn damaged(rest: Option<&str>) -> Option<Call>
    ensures { result ≡ damaged_of (fields_left rest.entry) }
{
    let number = only_u32(rest)?;
    let damage = damage(number)?;
    Some(Call::Note(Note::Damaged(damage)))
}

fn rejected(rest: Option<&str>) -> Option<Call>
    ensures { result ≡ rejected_of (fields_left rest.entry) }
{
    let number = only_u32(rest)?;
    let reject = reject(number)?;
    Some(Call::Note(Note::Rejected(reject)))
}

/// The place of the group of that name.
fn group_place(plant: &Plant, name: &str) -> Option<usize>
    ensures place { result ≡ group_of plant.now name.now }
    ensures fits { IfSome result (λ place. place < MOST_GROUPS) }
{
    let wanted = name.as_bytes();
    let groups = plant.groups().as_slice();
    groups.iter().position(|group| group.name.bytes() == wanted)
}

fn group_of(plant: &Plant, name: &str) -> Option<u32>
    ensures { result ≡ group_of plant.now name.now }
{
    let place = group_place(plant, name)?;
    Some(place as u32)
}

fn group_at<'a>(plant: &Plant, rest: Option<&'a str>) -> Option<(u32, Option<&'a str>)>
    ensures { taken result ≡ at_first (group_of plant.now) (fields_left rest.entry) }
{
    let (name, rest) = next_field(rest)?;
    let group = group_of(plant, name)?;
    Some((group, rest))
}

/// A version's number, the name of a group, and what comes of its loss.
fn verdict(plant: &Plant, rest: Option<&str>) -> Option<Call>
    ensures { result ≡ verdict_of plant.now (fields_left rest.entry) }
{
    let (version, rest) = u32_at(rest)?;
    let (group, rest) = group_at(plant, rest)?;
    let outcome = outcome(rest)?;
    Some(Call::Publish {
        version,
        group,
        outcome,
    })
}

fn plain(rest: Option<&str>, call: Call) -> Option<Call>
    ensures { result ≡ ended call (fields_left rest.entry) }
{
    match rest {
        None => Some(call),
        Some(_) => None,
    }
}

/// The call that a text is, where it is no telegram.
fn other_call(plant: &Plant, text: &str) -> Option<Call>
    ensures { result ≡ by_kind (call_forms plant.now) (fields text.now) }
{
    let (kind, rest) = first_field(text);
    if kind == "PUBLISH" {
        verdict(plant, rest)
    } else if kind == "DAMAGED" {
        damaged(rest)
    } else if kind == "REJECTED" {
        rejected(rest)
    } else if kind == "STRAY" {
        plain(rest, Call::Note(Note::Stray))
    } else if kind == "CLOSE" {
        plain(rest, Call::Close)
    } else {
        None
    }
}

fn telegram(text: &str) -> Option<Call>
    ensures { result ≡ telegram_of (telegram text.now) }
{
    let body = Body::of(text.as_bytes())?;
    let telegram = telegram::read(&body).ok()?;
    Some(Call::Telegram(telegram))
}

/// The call that a text is, of a plant.
pub(crate) fn call_of(plant: &Plant, text: &str) -> Option<Call>
    ensures { result ≡ call_of plant.now text.now }
{
    match other_call(plant, text) {
        Some(call) => Some(call),
        None => telegram(text),
    }
}
