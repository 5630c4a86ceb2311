//! Whole lines.
ghost use Rattle.std.specs.Prelude.{◌≡◌, All, IfNone, IfSome, IsTrue};
ghost use Rattle.plant_model.specs.Names.{is_name};
ghost use Rattle.plant_core.specs.declared.call.Entry.{Entry};
ghost use Rattle.log_reading.specs.Lines.{IsLineOf, LinesTellEntries, entry_of, entry_with};

use crate::calls::{call_of, caller_of};
use crate::fields::cut;
use crate::replies::reply_of;
use plant_core::Entry;
use plant_model::plant::Plant;
use std::str;

/// The entry of a caller, a call of the plant and a reply.
fn entry_with(plant: &Plant, caller: &str, call: &str, reply: &str) -> Option<Entry>
    ensures { result ≡ entry_with plant.now caller.now call.now reply.now }
{
    Some(Entry {
        caller: caller_of(caller)?,
        call: call_of(plant, call)?,
        reply: reply_of(reply)?,
    })
}

fn entry_of(plant: &Plant, text: &str) -> Option<Entry>
    ensures { result ≡ entry_of plant.now text.now }
{
    let (caller, rest) = cut(text, ' ')?;
    let (call, rest) = cut(rest, ' ')?;
    let (sign, reply) = cut(rest, ' ')?;
    if sign == "=" {
        entry_with(plant, caller, call, reply)
    } else {
        None
    }
}

/// Each redundancy group has a name that is one.
fn groups_are_named(plant: &Plant)
    ensures { All (λ group. IsTrue (is_name group.name)) plant.now.groups.items }
{
    for group in plant.groups().as_slice() {
        let _name = group.name.bytes();
    }
}

/// The entry of which this is the log's line, without the line feed that ends it. None exactly where it is no entry's
/// line: a call is one of the plant within its ranges, a reply is an answer, each number is one of its type in its
/// one spelling, and there are no more thrusts, cuts and cells than a program holds.
pub fn read_entry(plant: &Plant, line: &[u8]) -> Option<Entry>
    ensures found { IfSome result (λ entry. IsLineOf plant.now line.now entry) }
    ensures none { IfNone result ((entry : Entry) → ¬ IsLineOf plant.now line.now entry) }
{
    groups_are_named(plant);
    let _parts = plant.parts();
    match str::from_utf8(line) {
        Ok(text) => entry_of(plant, text),
        Err(_) => None,
    }
}

/// A line is that of one entry at most.
pub fn lines_tell_entries(plant: &Plant)
    ensures { LinesTellEntries plant.now }
{
    groups_are_named(plant);
    let _parts = plant.parts();
}
