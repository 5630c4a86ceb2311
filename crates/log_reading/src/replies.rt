//! Replies by their fields.
ghost use Rattle.std.specs.Prelude.{◌≡◌, drop};
ghost use Rattle.telegram.specs.Telegrams.{fields_left};
ghost use Rattle.log_reading.specs.Fields.{at_first, ended, read_by, taken};
ghost use Rattle.log_reading.specs.Replies.{cell_of, cells_of, cells_with, commanded_of, refused_of};
ghost use Rattle.log_reading.specs.Replies.{reply_forms, reply_of, seen_of};

use crate::fields::{cut, first_field, next_field, only_u32, u32_at, u32_of, word_of};
use crate::outcomes::{allocation, place, wrench_at};
use arrayvec::ArrayVec;
use plant_core::{Cell, Cells, Reply};

/// What was shown of a group: a version's number, the verdict, and whether that version is the latest.
fn seen(field: &str) -> Option<Cell>
    ensures { result ≡ seen_of field.now }
{
    let (version, words) = cut(field, ':')?;
    let (verdict, state) = cut(words, ':')?;
    let version = u32_of(version)?;
    let holds = word_of(verdict, "HOLDS", "LOST")?;
    let current = word_of(state, "CURRENT", "SUPERSEDED")?;
    Some(Cell::Seen {
        version,
        holds,
        current,
    })
}

fn cell(field: &str) -> Option<Cell>
    ensures { result ≡ cell_of field.now }
{
    if field == "PENDING" {
        Some(Cell::Pending)
    } else {
        seen(field)
    }
}

fn cell_at(rest: Option<&str>) -> Option<(Cell, Option<&str>)>
    ensures { taken result ≡ at_first cell_of (fields_left rest.entry) }
{
    let (field, rest) = next_field(rest)?;
    let cell = cell(field)?;
    Some((cell, rest))
}

/// Cells to the last field, beside the latest version's number.
fn cells_with(latest: u32, fields: Option<&str>) -> Option<Cells>
    ensures { result ≡ cells_with latest (fields_left fields.entry) }
{
    let mut list = ArrayVec::new();
    let mut rest = fields;
    while rest.is_some() {
        if list.is_full() {
            return None;
        }
        let (cell, others) = cell_at(rest)?;
        list.push(cell);
        rest = others;
    }
    Some(Cells { latest, list })
}

fn cells(rest: Option<&str>) -> Option<Reply>
    ensures { result ≡ cells_of (fields_left rest.entry) }
{
    let (latest, rest) = u32_at(rest)?;
    let cells = cells_with(latest, rest)?;
    Some(Reply::Cells(cells))
}

fn commanded(rest: Option<&str>) -> Option<Reply>
    ensures { result ≡ commanded_of (fields_left rest.entry) }
{
    let (version, rest) = u32_at(rest)?;
    let (demand, rest) = wrench_at(rest)?;
    let allocation = allocation(rest)?;
    Some(Reply::Commanded {
        version,
        demand,
        allocation,
    })
}

fn refused(rest: Option<&str>) -> Option<Reply>
    ensures { result ≡ refused_of (fields_left rest.entry) }
{
    let place = place(rest)?;
    Some(Reply::Refused { place })
}

fn plain(rest: Option<&str>, reply: Reply) -> Option<Reply>
    ensures { result ≡ ended reply (fields_left rest.entry) }
{
    match rest {
        None => Some(reply),
        Some(_) => None,
    }
}

/// The reply of a kind that comes only of a verdict.
fn judged(kind: &str, rest: Option<&str>) -> Option<Reply>
    ensures { result ≡ read_by (drop 11 reply_forms) kind.now (fields_left rest.entry) }
{
    if kind == "SHOWN" {
        plain(rest, Reply::Shown)
    } else if kind == "SUPERSEDED" {
        let latest = only_u32(rest)?;
        Some(Reply::Superseded { latest })
    } else if kind == "UNKNOWN" {
        let latest = only_u32(rest)?;
        Some(Reply::Unknown { latest })
    } else if kind == "ALREADY" {
        plain(rest, Reply::Already)
    } else if kind == "REFUSED" {
        refused(rest)
    } else {
        None
    }
}

/// The reply of a kind that comes of no switch.
fn answered(kind: &str, rest: Option<&str>) -> Option<Reply>
    ensures { result ≡ read_by (drop 5 reply_forms) kind.now (fields_left rest.entry) }
{
    if kind == "COMMANDED" {
        commanded(rest)
    } else if kind == "LATE" {
        let last = only_u32(rest)?;
        Some(Reply::Late { last })
    } else if kind == "WRONG-MODE" {
        plain(rest, Reply::WrongMode)
    } else if kind == "NOTED" {
        plain(rest, Reply::Noted)
    } else if kind == "NO-SUCH-ALARM" {
        plain(rest, Reply::NoSuchAlarm)
    } else if kind == "CELLS" {
        cells(rest)
    } else {
        judged(kind, rest)
    }
}

/// The reply that a text is. None where it is no answer.
pub(crate) fn reply_of(text: &str) -> Option<Reply>
    ensures { result ≡ reply_of text.now }
{
    let (kind, rest) = first_field(text);
    if kind == "VERSION" {
        Some(Reply::Version(only_u32(rest)?))
    } else if kind == "SAME" {
        plain(rest, Reply::Same)
    } else if kind == "TAKEN" {
        plain(rest, Reply::Taken)
    } else if kind == "UNKNOWN-NAME" {
        plain(rest, Reply::UnknownName)
    } else if kind == "NO-PIECE" {
        plain(rest, Reply::NoPiece)
    } else {
        answered(kind, rest)
    }
}
