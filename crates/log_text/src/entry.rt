//! The log of a history: its first line, and a line for each entry.
ghost use Rattle.std.specs.Prelude.{◌≡◌, ◌<◌, ◌++◌, IfOk, IsTrue, OnOk, length, string_bytes};
ghost use Rattle.plant_core.specs.Machine.{IsCall, is_answer};
ghost use Rattle.plant_core.specs.declared.call.Reply.TheVariants.{Refused};
ghost use Rattle.log_text.specs.Texts.{caller_text, call_text, cell_text, cells_text};
ghost use Rattle.log_text.specs.Texts.{commanded_text, entry_text, group_name, log_head, note_text};
ghost use Rattle.log_text.specs.Texts.{place_text, reply_text, verdict_text};

use crate::outcome::{push_given_part, push_outcome, push_wrench};
use certificate::{Outcome, Place};
use no_memory::NoMemory;
use plant_core::{Allocation, Call, Cell, Cells, Entry, Note, Reply};
use plant_model::name::Name;
use plant_model::plant::Plant;
use plant_model::wrench::Wrench;
use std::alloc::{AllocError, Global};

/// Appends `S` for the session, `C` for the control loop, `O` for the operators, or `W` and a worker's number.
fn push_caller(text: &mut String, caller: u32) -> Result<(), AllocError>
    ensures { OnOk result (string_bytes text.new ≡ string_bytes text.old ++ caller_text caller) }
{
    match caller {
        0 => text.push_str("S"),
        1 => text.push_str("C"),
        2 => text.push_str("O"),
        _ => {
            let worker = caller - 2;
            write!(text, "W{worker}")
        }
    }
}

fn push_note(text: &mut String, note: &Note) -> Result<(), AllocError>
    ensures { OnOk result (string_bytes text.new ≡ string_bytes text.old ++ note_text note.now) }
{
    match note {
        Note::Damaged(damage) => {
            let number = damage.number();
            write!(text, "DAMAGED,{number}")
        }
        Note::Rejected(reject) => {
            let number = reject.number();
            write!(text, "REJECTED,{number}")
        }
        Note::Stray => text.push_str("STRAY"),
    }
}

fn name_of_group(plant: &Plant, group: u32) -> &Name
    requires { group < length plant.now.groups.items }
    ensures { result.now ≡ group_name plant.now group }
{
    &plant.groups().as_slice()[group as usize].name
}

/// Appends a verdict of a version on the loss of a group of the plant.
fn push_verdict(
    text: &mut String,
    plant: &Plant,
    version: u32,
    group: u32,
    outcome: &Outcome,
) -> Result<(), AllocError>
    requires { group < length plant.now.groups.items }
    ensures { OnOk result (string_bytes text.new
        ≡ string_bytes text.old ++ verdict_text plant.now version group outcome.now) }
{
    let name = name_of_group(plant, group);
    write!(text, "PUBLISH,{version},{name},")?;
    push_outcome(text, outcome)
}

fn push_call(text: &mut String, plant: &Plant, call: &Call) -> Result<(), AllocError>
    requires { IsCall plant.now call.now }
    ensures { OnOk result (string_bytes text.new
        ≡ string_bytes text.old ++ call_text plant.now call.now) }
{
    match call {
        Call::Telegram(telegram) => text.push_str(telegram::write(telegram).as_str()),
        Call::Note(note) => push_note(text, note),
        Call::Publish {
            version,
            group,
            outcome,
        } => push_verdict(text, plant, *version, *group, outcome),
        Call::Close => text.push_str("CLOSE"),
    }
}

/// Appends a version's number, what was asked of the thrusters, and what they are to give.
fn push_command(
    text: &mut String,
    version: u32,
    demand: &Wrench,
    allocation: &Allocation,
) -> Result<(), AllocError>
    ensures { OnOk result (string_bytes text.new
        ≡ string_bytes text.old ++ commanded_text version demand.now allocation.now) }
{
    write!(text, "COMMANDED,{version},")?;
    push_wrench(text, demand)?;
    text.push_str(",")?;
    push_given_part(text, allocation)
}

fn push_cell(text: &mut String, cell: &Cell) -> Result<(), AllocError>
    ensures { OnOk result (string_bytes text.new ≡ string_bytes text.old ++ cell_text cell.now) }
{
    match cell {
        Cell::Pending => text.push_str(",PENDING"),
        Cell::Seen {
            version,
            holds,
            current,
        } => {
            let verdict = if *holds { "HOLDS" } else { "LOST" };
            let state = if *current { "CURRENT" } else { "SUPERSEDED" };
            write!(text, ",{version}:{verdict}:{state}")
        }
    }
}

/// Appends the latest version's number and the state of each group's cell.
fn push_cells(text: &mut String, cells: &Cells) -> Result<(), AllocError>
    ensures { OnOk result (string_bytes text.new ≡ string_bytes text.old ++ cells_text cells.now) }
{
    let latest = cells.latest;
    write!(text, "CELLS,{latest}")?;
    for cell in cells.list.as_slice() {
        push_cell(text, cell)?;
    }
    Ok(())
}

/// Appends where an outcome first fails.
fn push_place(text: &mut String, place: Place) -> Result<(), AllocError>
    ensures { OnOk result (string_bytes text.new ≡ string_bytes text.old ++ place_text place) }
{
    match place {
        Place::Denominator => text.push_str("DENOMINATOR"),
        Place::Choice => text.push_str("CHOICE"),
        Place::ThrustCount => text.push_str("THRUST-COUNT"),
        Place::Thruster(thruster) => write!(text, "THRUSTER,{thruster}"),
        Place::Sum => text.push_str("SUM"),
        Place::CutCount => text.push_str("CUT-COUNT"),
        Place::Cut(choice) => write!(text, "CUT,{choice}"),
    }
}

fn push_refusal(text: &mut String, place: Place) -> Result<(), AllocError>
    ensures { OnOk result (string_bytes text.new
        ≡ string_bytes text.old ++ reply_text (Refused place)) }
{
    text.push_str("REFUSED,")?;
    push_place(text, place)
}

/// Appends the text of an answer. `JournalFull` and `Closed` are no answers and have none.
fn push_reply(text: &mut String, reply: &Reply) -> Result<(), AllocError>
    requires { IsTrue (is_answer reply.now) }
    ensures { OnOk result (string_bytes text.new ≡ string_bytes text.old ++ reply_text reply.now) }
{
    match reply {
        Reply::Version(number) => write!(text, "VERSION,{number}"),
        Reply::Same => text.push_str("SAME"),
        Reply::Taken => text.push_str("TAKEN"),
        Reply::UnknownName => text.push_str("UNKNOWN-NAME"),
        Reply::NoPiece => text.push_str("NO-PIECE"),
        Reply::Commanded {
            version,
            demand,
            allocation,
        } => push_command(text, *version, demand, allocation),
        Reply::Late { last } => write!(text, "LATE,{last}"),
        Reply::WrongMode => text.push_str("WRONG-MODE"),
        Reply::Noted => text.push_str("NOTED"),
        Reply::NoSuchAlarm => text.push_str("NO-SUCH-ALARM"),
        Reply::Cells(cells) => push_cells(text, cells),
        Reply::Shown => text.push_str("SHOWN"),
        Reply::Superseded { latest } => write!(text, "SUPERSEDED,{latest}"),
        Reply::Unknown { latest } => write!(text, "UNKNOWN,{latest}"),
        Reply::Already => text.push_str("ALREADY"),
        Reply::Refused { place } => push_refusal(text, *place),
        Reply::JournalFull | Reply::Closed => Ok(()),
    }
}

/// The log's line of an entry of the plant's history: the caller, the call, `=` and the reply. The group of a verdict
/// is below the plant's count, and the reply is an answer.
pub fn entry_text(alloc: Global, plant: &Plant, entry: &Entry) -> Result<String, NoMemory>
    requires answer { IsTrue (is_answer entry.now.reply) }
    requires call { IsCall plant.now entry.now.call }
    ensures { IfOk result (λ text. string_bytes text ≡ entry_text plant.now entry.now) }
{
    let mut text = String::new(alloc);
    push_caller(&mut text, entry.caller)?;
    text.push_str(" ")?;
    push_call(&mut text, plant, &entry.call)?;
    text.push_str(" = ")?;
    push_reply(&mut text, &entry.reply)?;
    text.push_str("\n")?;
    Ok(text)
}

/// The log's first line, with the plant's name.
pub fn log_head(alloc: Global, plant: &Plant) -> Result<String, NoMemory>
    ensures { IfOk result (λ text. string_bytes text ≡ log_head plant.now) }
{
    let name = plant.name();
    Ok(format!(in alloc; "LOG,1,{name}\n")?)
}
