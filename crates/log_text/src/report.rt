//! The report of a history.
ghost use Rattle.std.specs.Prelude.{◌≡◌, ◌++◌, [], ◌∷◌, IfOk, OnOk, string_bytes};
ghost use Rattle.std.specs.List.{flat_map, zip};
ghost use Rattle.alarm_log.specs.declared.alarm.Cause.TheVariants.{Consequence};
ghost use Rattle.log_text.specs.Texts.{alarm_text, alarms_text, cause_text, group_name, group_text};
ghost use Rattle.log_text.specs.Texts.{is_told, report_text, shown_text};

use alarm_log::{Alarm, Alarms, Cause};
use no_memory::NoMemory;
use plant_core::{Cell, Core};
use plant_model::parts::Group;
use plant_model::plant::Plant;
use std::alloc::{AllocError, Global};

/// Appends what the board shows of a group: the verdict where it is about the latest version.
fn push_shown(text: &mut String, cell: &Cell) -> Result<(), AllocError>
    ensures { OnOk result (string_bytes text.new ≡ string_bytes text.old ++ shown_text cell.now) }
{
    match cell {
        Cell::Pending => text.push_str("PENDING"),
        Cell::Seen { current: false, .. } => text.push_str("SUPERSEDED"),
        Cell::Seen { holds, .. } => text.push_str(if *holds { "HOLDS" } else { "LOST" }),
    }
}

fn push_group(text: &mut String, group: &Group, cell: &Cell) -> Result<(), AllocError>
    ensures { OnOk result (string_bytes text.new
        ≡ string_bytes text.old ++ group_text (group.now, cell.now)) }
{
    let name = &group.name;
    write!(text, "GROUP,{name},")?;
    push_shown(text, cell)?;
    text.push_str("\n")
}

/// Appends a line for each group.
fn push_groups(text: &mut String, groups: &[Group], cells: &[Cell]) -> Result<(), AllocError>
    ensures { OnOk result (string_bytes text.new
        ≡ string_bytes text.old ++ flat_map group_text (zip groups.now cells.now)) }
{
    for (group, cell) in groups.iter().zip(cells) {
        push_group(text, group, cell)?;
    }
    Ok(())
}

/// Appends the name of the group at a place, where the plant has one.
fn push_group_name(text: &mut String, plant: &Plant, group: u32) -> Result<(), AllocError>
    ensures { OnOk result (string_bytes text.new
        ≡ string_bytes text.old ++ group_name plant.now group) }
{
    match plant.groups().as_slice().get(group as usize) {
        Some(group) => text.push_str(group.name.as_str()),
        None => Ok(()),
    }
}

fn push_consequence(text: &mut String, plant: &Plant, group: u32) -> Result<(), AllocError>
    ensures { OnOk result (string_bytes text.new
        ≡ string_bytes text.old ++ cause_text plant.now (Consequence group)) }
{
    text.push_str("CONSEQUENCE,")?;
    push_group_name(text, plant, group)
}

fn push_cause(text: &mut String, plant: &Plant, cause: Cause) -> Result<(), AllocError>
    ensures { OnOk result (string_bytes text.new
        ≡ string_bytes text.old ++ cause_text plant.now cause) }
{
    match cause {
        Cause::Consequence(group) => push_consequence(text, plant, group),
        Cause::Short => text.push_str("SHORT"),
    }
}

fn push_alarm(text: &mut String, plant: &Plant, alarm: Alarm) -> Result<(), AllocError>
    ensures { OnOk result (string_bytes text.new
        ≡ string_bytes text.old ++ alarm_text plant.now alarm) }
{
    let number = alarm.number;
    write!(text, "ALARM,{number},")?;
    push_cause(text, plant, alarm.cause)?;
    let activity = if alarm.active { "ACTIVE" } else { "CLEARED" };
    let mark = if alarm.acknowledged {
        "ACKED"
    } else {
        "UNACKED"
    };
    write!(text, ",{activity},{mark}\n")
}

/// Whether an alarm is active or unacknowledged.
fn is_told(alarm: Alarm) -> bool
    ensures { result ≡ is_told alarm }
{
    alarm.active || !alarm.acknowledged
}

/// Appends an alarm's line where it is told.
fn push_told(text: &mut String, plant: &Plant, alarm: Alarm) -> Result<(), AllocError>
    ensures { OnOk result (string_bytes text.new
        ≡ string_bytes text.old ++ alarms_text plant.now (alarm ∷ [])) }
{
    if is_told(alarm) {
        push_alarm(text, plant, alarm)
    } else {
        Ok(())
    }
}

/// Appends a line for each alarm that is active or unacknowledged, oldest first.
fn push_alarms(text: &mut String, plant: &Plant, alarms: &Alarms) -> Result<(), AllocError>
    ensures { OnOk result (string_bytes text.new
        ≡ string_bytes text.old ++ alarms_text plant.now alarms.now.ring) }
{
    for place in 0..alarms.count() {
        push_told(text, plant, alarms.at(place))?;
    }
    Ok(())
}

/// The report of a core's history: the number of the latest version with the count of telegrams and notes, a line
/// for each group with what the board shows of it, a line for each alarm in the ring that is active or
/// unacknowledged, oldest first, and `END`.
pub fn report_text(alloc: Global, core: &Core) -> Result<String, NoMemory>
    ensures { IfOk result
        (λ text. string_bytes text ≡ report_text core.now.plant core.now.history) }
{
    let number = core.latest().number;
    let events = core.events();
    let mut text = format!(in alloc; "REPORT,{number},{events}\n")?;
    let cells = core.cells();
    push_groups(
        &mut text,
        core.plant().groups().as_slice(),
        cells.list.as_slice(),
    )?;
    push_alarms(&mut text, core.plant(), core.alarms())?;
    text.push_str("END\n")?;
    Ok(text)
}
