//! The numbers of the entries that a program holds are those of their types, and its lists have room for their items.
ghost use Rattle.std.specs.Prelude.{FitsSigned};
ghost use Rattle.std.specs.Int.{w64};
ghost use Rattle.log_text.specs.Fits.{AreHeld, FitsAllocation, FitsCall, FitsCell, FitsCells};
ghost use Rattle.log_text.specs.Fits.{FitsCuts, FitsEntry, FitsOutcome, FitsPlace, FitsReply};
ghost use Rattle.log_text.specs.Fits.{FitsThrust, FitsThrusts, FitsVector, FitsWord, FitsWrench};

use certificate::{Cuts, Outcome, Place};
use plant_core::{Allocation, Call, Cell, Cells, Entry, Reply};
use plant_model::thrust::{Thrust, Thrusts};
use plant_model::wrench::Wrench;
use wrench_geometry::Vec3;

fn word_fits(number: u32)
    ensures { FitsWord number }
{}

fn number_fits(number: i64)
    ensures { FitsSigned w64 number }
{}

fn thrust_fits(thrust: Thrust)
    ensures { FitsThrust thrust }
{}

fn thrusts_fit(thrusts: &Thrusts)
    ensures { FitsThrusts thrusts.now }
{
    for thrust in thrusts.list.as_slice() {
        thrust_fits(*thrust);
    }
}

fn cut_fits(cut: Vec3)
    ensures { FitsVector cut }
{}

fn cuts_fit(cuts: &Cuts)
    ensures { FitsCuts cuts.now }
{
    for cut in cuts.list.as_slice() {
        cut_fits(*cut);
    }
}

fn outcome_fits(outcome: &Outcome)
    ensures { FitsOutcome outcome.now }
{
    match outcome {
        Outcome::Holds { choice, q, thrusts } => {
            word_fits(*choice);
            number_fits(*q);
            thrusts_fit(thrusts);
        }
        Outcome::Lost { cuts } => cuts_fit(cuts),
    }
}

fn wrench_fits(wrench: Wrench)
    ensures { FitsWrench wrench }
{}

fn allocation_fits(allocation: &Allocation)
    ensures { FitsAllocation allocation.now }
{
    number_fits(allocation.fraction.top);
    number_fits(allocation.fraction.bottom);
    word_fits(allocation.choice);
    number_fits(allocation.q);
    thrusts_fit(&allocation.thrusts);
}

fn cell_fits(cell: Cell)
    ensures { FitsCell cell }
{}

fn cells_fit(cells: &Cells)
    ensures { FitsCells cells.now }
{
    word_fits(cells.latest);
    for cell in cells.list.as_slice() {
        cell_fits(*cell);
    }
}

fn place_fits(place: Place)
    ensures { FitsPlace place }
{}

fn call_fits(call: &Call)
    ensures { FitsCall call.now }
{
    if let Call::Publish {
        version,
        outcome,
        ..
    } = call
    {
        word_fits(*version);
        outcome_fits(outcome);
    }
}

fn reply_fits(reply: &Reply)
    ensures { FitsReply reply.now }
{
    match reply {
        Reply::Version(number) => word_fits(*number),
        Reply::Commanded {
            version,
            demand,
            allocation,
        } => {
            word_fits(*version);
            wrench_fits(*demand);
            allocation_fits(allocation);
        }
        Reply::Late { last } => word_fits(*last),
        Reply::Cells(cells) => cells_fit(cells),
        Reply::Superseded { latest } => word_fits(*latest),
        Reply::Unknown { latest } => word_fits(*latest),
        Reply::Refused { place } => place_fits(*place),
        _ => {}
    }
}

fn entry_fits(entry: &Entry)
    ensures { FitsEntry entry.now }
{
    word_fits(entry.caller);
    call_fits(&entry.call);
    reply_fits(&entry.reply);
}

/// A history that a program holds is one that a program can hold: each number in it is one of its type, and each list
/// in it has room for its items.
pub fn histories_are_held(history: &[Entry])
    ensures { AreHeld history.now }
{
    for entry in history {
        entry_fits(entry);
    }
}
