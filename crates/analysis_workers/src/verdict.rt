//! One verdict.
ghost use Rattle.std.specs.Prelude.{◌<◌, length, IfOk, OnErr};
ghost use Rattle.plant_book.specs.Books.{IsOf};
ghost use Rattle.plant_book.specs.Calls.{Passes};
ghost use Rattle.analysis_workers.specs.Verdicts.{PublishesVerdict};

use dp_io::Gate;
use feasibility::analyse;
use no_memory::NoMemory;
use plant_book::{Book, BookPass, Served};
use plant_core::Allocate;
use plant_model::status::{Loss, Version};
use std::sync::Wait;

/// Analyses the version after the loss of a group, whose place is below the plant's count, and
/// publishes what was found. The plant is the book's, and no turn is held through the analysis.
pub fn publish_verdict<R: Wait, A: Allocate, G: Gate>(
    rt: &R,
    book: &Book<A, G>,
    pass: &mut BookPass,
    version: Version,
    group: u32,
) -> Result<Served, NoMemory>
    requires of { IsOf book.now pass.old }
    requires group { group < length book.now.base.plant.groups.items }
    ensures verdict { IfOk result (PublishesVerdict pass.old pass.new version group) }
    ensures kept { OnErr result (Passes pass.old pass.new) }
    ensures of { IsOf book.now pass.new }
{
    let outcome = analyse(
        book.plant(),
        &version.status,
        Loss::Group(group),
        version.demand,
    );
    book.publish(rt, pass, version.number, group, outcome)
}
