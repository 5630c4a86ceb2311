//! The sweep at the end of a session.
ghost use Rattle.std.specs.Prelude.{◌≡◌, ◌<◌, length, slice_index_or, OnErr, OnOk};
ghost use Rattle.plant_book.specs.Books.{IsOf};
ghost use Rattle.plant_model.specs.declared.board.Cell.TheVariants.{Pending};
ghost use Rattle.analysis_workers.specs.Sweeps.{AreCurrent, IsOpen, Sweeps, SweepsGroup};
ghost use Rattle.analysis_workers.specs.Sweeps.{is_current_cell};

use crate::verdict::publish_verdict;
use dp_io::Gate;
use no_memory::NoMemory;
use plant_book::{Book, BookPass};
use plant_core::{Allocate, Cell, Cells};
use std::sync::Wait;

/// Publishes a verdict of the latest version, in the order of the groups, on each whose cell of the
/// board isn't current. No pass is away from the root, and no session was ended. Each verdict is
/// shown, also where memory ran out after it, and at the end each cell is current.
pub fn sweep<R: Wait, A: Allocate, G: Gate>(
    rt: &R,
    book: &Book<A, G>,
    root: &mut BookPass,
) -> Result<(), NoMemory>
    requires of { IsOf book.now root.old }
    requires root { root.old.shown.caller ≡ 0 }
    requires alone { root.old.shown.away ≡ 0 }
    requires is_open { IsOpen root.old }
    ensures verdicts { Sweeps root.old root.new }
    ensures current { OnOk result (AreCurrent root.new) }
    ensures of { IsOf book.now root.new }
{
    let _caller = root.caller();
    for group in 0..book.plant().groups().len() as u32 {
        sweep_group(rt, book, root, group)?;
    }
    Ok(())
}

// Publishes a verdict of the latest version on the group, where its cell isn't current.
fn sweep_group<R: Wait, A: Allocate, G: Gate>(
    rt: &R,
    book: &Book<A, G>,
    root: &mut BookPass,
    group: u32,
) -> Result<(), NoMemory>
    requires of { IsOf book.now root.old }
    requires root { root.old.shown.caller ≡ 0 }
    requires alone { root.old.shown.away ≡ 0 }
    requires is_open { IsOpen root.old }
    requires group { group < length book.now.base.plant.groups.items }
    ensures swept { OnOk result (SweepsGroup root.old root.new group) }
    ensures kept { OnErr result (root.new ≡ root.old) }
    ensures of { IsOf book.now root.new }
{
    let cells = book.cells(rt, root);
    if is_current(&cells, group) {
        return Ok(());
    }
    let version = book.latest(rt, root);
    publish_verdict(rt, book, root, version, group)?;
    Ok(())
}

// Whether the cell of the group has a verdict of the latest version.
fn is_current(cells: &Cells, group: u32) -> bool
    ensures { result ≡ is_current_cell (slice_index_or cells.now.list.items group Pending) }
{
    matches!(
        cells.list.get(group as usize),
        Some(Cell::Seen { current: true, .. })
    )
}
