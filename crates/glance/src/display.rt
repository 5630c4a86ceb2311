//! The displays.
ghost use Rattle.std.specs.Prelude.{◌≡◌, [], IsOk, IfOk};
ghost use mathlib.Core.List.{IsPrefix};
ghost use Rattle.glance.specs.Readers.{Knows, known_at};
ghost use Rattle.glance.specs.Shown.{new_display, new_writer};
ghost use Rattle.glance.specs.Stages.{IsLater};

use crate::rule::{Reads, ShotReader, ShotWriter};
use crate::shot::Shot;
use crate::shows::Shows;
use crate::writer::{DISPLAYS, GlanceWriter};
use no_memory::NoMemory;
use plant_model::board::Cells;
use std::alloc::Global;
use std::marker::Model;

/// What makes displays. To a contract it is what tells these displays from any others, and their
/// base. A display and the writer are used with the `Glance` that they were made with.
#[derive(Drop)]
pub struct Glance<T: Shows> {
    opening: Shot<T>,
}

impl<T: Shows> Model for Glance<T> {
    ghost use Rattle.std.specs.Prelude.{◌≡◌, [], ◌∷◌};
    ghost use Rattle.glance.specs.Shots.{showing};
    ghost use Rattle.glance.specs.Shown.{Displays};
    ghost use Rattle.glance.specs.Stages.{list_of};

    ghost Value = { Displays T.Base };

    ghost view = { λ g. showing T.any_base g.opening };

    ghost invariant = { λ g. list_of g.opening.log ≡ [] };
}

/// A display's token. It shows the list that the display's board stands for, a front of what was
/// published: a later board stands for a list that begins with it.
#[derive(Drop)]
pub struct GlancePass<T: Shows> {
    // The display's place, where it has one.
    pub(crate) reader: Option<ShotReader<T>>,
    // What it was shown last.
    pub(crate) kept: Shot<T>,
}

impl<T: Shows> Model for GlancePass<T> {
    ghost use Rattle.std.specs.Prelude.{MatchOption};
    ghost use Rattle.glance.specs.Readers.{Knows, known_at};
    ghost use Rattle.glance.specs.Shots.{seeing};
    ghost use Rattle.glance.specs.Shown.{Seeing};

    ghost Value = { Seeing T.Entry T.Base };

    ghost view = { λ p. seeing T.any_base p.kept };

    ghost invariant = { λ p. MatchOption p.reader (Unit {0}) (λ r. Knows p.kept.glance (known_at r.place)) };
}

impl<T: Shows> Glance<T> {
    /// Displays of the empty list at the base of a value, for which the opening board stands, and
    /// their writer. `NoMemory` where memory ran out.
    pub fn start(
        alloc: Global,
        of: &T,
        opening: Cells,
    ) -> Result<(Glance<T>, GlanceWriter<T>), NoMemory>
        requires { T.stands (T.base_of of.now) [] opening }
        ensures base { IfOk result (λ made. made.0.base ≡ T.base_of of.now) }
        ensures writer { IfOk result (λ made. made.1 ≡ new_writer made.0) }
    {
        let (opening, head) = Shot::opening(of, opening);
        let last = opening.again();
        let writer = ShotWriter::<T>::new(alloc, opening.again(), opening.again(), DISPLAYS)?;
        Ok((Glance { opening }, GlanceWriter::over(head, last, writer)))
    }

    /// A new display, which has seen nothing. It takes no memory, so the answer is always Ok.
    pub fn display(&self) -> Result<GlancePass<T>, NoMemory>
        ensures always { IsOk result }
        ensures display { IfOk result (λ pass. pass ≡ new_display self.now) }
    {
        Ok(GlancePass {
            reader: None,
            kept: self.opening.again(),
        })
    }

    /// The board of a list that begins with all that the display had seen. It takes no memory and
    /// waits for nobody. A display that has no place, or whose writer has ended, keeps the board
    /// that it was last shown; before it was shown any, that of the empty list.
    pub fn board(&self, pass: &mut GlancePass<T>) -> Cells
        requires { pass.old.glance ≡ self.now.glance }
        ensures seen { IsPrefix pass.old.seen pass.new.seen }
        ensures board { T.stands pass.new.base pass.new.seen result }
        ensures base { pass.new.base ≡ pass.old.base }
        ensures glance { pass.new.glance ≡ pass.old.glance }
    {
        if let Some(reader) = pass.reader.take() {
            pass.reader = Some(look(reader, &mut pass.kept));
        }
        pass.kept.board()
    }
}

// Keeps what a display reads.
fn look<T: Shows>(reader: ShotReader<T>, kept: &mut Shot<T>) -> ShotReader<T>
    requires { Knows kept.old.glance (known_at reader.place) }
    ensures glance { kept.new.glance ≡ kept.old.glance }
    ensures later { IsLater T.any_base kept.old.log kept.new.log }
    ensures place { Knows kept.new.glance (known_at result.place) }
{
    match reader.enter_as::<Reads>() {
        Ok(reading) => {
            kept.catch_up(reading.get());
            reading.leave()
        }
        Err(reader) => reader,
    }
}
