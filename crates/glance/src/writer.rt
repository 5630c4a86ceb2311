//! The writer of what displays show.
ghost use Rattle.std.specs.Prelude.{◌≡◌, [], drop, IfOk, IfErr, IfSome};
ghost use mathlib.Core.List.{IsPrefix};
ghost use Rattle.logbook.specs.Pages.{Book};
ghost use Rattle.glance.specs.Law.{head_of};
ghost use Rattle.glance.specs.Readers.{CanTell, Knows, Writes, known_at};
ghost use Rattle.glance.specs.Shots.{writing};

use crate::display::GlancePass;
use crate::rule::{Learns, Publishes, ShotReader, ShotWriter, Tells};
use crate::shot::{Head, Shot};
use crate::shows::Shows;
use left_right::Absorb;
use no_memory::NoMemory;
use plant_model::board::Cells;
use std::marker::Model;
use std::mem;
use std::sync::Wait;

/// How many displays can have a place, which lets them see what is published after they were
/// last told.
pub const DISPLAYS: usize = 16;

/// The one writer of what displays show. To a contract it is which displays they are, their base
/// and the list that it published last. It can't be dropped: `end` ends it.
// Each `Shot` takes the place of another, so the bound always holds.
pub struct GlanceWriter<T: Shows>
where
    Shot<T>: Absorb<Shot<T>, State = Shot<T>>,
{
    head: Head<T>,
    // What was published last.
    last: Shot<T>,
    // `None` only within a call.
    writer: Option<ShotWriter<T>>,
    // Whether there is room for what is to be published, which then stays.
    has_room: bool,
}

impl<T: Shows> Model for GlanceWriter<T>
where
    Shot<T>: Absorb<Shot<T>, State = Shot<T>>,
{
    ghost use Rattle.std.specs.Prelude.{◌≡◌};
    ghost use Rattle.glance.specs.Law.{head_of};
    ghost use Rattle.glance.specs.Readers.{Writes};
    ghost use Rattle.glance.specs.Shots.{writing};
    ghost use Rattle.glance.specs.Shown.{Writing};

    ghost Value = { Writing T.Entry T.Base };

    ghost view = { λ w. writing T.any_base w.last };

    ghost invariant = { λ w.
        (w.head ≡ head_of w.last.glance) × Writes w.last.glance w.writer };
}

impl<T: Shows> GlanceWriter<T> {
    /// The writer that has published this board alone.
    pub(crate) fn over(head: Head<T>, last: Shot<T>, writer: ShotWriter<T>) -> GlanceWriter<T>
        requires head { head ≡ head_of last.glance }
        requires shown { writer.desk.shown.value.glance ≡ last.glance }
        requires none { drop writer.behind writer.log.items ≡ [] }
        ensures { result ≡ writing T.any_base last }
    {
        GlanceWriter {
            head,
            last,
            writer: Some(writer),
            has_room: false,
        }
    }

    /// Publishes the board of a value's list, which begins with the list that was published last.
    /// It waits for displays that still read the board before the last. `NoMemory` where memory
    /// ran out, which can come only until a call was Ok, or where 2^64 boards were published: no
    /// display sees the new board then.
    pub fn publish<R: Wait>(&mut self, rt: &R, of: &T, cells: Cells) -> Result<(), NoMemory>
        requires base { T.base_of of.now ≡ self.old.base }
        requires list { IsPrefix self.old.list (T.entries of.now) }
        requires board { T.stands self.old.base (T.entries of.now) cells }
        ensures published { IfOk result (λ _. self.new
            ≡ record self.old { list = T.entries of.now }) }
        ensures kept { IfErr result (λ _. self.new ≡ self.old) }
    {
        make_room(&mut self.writer, &mut self.has_room, &self.last)?;
        let Some(shot) = self.last.next(&self.head, of, cells) else {
            return Err(NoMemory);
        };
        if !shot.shows_as(&self.last) {
            put(&mut self.writer, shot.again())?;
            turn(rt, &mut self.writer);
        }
        self.last = shot;
        Ok(())
    }

    /// Tells a display of the list that was published last, so that it has seen this list, and
    /// gives it a place where one is free.
    pub fn tell<R: Wait>(&mut self, rt: &R, pass: &mut GlancePass<T>)
        requires { pass.old.glance ≡ self.old.glance }
        ensures told { pass.new ≡ record pass.old { seen = self.old.list } }
        ensures seen { IsPrefix pass.old.seen self.old.list }
        ensures base { pass.old.base ≡ self.old.base }
        ensures writer { self.new ≡ self.old }
    {
        if !pass.kept.follow(&self.last) {
            // No display has seen what was not published yet.
            for _ in rt.forever() {}
            unreachable!()
        }
        if pass.reader.is_none() {
            pass.reader = place(rt, &mut self.writer);
        }
    }

    /// Ends the writer. It waits for displays that still read.
    pub fn end<R: Wait>(self, rt: &R) {
        let GlanceWriter {
            head: _head,
            last: _last,
            writer,
            has_room: _,
        } = self;
        let Some(writer) = writer else { unreachable!() };
        writer.take(rt);
    }
}

// Puts a board behind those that are to be published.
fn put<T: Shows>(writer: &mut Option<ShotWriter<T>>, shot: Shot<T>) -> Result<(), NoMemory>
    requires { Writes shot.glance writer.old }
    ensures { Writes shot.glance writer.new }
{
    let Some(writer) = writer else { unreachable!() };
    writer.append(shot).map_err(|_| NoMemory)
}

// Makes room for what is to be published, by what was published last.
fn make_room<T: Shows>(
    writer: &mut Option<ShotWriter<T>>,
    has_room: &mut bool,
    last: &Shot<T>,
) -> Result<(), NoMemory>
    requires { Writes last.now.glance writer.old }
    ensures { Writes last.now.glance writer.new }
{
    if !*has_room {
        put(writer, last.again())?;
        *has_room = true;
    }
    Ok(())
}

// Publishes what is to be published; where that is nothing, what was published last once more.
fn turn<T: Shows, R: Wait>(rt: &R, writer: &mut Option<ShotWriter<T>>)
    requires { (glance : Book) × Writes glance writer.old }
    ensures writes { (glance : Book) → Writes glance writer.old → Writes glance writer.new }
    ensures knows { (glance : Book) → Writes glance writer.old → CanTell glance writer.new }
{
    let Some(taken) = writer.take() else {
        unreachable!()
    };
    let (turned, _) = taken.publish_as::<Publishes, R>(rt);
    let left = mem::replace(writer, Some(turned));
    let None = left else { unreachable!() };
}

// A place for a display, which knows what was published last. `None` where none is free.
fn place<T: Shows, R: Wait>(rt: &R, writer: &mut Option<ShotWriter<T>>) -> Option<ShotReader<T>>
    requires { (glance : Book) × Writes glance writer.old }
    ensures writes { (glance : Book) → Writes glance writer.old → Writes glance writer.new }
    ensures place { IfSome result (λ r. (glance : Book) → Writes glance writer.old
        → Knows glance (known_at r.place)) }
{
    turn(rt, writer);
    let Some(writer) = writer else { unreachable!() };
    let mut reader = writer.factory().reader().ok()?;
    reader.learn::<Learns>(writer.tell::<Tells>());
    Some(reader)
}
