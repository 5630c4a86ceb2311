//! A board with what it stands for.
ghost use Rattle.std.specs.Prelude.{◌≡◌, ◌+◌, ◌++◌, ◌∷◌, [], length, IfSome, MatchBool};
ghost use Rattle.std.specs.Bool.{OnTrue};
ghost use mathlib.Core.List.{IsPrefix};
ghost use Rattle.glance.specs.Law.{head_of};
ghost use Rattle.glance.specs.Shots.{opening_shot, next_shot};
ghost use Rattle.glance.specs.Stages.{IsLater, base_of, list_of, stage_of};

use crate::law::{Add, Law, Nothing, Open};
use crate::shows::Shows;
use crate::stage::Stage;
use arrayvec::ArrayVec;
use logbook::{Offer, Seen, Start, Word};
use plant_model::board::Cells;
use std::marker::Model;

/// A beginning of the log of what was published.
type Front<T> = Seen<Stage<<T as Shows>::Entry, <T as Shows>::Base>, u64, Law>;

/// The word that counts what was published.
pub type Head<T> = Word<Stage<<T as Shows>::Entry, <T as Shows>::Base>, u64, Law>;

/// A board, and the log that ends with what it stands for.
#[derive(Drop)]
pub struct Shot<T: Shows> {
    // The number of the log's last stage.
    number: u64,
    cells: Cells,
    front: Front<T>,
}

impl<T: Shows> Model for Shot<T> {
    ghost use Rattle.glance.specs.Shots.{IsShot, Standing};

    ghost Value = { Standing T.Entry T.Base };

    ghost view = { λ s. record { cells = s.cells; glance = s.front.book; log = s.front.log } };

    ghost invariant = { λ s. IsShot T.any_base T.stands s.number s.cells s.front.log };
}

/// A copy, which takes no memory.
fn copied(cells: &Cells) -> Cells
    ensures { result ≡ cells.now }
{
    let mut list = ArrayVec::new();
    for cell in cells.list.as_slice() {
        list.push(*cell);
    }
    Cells {
        latest: cells.latest,
        list,
    }
}

impl<T: Shows> Shot<T> {
    /// The board of the empty list at the base of a value, with the word of a new log.
    pub fn opening(of: &T, cells: Cells) -> (Shot<T>, Head<T>)
        requires { T.stands (T.base_of of.now) [] cells }
        ensures shot { result.0 ≡ opening_shot cells result.0.glance (T.base_of of.now) }
        ensures head { result.1 ≡ head_of result.0.glance }
    {
        let (front, mut pens) = Seen::open_row::<T, Open>(of, Start::alone(), 1);
        let head = Word::tracked(0, &mut pens.take());
        (
            Shot {
                number: 0,
                cells,
                front,
            },
            head,
        )
    }

    /// The number of what it stands for, among all that was published.
    pub fn number(&self) -> u64
        ensures { result + 1 ≡ length self.now.log }
    {
        self.number
    }

    /// The board.
    pub fn board(&self) -> Cells
        ensures { T.stands (base_of T.any_base self.now.log) (list_of self.now.log) result }
    {
        copied(&self.cells)
    }

    /// A copy, which takes no memory.
    pub fn again(&self) -> Shot<T>
        ensures { result ≡ self.now }
    {
        Shot {
            number: self.number,
            cells: copied(&self.cells),
            front: self.front.again(),
        }
    }

    /// Whether another is no earlier. Its list then begins with this one's.
    fn is_followed_by(&self, other: &Shot<T>) -> bool
        requires { other.now.glance ≡ self.now.glance }
        ensures { OnTrue result (IsLater T.any_base self.now.log other.now.log) }
    {
        let mut both = self.front.again();
        both.learn(&other.front);
        if other.number < self.number {
            return false;
        }
        true
    }

    /// Becomes another that is no earlier, and says whether it did.
    pub fn follow(&mut self, other: &Shot<T>) -> bool
        requires { other.now.glance ≡ self.old.glance }
        ensures shot { MatchBool result (self.new ≡ other.now) (self.new ≡ self.old) }
        ensures later { IsLater T.any_base self.old.log self.new.log }
    {
        let is_no_earlier = self.is_followed_by(other);
        if is_no_earlier {
            *self = other.again();
        }
        is_no_earlier
    }

    /// Becomes another that is later, or stays.
    pub fn catch_up(&mut self, other: &Shot<T>)
        requires { other.now.glance ≡ self.old.glance }
        ensures glance { self.new.glance ≡ self.old.glance }
        ensures later { IsLater T.any_base self.old.log self.new.log }
    {
        if self.number < other.number {
            self.follow(other);
        }
    }

    /// Whether another shows the same cells.
    pub fn shows_as(&self, other: &Shot<T>) -> bool
        ensures { OnTrue result (self.now.cells ≡ other.now.cells) }
    {
        self.cells == other.cells
    }

    /// The board of a value's list as the next one that is published. `None` where the word
    /// counts otherwise, or can count no further.
    pub fn next(&self, head: &Head<T>, of: &T, cells: Cells) -> Option<Shot<T>>
        requires head { head.now ≡ head_of self.now.glance }
        requires base { T.base_of of.now ≡ base_of T.any_base self.now.log }
        requires list { IsPrefix (list_of self.now.log) (T.entries of.now) }
        requires board { T.stands (T.base_of of.now) (T.entries of.now) cells }
        ensures { IfSome result (λ shot. shot
            ≡ next_shot self.now cells (T.base_of of.now) (T.entries of.now)) }
    {
        let number = self.number.checked_add(1)?;
        let mut front = self.front.again();
        let mut offer: Offer<Stage<T::Entry, T::Base>, u64, Law, Nothing> = front.plain::<
            Nothing,
            T,
            Add,
        >(of);
        let mut pen = front.no_pen();
        let found = head.compare_exchange::<Add, Nothing>(
            self.number,
            number,
            &mut front,
            &mut offer,
            &mut pen,
        );
        if found != self.number {
            return None;
        }
        Some(Shot {
            number,
            cells,
            front,
        })
    }
}
