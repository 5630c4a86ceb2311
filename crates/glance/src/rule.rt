//! The rule of the readers: each reads boards of the log that it knows.
use crate::shot::Shot;
use crate::shows::Shows;
use atomic_table::{Join, Split};
use crossbeam_utils::rule::{Outcome, Protocol};
use left_right::Absorb;
use left_right::reader::Reader;
use left_right::writer::Writer;
use std::alloc::AllocError;

/// What is published takes the place of what was.
impl<T: Shows> Absorb<Shot<T>> for Shot<T> {
    type State = Shot<T>;

    ghost state = { λ shot. shot };

    ghost applied = { λ _ next. next };

    ghost never_fails = { Unit {0} };

    fn absorb_first(&mut self, operation: &Shot<T>, _other: &Shot<T>) -> Result<(), AllocError> {
        *self = operation.again();
        Ok(())
    }

    fn absorb_second(&mut self, operation: Shot<T>, _other: &Shot<T>) -> Result<(), Shot<T>> {
        *self = operation;
        Ok(())
    }
}

/// What a reader knows is a board of its log, or nothing.
pub type Known<T> = Option<Shot<T>>;

/// Each board that is known is of the log that the published board is of.
pub struct OneLog;

impl<T: Shows> Protocol<Shot<T>, Known<T>> for OneLog {
    ghost use Rattle.std.specs.Prelude.{None};
    ghost use Rattle.glance.specs.Readers.{AreOfOneLog};

    ghost holds = { λ shot known. AreOfOneLog shot.glance known };

    ghost first = { None };
}

/// A reader takes what is published.
pub struct Reads;

impl<T: Shows> Outcome<Shot<T>, Known<T>> for Reads {
    ghost use Rattle.std.specs.Prelude.{◌≡◌};
    ghost use Rattle.glance.specs.Readers.{IsOf};

    ghost then = { λ known _ shot after. (after ≡ known) × IsOf shot.glance known };
}

/// The writer publishes.
pub struct Publishes;

impl<T: Shows> Outcome<Shot<T>, Known<T>> for Publishes {
    ghost use Rattle.std.specs.Prelude.{◌≡◌, Some};

    ghost then = { λ _ _ shot after. after ≡ Some shot };
}

/// The writer tells what it knows.
pub struct Tells;

impl<T: Shows> Split<Known<T>> for Tells {
    ghost left = { λ known. known };

    ghost right = { λ known. known };
}

/// A reader learns what it is told.
pub struct Learns;

impl<T: Shows> Join<Known<T>> for Learns {
    ghost use Rattle.std.specs.Prelude.{None};

    ghost both = { λ _ told. told };

    ghost spent = { None };
}

pub type ShotReader<T> = Reader<Shot<T>, Known<T>, OneLog>;

pub type ShotWriter<T> = Writer<Shot<T>, Shot<T>, Known<T>, OneLog>;
