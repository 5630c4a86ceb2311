//! The rule of the queue: jobs are conserved.
ghost use Rattle.std.specs.Prelude.{◌≡◌};
ghost use Rattle.analysis_jobs.specs.Hands.{Stands, no_hand, with_pushed, with_taken};

use crate::job::Job;
use crossbeam_queue::protocol::{Lesson, Outcome, Protocol, Split};
use std::collections::LinkedList;

/// What a pass has pushed and what it has taken, each in its order. No value of it is made.
pub struct Hand {
    pub pushed: LinkedList<Job>,
    pub taken: LinkedList<Job>,
}

/// Over all passes, the jobs that were pushed are, each as often, those that were taken and those
/// that stand in the queue.
pub struct Conserved;

impl Protocol<Job, Hand> for Conserved {
    ghost use Rattle.analysis_jobs.specs.Hands.{IsBalanced, no_hand};

    ghost holds = { IsBalanced };

    ghost first = { no_hand };
}

// A job is pushed.
pub(crate) struct Push;

impl Outcome<Job, Hand> for Push {
    ghost then = { λ before job after. after ≡ with_pushed before job };
}

// A job is taken.
pub(crate) struct Take;

impl Outcome<Job, Hand> for Take {
    ghost then = { λ before job after. after ≡ with_taken before job };
}

// The queue is looked at.
impl Lesson<Job, Hand> for Push {
    ghost fact = { λ hand jobs. Stands hand jobs };
}

impl Lesson<Job, Hand> for Take {
    ghost fact = { λ hand jobs. Stands hand jobs };
}

// A new pass is made, which has done nothing.
pub(crate) struct Newcomer;

impl Split<Hand> for Newcomer {
    ghost left = { λ hand. hand };

    ghost right = { λ hand. no_hand };
}
