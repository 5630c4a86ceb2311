//! What the callers of a session share, and what each has of its own.

use analysis_jobs::{JobPass, Jobs, Rest};
use dp_io::Gate;
use plant_book::{Book, BookPass};
use plant_core::Allocate;

/// What all callers share: the plant, the jobs, where workers rest, and the gate.
#[derive(Drop)]
pub(crate) struct Shared<'a, A: Allocate, G: Gate> {
    pub(crate) book: &'a Book<A, G>,
    pub(crate) jobs: &'a Jobs,
    pub(crate) rest: &'a Rest,
    pub(crate) gate: &'a G,
}

/// What a caller has of its own: its pass of the book, and that of the queue of jobs.
#[derive(Drop)]
pub(crate) struct Caller {
    pub(crate) pass: BookPass,
    pub(crate) own: JobPass,
}
