//! The end of a session's work.
ghost use Rattle.std.specs.Prelude.{◌≡◌};
ghost use Rattle.plant_book.specs.Books.{IsOf};
ghost use Rattle.watch_session.specs.Crews.{Publishes};

use crate::shared::Shared;
use analysis_jobs::{Job, JobPass};
use analysis_workers::publish_verdict;
use dp_io::Gate;
use plant_book::BookPass;
use plant_core::Allocate;
use plant_model::status::Version;
use std::sync::Wait;

/// Does a job, if the plant has its group. A verdict for which there is no memory is left to the sweep.
fn do_job<R: Wait, A: Allocate, G: Gate>(
    rt: &R,
    shared: &Shared<'_, A, G>,
    pass: &mut BookPass,
    version: Version,
    group: u32,
)
    requires of { IsOf shared.now.book.now pass.old }
    ensures published { Publishes pass.old pass.new }
    ensures of { IsOf shared.now.book.now pass.new }
{
    let _number = pass.caller();
    if (group as usize) < shared.book.plant().groups().len() {
        let _published = publish_verdict(rt, shared.book, pass, version, group);
    }
}

/// Does a job that was taken. True for a Stop, which is to be put back.
fn do_taken<R: Wait, A: Allocate, G: Gate>(
    rt: &R,
    shared: &Shared<'_, A, G>,
    root: &mut BookPass,
    job: Job,
) -> bool
    requires of { IsOf shared.now.book.now root.old }
    ensures published { Publishes root.old root.new }
    ensures of { IsOf shared.now.book.now root.new }
{
    let _number = root.caller();
    match job {
        Job::Analyse { version, group } => {
            do_job(rt, shared, root, version, group);
            false
        }
        Job::Stop => true,
    }
}

/// Makes room in the queue: takes the first job, if there is one, and does it. True for a Stop, which is to be put back.
fn make_room<R: Wait, A: Allocate, G: Gate>(
    rt: &R,
    shared: &Shared<'_, A, G>,
    root: &mut BookPass,
    own: &mut JobPass,
) -> bool
    requires of { IsOf shared.now.book.now root.old }
    requires own { own.old.queue ≡ shared.now.jobs.now }
    ensures published { Publishes root.old root.new }
    ensures of { IsOf shared.now.book.now root.new }
    ensures own { own.new.queue ≡ shared.now.jobs.now }
{
    let _number = root.caller();
    match shared.jobs.take(rt, own) {
        Some(job) => do_taken(rt, shared, root, job),
        None => false,
    }
}

/// Gives the workers so many Stops, one for each. Where the queue is full it does the work of a job itself first, and
/// puts a Stop back that it takes so.
pub(crate) fn stop_workers<R: Wait, A: Allocate, G: Gate>(
    rt: &R,
    shared: &Shared<'_, A, G>,
    root: &mut BookPass,
    own: &mut JobPass,
    workers: u32,
)
    requires of { IsOf shared.now.book.now root.old }
    requires own { own.old.queue ≡ shared.now.jobs.now }
    ensures published { Publishes root.old root.new }
    ensures of { IsOf shared.now.book.now root.new }
    ensures own { own.new.queue ≡ shared.now.jobs.now }
{
    let _number = root.caller();
    let mut owed = workers;
    for _ in rt.forever() {
        if owed == 0 {
            shared.rest.wake(rt);
            return;
        }
        if shared.jobs.push(rt, own, Job::Stop).is_ok() {
            owed -= 1;
        } else if make_room(rt, shared, root, own) {
            owed = owed.saturating_add(1);
        }
    }
    unreachable!()
}
