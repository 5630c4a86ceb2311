//! The work of a worker.
ghost use Rattle.std.specs.Prelude.{◌≡◌, ◌<◌, length, MatchBool};
ghost use Rattle.analysis_jobs.specs.Hands.{with_taken};
ghost use Rattle.analysis_jobs.specs.Passes.{with_hand};
ghost use Rattle.analysis_jobs.specs.declared.job.Job.TheVariants.{Analyse};
ghost use Rattle.plant_book.specs.Books.{IsOf};
ghost use Rattle.plant_core.specs.Machine.{IsLegal};
ghost use Rattle.analysis_workers.specs.Works.{IsDisplayOf, IsSkipped, LooksOn, Works, WorksOn};
ghost use Rattle.analysis_workers.specs.Works.{worker};

use crate::verdict::publish_verdict;
use analysis_jobs::{Job, JobPass, Jobs, Rest};
use dp_io::{Gate, Stage};
use glance::GlancePass;
use no_memory::NoMemory;
use plant_book::{Book, BookPass, PlantBoard};
use plant_core::Allocate;
use plant_model::status::Version;
use std::sync::Wait;

/// Takes jobs until it takes a Stop, and publishes a verdict for each in turn. The gate is told
/// `JobTaken` before the analysis and `Answered` after the call. A job has no verdict, and the gate is
/// told nothing of it, where the worker's own display, looked at once a job, shows a later version, or
/// where the plant has no such group. Once a session was ended no verdict has an entry. `NoMemory` as
/// soon as a verdict finds none: then that job was the last that was taken.
pub fn work<R: Wait, A: Allocate, G: Gate>(
    rt: &R,
    book: &Book<A, G>,
    pass: &mut BookPass,
    jobs: &Jobs,
    own: &mut JobPass,
    rest: &Rest,
    eyes: &mut GlancePass<PlantBoard>,
    gate: &G,
) -> Result<(), NoMemory>
    requires pass { IsOf book.now pass.old }
    requires own { own.old.queue ≡ jobs.now }
    requires eyes { IsDisplayOf book.now.base eyes.old }
    ensures works { Works (worker pass.old own.old eyes.old) (worker pass.new own.new eyes.new)
        result }
    ensures pass { IsOf book.now pass.new }
    ensures own { own.new.queue ≡ jobs.now }
    ensures eyes { IsDisplayOf book.now.base eyes.new }
{
    let _caller = pass.caller();
    for _ in rt.forever() {
        match next_job(rt, jobs, own, rest) {
            Job::Stop => return Ok(()),
            Job::Analyse { version, group } => {
                work_on(rt, book, pass, eyes, gate, version, group)?;
            }
        }
    }
    unreachable!()
}

// The next job. Where there is none, it rests until one may have been pushed.
fn next_job<R: Wait>(rt: &R, jobs: &Jobs, own: &mut JobPass, rest: &Rest) -> Job
    requires own { own.old.queue ≡ jobs.now }
    ensures taken { own.new ≡ with_hand own.old (with_taken own.old.hand result) }
    ensures own { own.new.queue ≡ jobs.now }
{
    for _ in rt.forever() {
        let mark = rest.mark();
        match jobs.take(rt, own) {
            Some(job) => return job,
            None => rest.rest(rt, mark),
        }
    }
    unreachable!()
}

// A verdict of the version on the loss of the group, unless it is skipped.
fn work_on<R: Wait, A: Allocate, G: Gate>(
    rt: &R,
    book: &Book<A, G>,
    pass: &mut BookPass,
    eyes: &mut GlancePass<PlantBoard>,
    gate: &G,
    version: Version,
    group: u32,
) -> Result<(), NoMemory>
    requires pass { IsOf book.now pass.old }
    requires eyes { IsDisplayOf book.now.base eyes.old }
    ensures works { WorksOn pass.old pass.new eyes.old eyes.new (Analyse version group) result }
    ensures pass { IsOf book.now pass.new }
    ensures eyes { IsDisplayOf book.now.base eyes.new }
{
    let caller = pass.caller();
    if is_skipped(book, eyes, version.number, group) {
        return Ok(());
    }
    gate.reached(Stage::JobTaken(caller));
    publish_verdict(rt, book, pass, version, group)?;
    gate.reached(Stage::Answered(caller));
    Ok(())
}

// Whether the plant hasn't the group, or the display shows a version after the one of this number.
fn is_skipped<A: Allocate, G: Gate>(
    book: &Book<A, G>,
    eyes: &mut GlancePass<PlantBoard>,
    number: u32,
    group: u32,
) -> bool
    requires eyes { IsDisplayOf book.now.base eyes.old }
    ensures skipped { MatchBool result
        (IsSkipped book.now.base.plant eyes.new.seen number group)
        (group < length book.now.base.plant.groups.items) }
    ensures looked { LooksOn eyes.old eyes.new }
    ensures legal { IsLegal book.now.base.plant book.now.base.limit eyes.new.seen }
    ensures eyes { IsDisplayOf book.now.base eyes.new }
{
    let cells = book.glance().board(eyes);
    book.plant().groups().len() <= group as usize || number < cells.latest
}
