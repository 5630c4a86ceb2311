//! Jobs that are pushed and taken, on one thread and on two.
ghost use Rattle.std.specs.Prelude.{◌≡◌};

use analysis_jobs::{Job, JobPass, Jobs, Rest};
use plant_model::limits::MOST_JOBS;
use plant_model::status::{Status, Version};
use plant_model::wrench::Wrench;
use std::sync::Wait;
use std::test::Fail;
use std::thread::{Threads, join};

/// An analysis of the opening, of whichever group.
fn analysis(group: u32) -> Job {
    let version = Version {
        number: 0,
        status: Status::default(),
        demand: Wrench::default(),
    };
    Job::Analyse { version, group }
}

/// Pushes as many jobs as there is room for, each about the next group, and gives how many those are.
fn fill<R: Wait>(rt: &R, jobs: &Jobs, pass: &mut JobPass) -> u32
    requires { pass.old.queue ≡ jobs.now }
    ensures { pass.new.queue ≡ jobs.now }
{
    for group in 0..u32::MAX {
        if let Err(back) = jobs.push(rt, pass, analysis(group)) {
            return if back == analysis(group) { group } else { 0 };
        }
    }
    0
}

/// Takes jobs until there are none, and says whether they are about the groups below this number, in
/// their order.
fn empty<R: Wait>(rt: &R, jobs: &Jobs, pass: &mut JobPass, groups: u32) -> bool
    requires { pass.old.queue ≡ jobs.now }
    ensures { pass.new.queue ≡ jobs.now }
{
    for group in 0..groups {
        if jobs.take(rt, pass) != Some(analysis(group)) {
            return false;
        }
    }
    jobs.take(rt, pass).is_none()
}

#[test]
fn a_queue_gives_its_jobs_in_their_order(rt: HostRuntime) -> Result<(), Fail> {
    let (jobs, mut pass) = Jobs::new(rt.alloc())?;
    let mut other = jobs.pass(&mut pass)?;
    let pushed = fill(&rt, &jobs, &mut pass);
    assert_eq!(rt; pushed as usize, MOST_JOBS);
    assert!(rt; empty(&rt, &jobs, &mut other, pushed));
    Ok(())
}

/// Takes a job, and rests where there is none yet.
fn wait<R: Wait>(rt: &R, jobs: &Jobs, mut pass: JobPass, rest: &Rest) -> Option<Job>
    requires { pass.queue ≡ jobs.now }
{
    let mark = rest.mark();
    if let Some(job) = jobs.take(rt, &mut pass) {
        return Some(job);
    }
    rest.rest(rt, mark);
    jobs.take(rt, &mut pass)
}

fn hand_over<R: Threads + Wait + Sync>(
    rt: &R,
    jobs: &Jobs,
    rest: &Rest,
    mut pass: JobPass,
    other: JobPass,
) -> Option<Job>
    requires pass { pass.queue ≡ jobs.now }
    requires other { other.queue ≡ jobs.now }
{
    let ((), taken) = join(
        rt,
        move ||
            requires { pass.queue ≡ jobs.now }
        {
            let _ = jobs.push(rt, &mut pass, Job::Stop);
            rest.wake(rt);
        },
        move || -> Option<Job>
            requires { other.queue ≡ jobs.now }
        { wait(rt, jobs, other, rest) },
    );
    taken
}

#[test]
fn a_job_ends_the_rest_of_the_one_who_waits_for_it(rt: HostRuntime) -> Result<(), Fail> {
    let (jobs, mut pass) = Jobs::new(rt.alloc())?;
    let other = jobs.pass(&mut pass)?;
    let taken = hand_over(&rt, &jobs, &Rest::new(), pass, other);
    assert_eq!(rt; taken, Some(Job::Stop));
    Ok(())
}
