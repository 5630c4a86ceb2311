//! The queue, and the passes that push and take.
ghost use Rattle.std.specs.Prelude.{◌≡◌, IfOk, IsOk, IfErr, OnOk, OnErr, IfSome, IfNone};
ghost use Rattle.analysis_jobs.specs.Hands.{with_pushed, with_taken};
ghost use Rattle.analysis_jobs.specs.Passes.{WasEmpty, WasFull, new_pass, with_hand};

use crate::job::Job;
use crate::rule::{Conserved, Hand, Newcomer, Push, Take};
use crossbeam_queue::{Pass, RuledArrayQueue};
use no_memory::NoMemory;
use plant_model::limits::MOST_JOBS;
use std::alloc::Global;
use std::marker::Model;
use std::sync::Wait;

/// A queue of at most [`MOST_JOBS`] jobs, under the rule that jobs are [`Conserved`]. To a contract it
/// is what tells it from any other queue, and a pass is used with the queue that made it.
#[derive(Drop)]
pub struct Jobs {
    queue: RuledArrayQueue<Job, Hand, Conserved>,
}

impl Model for Jobs {
    ghost use Rattle.std.specs.Prelude.{◌≡◌};
    ghost use Rattle.atomic_table.specs.Seated.{TableId};
    ghost use Rattle.crossbeam_queue.specs.Passes.{ruled_capacity};
    ghost use Rattle.plant_model.specs.declared.limits.TheConstants.{MOST_JOBS};

    ghost Value = { TableId };

    ghost view = { λ jobs. jobs.queue.table.shared.table_id };

    ghost invariant = { λ jobs. ruled_capacity jobs.queue ≡ MOST_JOBS };
}

/// A token for one queue, which one thread holds. It shows the jobs that were pushed with it and those
/// that were taken.
#[derive(Drop)]
pub struct JobPass {
    pass: Pass<Job, Hand>,
}

impl Model for JobPass {
    ghost use Rattle.std.specs.Prelude.{◌≡◌, []};
    ghost use Rattle.analysis_jobs.specs.Passes.{JobHand, hand_of};

    ghost Value = { JobHand };

    ghost view = { λ p. record { queue = p.pass.table_id; hand = hand_of p.pass } };

    ghost invariant = { λ p. p.pass.me.1 ≡ [] };
}

impl Jobs {
    /// An empty queue, and a pass that has done nothing. `NoMemory` where there is none for the queue.
    pub fn new(alloc: Global) -> Result<(Jobs, JobPass), NoMemory>
        ensures { IfOk result (λ r. r.1 ≡ new_pass r.0) }
    {
        let (queue, pass) = RuledArrayQueue::ruled(alloc, MOST_JOBS)?;
        Ok((Jobs { queue }, JobPass { pass }))
    }

    /// A new pass, which has done nothing. It takes no memory, so the answer is always Ok.
    pub fn pass(&self, own: &mut JobPass) -> Result<JobPass, NoMemory>
        requires { own.old.queue ≡ self.now }
        ensures always { IsOk result }
        ensures pass { IfOk result (λ pass. pass ≡ new_pass self.now) }
        ensures own { own.new ≡ own.old }
    {
        let pass = self.queue.another::<Newcomer>(&mut own.pass);
        Ok(JobPass { pass })
    }

    /// Puts a job at the end of the queue. It is given back only where the queue was full at a moment
    /// of the call.
    pub fn push<R: Wait>(&self, rt: &R, pass: &mut JobPass, job: Job) -> Result<(), Job>
        requires { pass.old.queue ≡ self.now }
        ensures pushed { OnOk result
            (pass.new ≡ with_hand pass.old (with_pushed pass.old.hand job)) }
        ensures back { IfErr result (λ back. back ≡ job) }
        ensures kept { OnErr result (pass.new ≡ pass.old) }
        ensures full { OnErr result (WasFull pass.old) }
        ensures queue { pass.new.queue ≡ self.now }
    {
        self.queue.push_as::<Push, R>(rt, &mut pass.pass, job)
    }

    /// Takes the job at the front of the queue. None only where the queue was empty at a moment of the
    /// call.
    pub fn take<R: Wait>(&self, rt: &R, pass: &mut JobPass) -> Option<Job>
        requires { pass.old.queue ≡ self.now }
        ensures taken { IfSome result
            (λ job. pass.new ≡ with_hand pass.old (with_taken pass.old.hand job)) }
        ensures kept { IfNone result (pass.new ≡ pass.old) }
        ensures empty { IfNone result (WasEmpty pass.old) }
        ensures queue { pass.new.queue ≡ self.now }
    {
        self.queue.pop_as::<Take, R>(rt, &mut pass.pass)
    }
}
