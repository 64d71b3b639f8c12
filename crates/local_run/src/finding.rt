//! The result of a job's run.
ghost use Rattle.std.specs.Prelude.{◌≡◌, ◌≢◌, Some, IfNone, IfSome};
ghost use Rattle.std.specs.Arc.{arc_value};
ghost use Rattle.std.specs.Option.{option_map};
ghost use Rattle.module_job.specs.Shapes.{shape_of};
ghost use Rattle.local_run.specs.Faults.{IsFault, IsLeastFault, IsLeastFault-prop, IsLeastKeepFault, IsLeastKeepFault-prop};
ghost use Rattle.local_run.specs.Moves.{fault_moved_to_job};

use crate::fault::{Fault, KeepFault};
use module_box::moved_cell;
use module_job::Job;
use std::sync::Arc;

/// The result of a job's run, with the digest of the certificate and the number of the module that it was made for.
///
/// Each finding is honest, by its type. Its fault is the least fault of its own job, or `None` if that job has no
/// fault. Its keep fault is the least one too.
#[derive(Drop)]
pub struct Finding {
    digest: [u8; 32],
    number: usize,
    job: Arc<Job>,
    fault: Option<Fault>,
    keep: Option<KeepFault>,
    pub ghost honest: { IsLeastFault (arc_value job) fault } by { IsLeastFault-prop (arc_value job) fault },
    pub ghost keeps: { IsLeastKeepFault (arc_value job) keep } by { IsLeastKeepFault-prop (arc_value job) keep },
}

// The fault at the place in the box of `to` that the fault has in the box of `from`.
#[tactic(auto, using(crate::proofs::MovedJobs::fault_near))]
fn fault_moved_to_job(from: &Job, to: &Job, fault: Fault) -> Fault
    requires { IsFault from.now fault }
    ensures { result ≡ fault_moved_to_job from.now to.now fault }
{
    let here = from.area();
    let there = to.area();
    let columns = there.x as i32 - here.x as i32;
    let rows = there.y as i32 - here.y as i32;
    Fault {
        time: fault.time,
        kind: fault.kind,
        cell: moved_cell(fault.cell, columns, rows),
        assignment: fault.assignment,
    }
}

// The least fault of a job is that of each job of the same shape, moved.
fn least_fault_moved(from: &Job, to: &Job, fault: Option<Fault>) -> Option<Fault>
    requires least { IsLeastFault from.now fault }
    requires same_shape { shape_of from.now ≡ shape_of to.now }
    ensures moved { result ≡ option_map (fault_moved_to_job from.now to.now) fault }
    ensures least { IsLeastFault to.now result }
{
    from.prove_valid();
    to.prove_valid();
    match fault {
        Some(fault) => Some(fault_moved_to_job(from, to, fault)),
        None => None,
    }
}

impl Finding {
    ghost use Rattle.local_run.specs.Shown.{digest_of, number_of, job_of, fault_of, keep_fault_of};

    pub(crate) fn new(
        digest: [u8; 32],
        number: usize,
        job: Arc<Job>,
        fault: Option<Fault>,
        keep: Option<KeepFault>,
    ) -> Finding
        requires fault { IsLeastFault (arc_value job) fault }
        requires keep { IsLeastKeepFault (arc_value job) keep }
        ensures { (digest_of result ≡ digest) × (number_of result ≡ number)
            × (job_of result ≡ arc_value job) × (fault_of result ≡ fault)
            × (keep_fault_of result ≡ keep) }
    {
        Finding {
            digest,
            number,
            job,
            fault,
            keep,
        }
    }

    /// Returns the digest that the finding was made for.
    pub fn digest(&self) -> [u8; 32]
        ensures { result ≡ digest_of self.now }
    {
        self.digest
    }

    /// Returns the number of the module that the finding was made for.
    pub fn number(&self) -> usize
        ensures { result ≡ number_of self.now }
    {
        self.number
    }

    /// Returns the job.
    pub fn job(&self) -> &Arc<Job>
        ensures { arc_value result.now ≡ job_of self.now }
    {
        &self.job
    }

    /// Returns the least fault of the job, or `None` if it has no fault.
    pub fn fault(&self) -> Option<Fault>
        ensures value { result ≡ fault_of self.now }
        ensures fault_is_least { IsLeastFault (job_of self.now) result }
    {
        self.fault
    }

    /// Returns the least keep fault of the job, or `None` if it has none.
    pub fn keep(&self) -> Option<KeepFault>
        ensures value { result ≡ keep_fault_of self.now }
        ensures keep_fault_is_least { IsLeastKeepFault (job_of self.now) result }
    {
        self.keep
    }

    /// Makes the finding of another job of the same shape without another run, or `None` if the job has another shape.
    ///
    /// It is for a module of this number of the certificate with the same digest. Its fault is that of this finding,
    /// moved to where the job lies, and its keep fault is the same. It takes no memory.
    #[tactic(auto, using(module_job::proofs::EqualJobs::shapes_decide))]
    pub fn for_job(&self, number: usize, job: Arc<Job>) -> Option<Finding>
        ensures shapes { IfSome result (λ _. shape_of (job_of self.now)
            ≡ shape_of (arc_value job)) }
        ensures none { IfNone result (shape_of (job_of self.now) ≢ shape_of (arc_value job)) }
        ensures digest { IfSome result (λ f. digest_of f ≡ digest_of self.now) }
        ensures number { IfSome result (λ f. number_of f ≡ number) }
        ensures job { IfSome result (λ f. job_of f ≡ arc_value job) }
        ensures keep { IfSome result (λ f. keep_fault_of f ≡ keep_fault_of self.now) }
        ensures fault { IfSome result (λ f. fault_of f
            ≡ option_map (fault_moved_to_job (job_of self.now) (arc_value job))
            (fault_of self.now)) }
    {
        let same = **self.job.shape() == **job.shape();
        if !same {
            return None;
        }
        Some(self.for_same_shape(number, job))
    }

    /// Makes the finding of another job, as [`for_job`](Finding::for_job) does, where it is known that the job has the
    /// same shape. It compares nothing.
    #[tactic(auto, using(crate::proofs::MovedJobs::least_keep_stays))]
    pub fn for_same_shape(&self, number: usize, job: Arc<Job>) -> Finding
        requires shapes { shape_of (job_of self.now) ≡ shape_of (arc_value job) }
        ensures digest { digest_of result ≡ digest_of self.now }
        ensures number { number_of result ≡ number }
        ensures job { job_of result ≡ arc_value job }
        ensures keep { keep_fault_of result ≡ keep_fault_of self.now }
        ensures fault { fault_of result
            ≡ option_map (fault_moved_to_job (job_of self.now) (arc_value job))
            (fault_of self.now) }
    {
        let fault = least_fault_moved(&self.job, &job, self.fault);
        Finding::new(self.digest, number, job, fault, self.keep)
    }
}
