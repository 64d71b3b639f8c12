//! One worker.
ghost use Rattle.std.specs.Prelude.{◌≡◌, ◌≢◌, ◌+◌, ◌<◌, IfOk, OnErr, OnOk, Some, length, map, slice_get, slice_index};
ghost use Rattle.std.specs.Arc.{arc_value};
ghost use Rattle.core_book.specs.Draws.{occurrences};
ghost use Rattle.module_job.specs.Groups.{AreGroups};
ghost use Rattle.module_job.specs.Shapes.{shape_of};
ghost use Rattle.local_run.specs.Shown.{digest_of, job_of};
ghost use Rattle.verdict_book.specs.Counts.{counts_after_reply};
ghost use Rattle.verdict_book.specs.Replies.{IsReplyOf};
ghost use Rattle.job_pool.specs.Links.{AreGroupLinks};
ghost use Rattle.job_pool.specs.Seats.{number_count_of};
ghost use Rattle.core_book.specs.Filling.{IsOneMoreOrGreatest, shapes_of};
ghost use Rattle.job_pool.specs.Work.{AreCountsNotLess, HasWorked, IsReadyWorker};

use crate::desk::{Desk, DeskSeat};
use crate::gate::Gate;
use certificate::Job;
use core_book::{Claim, Reply};
use local_run::{Finding, run_job};
use std::alloc::{AllocError, Global};
use std::sync::ledger::Ledger;
use std::sync::{Arc, Wait};
use verdict_book::{Book, Filings, Share};

/// The state that all workers share.
#[derive(Drop)]
pub struct SharedWork<'a, F: Filings, A: Ledger, G> {
    pub(crate) gate: &'a G,
    pub(crate) jobs: &'a [Arc<Job>],
    /// For each job the number of the first of its shape.
    pub(crate) groups: &'a [usize],
    /// For each job the number of the next of its shape, or the count of jobs if it is the last.
    pub(crate) links: &'a [usize],
    pub(crate) desk: &'a Desk,
    pub(crate) book: &'a Book<F, A>,
}

/// A seat to draw with, a share to file through, whether the worker stopped since it was out of memory, and how many
/// jobs it ran.
#[derive(Drop)]
pub struct Worker<F: Filings, A: Ledger> {
    pub(crate) seat: DeskSeat,
    pub(crate) share: Share<F, A>,
    pub(crate) starved: bool,
    pub(crate) runs: usize,
}

impl<F: Filings, A: Ledger> Worker<F, A> {
    /// Draws numbers until none is left or there is no memory.
    ///
    /// If a number is the first of its group, it runs the job and files the findings of all members.
    pub(crate) fn run<G: Gate, R: Wait>(
        &mut self,
        rt: &R,
        alloc: Global,
        shared_work: &SharedWork<'_, F, A, G>,
    )
        requires ready { IsReadyWorker shared_work.now.desk.now self.old }
        requires all { number_count_of shared_work.now.desk.now ≡ length shared_work.now.jobs.now }
        requires groups { AreGroups (shapes_of (map arc_value shared_work.now.jobs.now))
            shared_work.now.groups.now }
        requires links { AreGroupLinks shared_work.now.groups.now shared_work.now.links.now }
        ensures { HasWorked shared_work.now.desk.now shared_work.now.groups.now self.old self.new }
    {
        while let Claim::Number(number) = shared_work.desk.claim(&mut self.seat) {
            shared_work.gate.before(number);
            let share = &mut self.share;
            let runs = &mut self.runs;
            match run_group_if_first(rt, alloc, shared_work, number, share, runs) {
                Ok(()) => shared_work.gate.after(number),
                Err(_) => {
                    self.starved = true;
                    return;
                }
            }
        }
    }
}

// Runs the job of a number that is the first of its group, and files the findings of all members of the group under the
// book's digest. For another number there is nothing to do.
fn run_group_if_first<F: Filings, A: Ledger, G, R: Wait>(
    rt: &R,
    alloc: Global,
    shared_work: &SharedWork<'_, F, A, G>,
    number: usize,
    share: &mut Share<F, A>,
    runs: &mut usize,
) -> Result<(), AllocError>
    requires number { number < length shared_work.now.jobs.now }
    requires groups { AreGroups (shapes_of (map arc_value shared_work.now.jobs.now))
        shared_work.now.groups.now }
    requires links { AreGroupLinks shared_work.now.groups.now shared_work.now.links.now }
    ensures filed { OnOk result (share.new.filed
        ≡ share.old.filed + occurrences number shared_work.now.groups.now) }
    ensures risen { AreCountsNotLess share.old share.new }
    ensures no_run { slice_index shared_work.now.groups.now number ≢ number → runs.new ≡ runs.old }
    ensures one_run { slice_index shared_work.now.groups.now number ≡ number →
        IsOneMoreOrGreatest runs.old runs.new }
{
    let (jobs, groups) = (shared_work.jobs, shared_work.groups);
    if groups[number] != number {
        return Ok(());
    }
    let digest = shared_work.book.digest();
    let finding = run_job_and_count(alloc, digest, number, &jobs[number], runs)?;
    file_members(rt, shared_work, &finding, number, share)
}

// Runs a job and counts the run, also one that finds no memory. No other function of this crate runs jobs.
fn run_job_and_count(
    alloc: Global,
    digest: [u8; 32],
    number: usize,
    job: &Arc<Job>,
    runs: &mut usize,
) -> Result<Finding, AllocError>
    ensures digest { IfOk result (λ f. digest_of f ≡ digest) }
    ensures job { IfOk result (λ f. job_of f ≡ arc_value job.now) }
    ensures counted { IsOneMoreOrGreatest runs.old runs.new }
{
    *runs = runs.saturating_add(1);
    run_job(alloc, digest, number, job.clone()?)
}

// Files the findings of all members of a group, by that of its first number. It looks at no other job.
fn file_members<F: Filings, A: Ledger, G, R: Wait>(
    rt: &R,
    shared_work: &SharedWork<'_, F, A, G>,
    finding: &Finding,
    number: usize,
    share: &mut Share<F, A>,
) -> Result<(), AllocError>
    requires groups { AreGroups (shapes_of (map arc_value shared_work.now.jobs.now))
        shared_work.now.groups.now }
    requires links { AreGroupLinks shared_work.now.groups.now shared_work.now.links.now }
    requires first { slice_get (map arc_value shared_work.now.jobs.now) number
        ≡ Some (job_of finding.now) }
    requires in_own_group { slice_index shared_work.now.groups.now number ≡ number }
    requires digest { digest_of finding.now ≡ F.digest }
    ensures filed { OnOk result (share.new.filed
        ≡ share.old.filed + occurrences number shared_work.now.groups.now) }
    ensures risen { AreCountsNotLess share.old share.new }
{
    let jobs = shared_work.jobs;
    let mut member = number;
    while member < jobs.len() {
        file_member(rt, shared_work.book, finding, member, &jobs[member], share)?;
        member = shared_work.links[member];
    }
    Ok(())
}

// Files the finding of a job of the same shape.
fn file_member<F: Filings, A: Ledger, R: Wait>(
    rt: &R,
    book: &Book<F, A>,
    finding: &Finding,
    member: usize,
    job: &Arc<Job>,
    share: &mut Share<F, A>,
) -> Result<Reply, AllocError>
    requires shape { shape_of (job_of finding.now) ≡ shape_of (arc_value job.now) }
    requires digest { digest_of finding.now ≡ F.digest }
    ensures reply { IfOk result (IsReplyOf F.digest F.jobs F.digest member (arc_value job.now)) }
    ensures counted { IfOk result (λ reply. share.new ≡ counts_after_reply share.old reply) }
    ensures unchanged { OnErr result (share.new ≡ share.old) }
{
    let own = finding.for_same_shape(member, job.clone()?);
    match book.file(rt, share, own) {
        Ok(reply) => Ok(reply),
        Err(_) => Err(AllocError),
    }
}
