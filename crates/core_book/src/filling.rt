//! Fills a book up.
ghost use Rattle.std.specs.Prelude.{◌≡◌, ◌≢◌, ◌<◌, ◌≤◌, ◌+◌, ◌⊎◌, map, slice_get, true, false, Some, IfOk, IsErr, OnErr, OnOk};
ghost use Rattle.std.specs.Arc.{arc_value};
ghost use Rattle.core_book.specs.Book.{new_book};
ghost use Rattle.core_book.specs.Filling.{HoldsFindingOfSameShape, IsFindingHeldOrFiled, IsFullBook, IsOneMoreOrGreatest, IsOpenFor, IsBookFilledSoFar, RunsAtMostOncePerShape, shapes_of};
ghost use Rattle.local_run.specs.Shown.{digest_of, job_of, number_of};

use crate::book::BookState;
use certificate::{Job, job_groups};
use local_run::{Finding, run_job};
use std::alloc::{AllocError, Global};
use std::sync::Arc;

/// Makes a state hold a finding for each of these jobs.
///
/// If the state is closed, or of another digest or of other jobs, a new book of these jobs replaces it first. Then each
/// number without a finding gets one, in order, which is accepted. At most one of the jobs of one shape is run.
///
/// # Errors
///
/// Out of memory. If there was none for the new book, the state is unchanged. Else what was accepted stays.
pub fn fill(
    alloc: Global,
    state: &mut BookState,
    digest: [u8; 32],
    jobs: &[Arc<Job>],
) -> Result<(), AllocError>
    ensures full { OnOk result (IsFullBook digest (map arc_value jobs.now) state.new) }
    ensures partly_filled { IsOpenFor digest (map arc_value jobs.now) state.old →
        IsBookFilledSoFar state.old state.new }
    ensures replaced { ¬ IsOpenFor digest (map arc_value jobs.now) state.old →
        (IsErr result × (state.new ≡ state.old))
        ⊎ IsBookFilledSoFar (new_book digest (map arc_value jobs.now)) state.new }
{
    let own = is_open_for(state, digest, jobs);
    if !own {
        *state = BookState::new(alloc, digest, jobs.to_vec(alloc)?)?;
    }
    fill_open_book(alloc, state, digest, jobs, &mut 0)
}

// Whether a state is open, and of this digest and these jobs.
fn is_open_for(state: &BookState, digest: [u8; 32], jobs: &[Arc<Job>]) -> bool
    ensures open_for_jobs { result ≡ true → IsOpenFor digest (map arc_value jobs.now) state.now }
    ensures other { result ≡ false → ¬ IsOpenFor digest (map arc_value jobs.now) state.now }
{
    !state.is_closed() && state.digest() == digest && are_same_jobs(state.jobs(), jobs)
}

// Whether two lists have the same jobs.
fn are_same_jobs(own: &[Arc<Job>], jobs: &[Arc<Job>]) -> bool
    ensures same_jobs { result ≡ true → map arc_value own.now ≡ map arc_value jobs.now }
    ensures other { result ≡ false → map arc_value own.now ≢ map arc_value jobs.now }
{
    own == jobs
}

/// Makes an open state of this digest and these jobs hold a finding for each of them.
///
/// It does what `fill` does, without comparing the jobs with the state's, and adds to `runs` how many jobs it runs.
///
/// # Errors
///
/// Out of memory. The findings that were accepted stay.
pub fn fill_open_book(
    alloc: Global,
    state: &mut BookState,
    digest: [u8; 32],
    jobs: &[Arc<Job>],
    runs: &mut usize,
) -> Result<(), AllocError>
    requires open_for_jobs { IsOpenFor digest (map arc_value jobs.now) state.old }
    ensures full { OnOk result (IsFullBook digest (map arc_value jobs.now) state.new) }
    ensures partly { IsBookFilledSoFar state.old state.new }
    ensures one_run_a_shape { RunsAtMostOncePerShape (shapes_of (map arc_value jobs.now)) runs.old
        runs.new }
{
    state.prove_replays();
    if state.is_full() {
        return Ok(());
    }
    let groups = job_groups(alloc, jobs)?;
    for number in 0..jobs.len() {
        fill_number(alloc, state, number, &jobs[number], groups[number], runs)?;
    }
    state.prove_replays();
    Ok(())
}

// Files a finding for this number where none is held. `first`: the first number of its group.
fn fill_number(
    alloc: Global,
    state: &mut BookState,
    number: usize,
    job: &Arc<Job>,
    first: usize,
    runs: &mut usize,
) -> Result<(), AllocError>
    requires still_open { state.old.closed ≡ false }
    requires job { slice_get state.old.jobs number ≡ Some (arc_value job.now) }
    requires shapes_equal { first ≢ number →
        HoldsFindingOfSameShape state.old first (arc_value job.now) }
    ensures held_or_filed { OnOk result (IsFindingHeldOrFiled state.old state.new number) }
    ensures unchanged { OnErr result (state.new ≡ state.old) }
    ensures no_run { first ≢ number → runs.new ≡ runs.old }
    ensures one_run { runs.new ≤ runs.old + 1 }
{
    if state.found(number).is_some() {
        return Ok(());
    }
    let finding = moved_or_run_finding(alloc, state, number, job, first, runs)?;
    match state.file(finding) {
        Ok(_) => Ok(()),
        Err(_) => Err(AllocError),
    }
}

// The finding of a job: that of the first number of its group, moved, if one is held and the shapes are equal, else
// that of a run.
fn moved_or_run_finding(
    alloc: Global,
    state: &BookState,
    number: usize,
    job: &Arc<Job>,
    first: usize,
    runs: &mut usize,
) -> Result<Finding, AllocError>
    requires shapes_equal { first ≢ number →
        HoldsFindingOfSameShape state.now first (arc_value job.now) }
    ensures digest { IfOk result (λ f. digest_of f ≡ state.now.digest) }
    ensures number { IfOk result (λ f. number_of f ≡ number) }
    ensures job { IfOk result (λ f. job_of f ≡ arc_value job.now) }
    ensures no_run { first ≢ number → runs.new ≡ runs.old }
    ensures one_run { runs.new ≤ runs.old + 1 }
{
    if let Some(like) = state.found(first) {
        if let Some(own) = like.for_job(number, job.clone()?) {
            return Ok(own);
        }
    }
    run_job_and_count(alloc, state.digest(), number, job, runs)
}

// Runs a job and counts the run, also one that finds no memory. No other function of this crate runs jobs.
fn run_job_and_count(
    alloc: Global,
    digest: [u8; 32],
    number: usize,
    job: &Arc<Job>,
    runs: &mut usize,
) -> Result<Finding, AllocError>
    ensures digest { IfOk result (λ f. digest_of f ≡ digest) }
    ensures number { IfOk result (λ f. number_of f ≡ number) }
    ensures job { IfOk result (λ f. job_of f ≡ arc_value job.now) }
    ensures counted { IsOneMoreOrGreatest runs.old runs.new }
    ensures one_run { runs.new ≤ runs.old + 1 }
{
    *runs = runs.saturating_add(1);
    run_job(alloc, digest, number, job.clone()?)
}
