//! Runs the modules of a certificate by several workers, and keeps what they file.
ghost use Rattle.std.specs.Prelude.{◌≡◌, ◌<◌, ◌≤◌, false, [], length, map, IfOk, OnOk};
ghost use Rattle.std.specs.Arc.{arc_value};
ghost use Rattle.core_book.specs.Book.{IsHistoryReplayed};
ghost use Rattle.core_book.specs.Filling.{IsOpenFor};
ghost use Rattle.module_job.specs.Groups.{AreGroups};
ghost use Rattle.core_book.specs.Concluding.{modules};
ghost use Rattle.core_book.specs.Replay.{has_closing};
ghost use Rattle.core_book.specs.Filling.{shapes_of};
ghost use Rattle.check_main.specs.Preparing.{IsNewBookOf};
ghost use Rattle.check_main.specs.Audits.{IsAuditOf, IsClosedOnce, IsFilledAndClosed, filings_in};
ghost use Rattle.lemmas.specs.Bounds.{max_modules};

use certificate::{Cert, Job, job_groups};
use core_book::{BookState, fill_open_book};
use job_pool::{Gate, WorkEnd, work};
use std::alloc::{AllocError, Global};
use std::marker::Brand;
use std::sync::ledger::{Blank, Ledger};
use std::sync::{Arc, Wait};
use std::thread::Threads;
use verdict_book::{Book, Filings, Share, gather};

/// The findings of all modules.
#[derive(Drop)]
pub struct Audited {
    /// The book, which is closed, and holds a finding of each module's job.
    pub state: BookState,
    /// Whether a worker found no memory for something. The book is complete in either case.
    pub memory: bool,
}

/// Runs the modules of a certificate by 1 to 64 workers, into one book of its jobs under its digest.
///
/// The workers file their findings. Then `audit` files the findings that the workers left, and closes the book. All
/// workers have ended when it returns.
///
/// A worker draws numbers of modules until no number is left, in a thread of its own if one can be made. If a module is
/// the first of its shape, the worker runs its job and files the findings of all modules of that shape. The gate hears
/// of each number that a worker draws.
///
/// # Errors
///
/// Out of memory before the workers began, for the findings that they left, or for the closing entry. It is no error
/// that a worker lacked memory.
pub fn audit<G: Gate + Sync, R: Threads + Wait + Sync>(
    rt: &R,
    alloc: Global,
    cert: &Cert<'_>,
    workers: usize,
    gate: &G,
) -> Result<Audited, AllocError>
    requires workers { (0 < workers) × (workers ≤ 64) }
    ensures full { IfOk result (λ audited. IsAuditOf cert.now audited.state) }
    ensures replays { IfOk result (λ audited. IsHistoryReplayed audited.state) }
    ensures closed { IfOk result (λ audited. IsClosedOnce audited.state.history) }
    ensures filed { IfOk result (λ audited. length (modules cert.now) ≤ length
        (filings_in audited.state.history)) }
{
    let digest = cert.digest(alloc)?;
    let jobs = cert.jobs(alloc)?;
    let state = BookState::new(alloc, digest, jobs)?;
    audit_new_book(rt, alloc, cert, state, workers, gate)
}

/// Runs the modules of a certificate as `audit` does, into a new book of its jobs under its digest.
pub(crate) fn audit_new_book<G: Gate + Sync, R: Threads + Wait + Sync>(
    rt: &R,
    alloc: Global,
    cert: &Cert<'_>,
    state: BookState,
    workers: usize,
    gate: &G,
) -> Result<Audited, AllocError>
    requires workers { (0 < workers) × (workers ≤ 64) }
    requires book { IsNewBookOf cert.now state }
    ensures full { IfOk result (λ audited. IsAuditOf cert.now audited.state) }
    ensures replays { IfOk result (λ audited. IsHistoryReplayed audited.state) }
    ensures closed { IfOk result (λ audited. IsClosedOnce audited.state.history) }
    ensures filed { IfOk result (λ audited. length (modules cert.now) ≤ length
        (filings_in audited.state.history)) }
{
    cert.prove_valid();
    let digest = state.digest();
    let copies = state.jobs().to_vec(alloc)?;
    let groups = job_groups(alloc, &copies)?;
    let unopened = BookToOpen {
        state,
        filings: Blank::new(workers as u64),
        acceptances: Blank::new(workers as u64),
        workers,
    };
    let mut audited = work_on_new_book::<Brand, Brand, G, R>(
        rt, alloc, gate, &copies, &groups, unopened,
    )?;
    fill_and_close(alloc, &mut audited.state, digest, &copies)?;
    Ok(audited)
}

// Files what the workers left, and closes the book. Nothing that they filed is lost.
fn fill_and_close(
    alloc: Global,
    state: &mut BookState,
    digest: [u8; 32],
    jobs: &[Arc<Job>],
) -> Result<(), AllocError>
    requires open_for_jobs { IsOpenFor digest (map arc_value jobs.now) state.old }
    ensures completed { OnOk result (IsFilledAndClosed digest (map arc_value jobs.now) state.old
        state.new) }
    ensures replays { OnOk result (IsHistoryReplayed state.new) }
{
    fill_open_book(alloc, state, digest, jobs, &mut 0)?;
    state.close()?;
    state.prove_replays();
    Ok(())
}

// A state without history, and the blanks of two ledgers with a part for each worker.
#[derive(Drop)]
struct BookToOpen {
    state: BookState,
    filings: Blank,
    acceptances: Blank,
    workers: usize,
}

// What the workers filed of these jobs into a book, over two ledgers. It is still open.
fn work_on_new_book<F: Filings + Sync, A: Ledger + Sync, G: Gate + Sync, R: Threads + Wait + Sync>(
    rt: &R,
    alloc: Global,
    gate: &G,
    jobs: &[Arc<Job>],
    groups: &[usize],
    unopened: BookToOpen,
) -> Result<Audited, AllocError>
    requires filings { (unopened.filings.name ≡ F.name) × (unopened.filings.parts ≡ F.parts)
        × (unopened.filings.parts ≡ unopened.workers) }
    requires acceptances { (unopened.acceptances.name ≡ A.name)
        × (unopened.acceptances.parts ≡ A.parts)
        × (unopened.acceptances.parts ≡ unopened.workers) }
    requires workers { (0 < unopened.workers) × (unopened.workers ≤ 64) }
    requires jobs { length jobs.now ≤ max_modules }
    requires groups { AreGroups (shapes_of (map arc_value jobs.now)) groups.now }
    requires ledger_names_book { (unopened.state.digest ≡ F.digest)
        × (unopened.state.jobs ≡ F.jobs) }
    requires history_empty { unopened.state.history ≡ [] }
    ensures open_for_jobs { IfOk result (λ audited. IsOpenFor F.digest F.jobs audited.state) }
    ensures no_closing { IfOk result (λ audited. has_closing audited.state.history ≡ false) }
    ensures filed { IfOk result (λ audited. audited.memory ≡ false →
        length audited.state.history ≡ length jobs.now) }
{
    let BookToOpen {
        state,
        filings,
        acceptances,
        workers,
    } = unopened;
    let (book, shares): (Book<F, A>, Vec<Share<F, A>>) = Book::open(
        alloc,
        filings,
        acceptances,
        state,
        workers,
    )?;
    let WorkEnd {
        shares,
        memory,
        runs: _,
    } = work(rt, alloc, gate, jobs, groups, &book, shares);
    let Ok(gathered) = gather(book, shares) else {
        unreachable!()
    };
    Ok(Audited {
        state: gathered.state,
        memory,
    })
}
