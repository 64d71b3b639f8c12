//! `verdict_book` and `job_pool`.
ghost use Rattle.std.specs.Prelude.{◌≡◌, ◌<◌, ◌≤◌, [], All, length, map, vec_len};
ghost use Rattle.std.specs.Arc.{arc_value};
ghost use Rattle.job_pool.specs.Seats.{IsSeatOf};
ghost use Rattle.module_job.specs.Groups.{AreGroups};
ghost use Rattle.core_book.specs.Filling.{shapes_of};
ghost use Rattle.lemmas.specs.Bounds.{max_modules};

use certificate::Job;
use core_book::{BookState, Claim, NotFiled, Reply};
use job_pool::{CloseFault, Closed, Desk, DeskSeat, Gate, OpenGate, WorkEnd, work};
use local_run::Finding;
use std::alloc::{AllocError, Global};
use std::sync::ledger::{Blank, Ledger};
use std::sync::{Arc, Wait};
use std::thread::Threads;
use verdict_book::{Book, Filings, Gathered, NotAll, Share, gather};

/// Opens a book.
pub fn open_book<F: Filings, A: Ledger>(
    alloc: Global,
    f: Blank,
    a: Blank,
    state: BookState,
    shares: usize,
) -> Result<(Book<F, A>, Vec<Share<F, A>>), AllocError>
    requires filings { (f.name ≡ F.name) × (f.parts ≡ F.parts) × (f.parts ≡ shares) }
    requires acceptances { (a.name ≡ A.name) × (a.parts ≡ A.parts) × (a.parts ≡ shares) }
    requires count { (0 < shares) × (shares ≤ 64) }
    requires ledger_names_book { (state.digest ≡ F.digest) × (state.jobs ≡ F.jobs) }
    requires history_empty { state.history ≡ [] }
{
    Book::open(alloc, f, a, state, shares)
}

/// Files a finding, and returns what the share counted.
pub fn file_finding<F: Filings, A: Ledger, R: Wait>(
    rt: &R,
    book: &Book<F, A>,
    share: &mut Share<F, A>,
    finding: Finding,
) -> (Option<Reply>, u64, u64) {
    let reply = match book.file(rt, share, finding) {
        Ok(reply) => Some(reply),
        Err(NotFiled { finding: _ }) => None,
    };
    (reply, share.filed(), share.accepted())
}

/// Gathers a book and its shares, and returns what they counted, or how many shares were handed in.
pub fn gather_counts<F: Filings, A: Ledger>(
    book: Book<F, A>,
    shares: Vec<Share<F, A>>,
) -> Result<(BookState, u64, u64), usize> {
    match gather(book, shares) {
        Ok(
            Gathered {
                state,
                filed,
                accepted,
            },
        ) => Ok((state, filed, accepted)),
        Err(NotAll { book: _, shares }) => Err(shares.len()),
    }
}

/// Opens a desk of ten numbers and two seats.
pub fn open_desk(alloc: Global) -> Result<usize, AllocError> {
    let opened: (Desk, Vec<DeskSeat>) = Desk::open(alloc, 10, 2)?;
    Ok(opened.1.len())
}

/// Draws a number, and looks how many are left.
pub fn claim_and_look(desk: &Desk, seat: &mut DeskSeat) -> (Option<usize>, usize)
    requires { IsSeatOf desk.now seat.old }
{
    let claimed = match desk.claim(seat) {
        Claim::Number(number) => Some(number),
        Claim::Empty => None,
    };
    (claimed, desk.left(seat))
}

/// Closes a desk, and returns its counter, or whether a seat was missing.
pub fn close_desk(alloc: Global, desk: Desk, seats: Vec<DeskSeat>) -> Result<(usize, usize), bool>
    requires { All (IsSeatOf desk) seats.items }
{
    match desk.close(alloc, seats) {
        Ok(Closed { draws, counter }) => Ok((draws.len(), counter)),
        Err(
            CloseFault {
                desk: _,
                seats: _,
                missing,
            },
        ) => Err(missing),
    }
}

/// Reports a number to a gate, before and after its job.
pub fn tell_gate(gate: &impl Gate, number: usize) {
    gate.before(number);
    gate.after(number);
}

/// Works with an open gate, and returns how many jobs were run.
pub fn work_with_open_gate<F: Filings + Sync, A: Ledger + Sync, R: Threads + Wait + Sync>(
    rt: &R,
    alloc: Global,
    jobs: &[Arc<Job>],
    groups: &[usize],
    book: &Book<F, A>,
    shares: Vec<Share<F, A>>,
) -> (usize, usize, bool)
    requires jobs { length jobs.now ≤ max_modules }
    requires groups { AreGroups (shapes_of (map arc_value jobs.now)) groups.now }
    requires shares { (0 < vec_len shares) × (vec_len shares ≤ 64) }
{
    let WorkEnd {
        shares,
        memory,
        runs,
    } = work(rt, alloc, &OpenGate, jobs, groups, book, shares);
    (shares.len(), runs, memory)
}
