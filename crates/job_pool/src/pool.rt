//! Workers in threads of their own.
ghost use Rattle.std.specs.Prelude.{◌≡◌, ℕ, ◌+◌, ◌<◌, ◌≤◌, false, [], length, map, slice_index_or, vec_len, vec_capacity, All, IfOk};
ghost use Rattle.std.specs.Arc.{arc_value};
ghost use Rattle.module_job.specs.Groups.{AreGroups};
ghost use Rattle.job_pool.specs.Links.{AreGroupLinks};
ghost use Rattle.job_pool.specs.Seats.{IsNewSeatOf, number_count_of, seat_count_of};
ghost use Rattle.core_book.specs.Filling.{shapes_of};
ghost use Rattle.job_pool.specs.Work.{HasWorked, AreSharesNotLess, IsReadyWorker, sum_of_filed, seats_of, shares_of};
ghost use Rattle.lemmas.specs.Bounds.{max_modules};

use crate::desk::{Desk, DeskSeat};
use crate::gate::Gate;
use crate::links::link_members;
use crate::worker::{SharedWork, Worker};
use certificate::Job;
use std::alloc::{AllocError, Global};
use std::sync::ledger::Ledger;
use std::sync::{Arc, Wait};
use std::thread;
use std::thread::Threads;
use verdict_book::{Book, Filings, Share};

/// The rest after all workers have ended.
#[derive(Drop)]
pub struct WorkEnd<F: Filings, A: Ledger> {
    /// The shares that were passed in: as many, and none of them counts less than before.
    pub shares: Vec<Share<F, A>>,
    /// Whether there was no memory for something. Otherwise as many findings were filed as there are jobs.
    pub memory: bool,
    /// How many runs of jobs the workers began.
    pub runs: usize,
}

// The links of the jobs, and room for the workers, and later for their seats and shares.
#[derive(Drop)]
struct ReservedLists<F: Filings, A: Ledger> {
    links: Vec<usize>,
    workers: Vec<Worker<F, A>>,
    seats: Vec<DeskSeat>,
    shares: Vec<Share<F, A>>,
}

/// Files the findings of all jobs under the book's digest, by one worker a share. All workers have ended when it
/// returns.
///
/// There are at most 65,536 jobs, numbered from 0 in their order, and 1 to 64 shares of the book. `groups` has for each
/// job the number of the first of its shape.
///
/// Each worker draws numbers at a desk, in a thread of its own if one can be made, until no number is left. The worker
/// that draws the first number of a group of jobs of the same shape runs its job and files the findings of all members.
/// A worker that draws another number files nothing for it. A worker that is out of memory stops, and leaves the
/// remaining numbers to the others. No share counts less than before.
pub fn work<F: Filings + Sync, A: Ledger + Sync, G: Gate + Sync, R: Threads + Wait + Sync>(
    rt: &R,
    alloc: Global,
    gate: &G,
    jobs: &[Arc<Job>],
    groups: &[usize],
    book: &Book<F, A>,
    shares: Vec<Share<F, A>>,
) -> WorkEnd<F, A>
    requires jobs { length jobs.now ≤ max_modules }
    requires groups { AreGroups (shapes_of (map arc_value jobs.now)) groups.now }
    requires shares { (0 < vec_len shares) × (vec_len shares ≤ 64) }
    ensures shares { AreSharesNotLess shares.items result.shares.items }
    ensures filed { result.memory ≡ false →
        sum_of_filed result.shares.items ≡ sum_of_filed shares.items + length jobs.now }
{
    let Ok((desk, seats, rooms)) = open_desk_and_reserve(alloc, groups, shares.len()) else {
        return WorkEnd {
            shares,
            memory: true,
            runs: 0,
        };
    };
    let ReservedLists {
        links,
        workers,
        seats: ended,
        shares: returned,
    } = rooms;
    let mut workers = make_workers(seats, shares, workers, &desk);
    let shared_work = SharedWork {
        gate,
        jobs,
        groups,
        links: &links,
        desk: &desk,
        book,
    };
    run_all(rt, alloc, &shared_work, workers.as_mut_slice());
    let (seats, shares, starved, runs) = take_workers_apart(workers, ended, returned);
    let Ok(_closed) = desk.close(alloc, seats) else {
        return WorkEnd {
            shares,
            memory: true,
            runs,
        };
    };
    WorkEnd {
        shares,
        memory: starved,
        runs,
    }
}

// A desk for the members of all groups, their links, and room for `count` workers.
fn open_desk_and_reserve<F: Filings, A: Ledger>(
    alloc: Global,
    groups: &[usize],
    count: usize,
) -> Result<(Desk, Vec<DeskSeat>, ReservedLists<F, A>), AllocError>
    requires sizes { (length groups.now ≤ max_modules) × (0 < count) × (count ≤ 64) }
    requires groups { All (λ g. g < length groups.now) groups.now }
    ensures desk { IfOk result (λ p. (number_count_of p.0 ≡ length groups.now)
        × (seat_count_of p.0 ≡ count) × (vec_len p.1 ≡ count)) }
    ensures links { IfOk result (λ p. AreGroupLinks groups.now p.2.links.items) }
    ensures seats { IfOk result (λ p. All (IsNewSeatOf p.0) p.1.items) }
    ensures empty { IfOk result (λ p. (p.2.workers.items ≡ []) × (p.2.seats.items ≡ [])
        × (p.2.shares.items ≡ [])) }
    ensures room_for_all { IfOk result (λ p. (count ≤ vec_capacity p.2.workers)
        × (count ≤ vec_capacity p.2.seats) × (count ≤ vec_capacity p.2.shares)) }
{
    let links = link_members(alloc, groups)?;
    let workers = Vec::with_capacity(alloc, count)?;
    let seats = Vec::with_capacity(alloc, count)?;
    let shares = Vec::with_capacity(alloc, count)?;
    let rooms = ReservedLists {
        links,
        workers,
        seats,
        shares,
    };
    let (desk, seats) = Desk::open(alloc, groups.len(), count)?;
    Ok((desk, seats, rooms))
}

// One worker for each share.
fn make_workers<F: Filings, A: Ledger>(
    mut seats: Vec<DeskSeat>,
    shares: Vec<Share<F, A>>,
    mut workers: Vec<Worker<F, A>>,
    desk: &Desk,
) -> Vec<Worker<F, A>>
    requires seats { All (IsNewSeatOf desk.now) seats.items }
    requires count { vec_len seats ≡ vec_len shares }
    requires empty { workers.items ≡ [] }
    requires room_for_workers { vec_len shares ≤ vec_capacity workers }
    ensures count { vec_len result ≡ vec_len shares }
    ensures shares { shares_of result.items ≡ shares.items }
    ensures ready { All (IsReadyWorker desk.now) result.items }
{
    for share in shares {
        let Some(seat) = seats.pop() else {
            unreachable!()
        };
        workers.push_reserved(Worker {
            seat,
            share,
            starved: false,
            runs: 0,
        });
    }
    workers
}

// Each worker runs in a thread of its own.
fn run_all<F: Filings + Sync, A: Ledger + Sync, G: Gate + Sync, R: Threads + Wait + Sync>(
    rt: &R,
    alloc: Global,
    shared_work: &SharedWork<'_, F, A, G>,
    workers: &mut [Worker<F, A>],
)
    requires some { 0 < length workers.old }
    requires ready { All (IsReadyWorker shared_work.now.desk.now) workers.old }
    requires all { number_count_of shared_work.now.desk.now ≡ length shared_work.now.jobs.now }
    requires groups { AreGroups (shapes_of (map arc_value shared_work.now.jobs.now))
        shared_work.now.groups.now }
    requires links { AreGroupLinks shared_work.now.groups.now shared_work.now.links.now }
    ensures { (i : ℕ) (d : _) → i < length workers.old →
        HasWorked shared_work.now.desk.now shared_work.now.groups.now
        (slice_index_or workers.old i d) (slice_index_or workers.new i d) }
{
    let threads = workers.len();
    thread::for_each_mut(
        rt,
        workers,
        threads,
        &|_, worker| worker.run(rt, alloc, shared_work),
    );
}

// The seats and the shares, whether a worker stopped out of memory, and how many jobs were run.
fn take_workers_apart<F: Filings, A: Ledger>(
    workers: Vec<Worker<F, A>>,
    mut seats: Vec<DeskSeat>,
    mut shares: Vec<Share<F, A>>,
) -> (Vec<DeskSeat>, Vec<Share<F, A>>, bool, usize)
    requires empty { (seats.items ≡ []) × (shares.items ≡ []) }
    requires room_for_seats { (vec_len workers ≤ vec_capacity seats)
        × (vec_len workers ≤ vec_capacity shares) }
    ensures seats { result.0.items ≡ seats_of workers.items }
    ensures shares { result.1.items ≡ shares_of workers.items }
    ensures starved { result.2 ≡ false → All (λ w. w.starved ≡ false) workers.items }
{
    let starved = workers.iter().any(|w| w.starved);
    let mut all_runs: usize = 0;
    for worker in workers {
        let Worker {
            seat,
            share,
            starved: _,
            runs,
        } = worker;
        seats.push_reserved(seat);
        shares.push_reserved(share);
        all_runs = all_runs.saturating_add(runs);
    }
    (seats, shares, starved, all_runs)
}
