//! Threads that flood a book with findings for another certificate. The counts were worked out by hand.
ghost use Rattle.std.specs.Prelude.{◌≡◌, []};

use crate::books::{new_book_of_text, reply_at_second_try};
use core_book::{BookState, Mismatch, Reply};
use local_run::run_job;
use std::alloc::Global;
use std::marker::Brand;
use std::process::Abort;
use std::sync::Wait;
use std::sync::atomic::{AtomicU64, Ordering};
use std::sync::ledger::{Blank, Ledger};
use std::thread;
use std::thread::Threads;
use test_support::{GOOD_BUNDLE, Work, work_of};
use verdict_book::*;

/// The number of findings that each thread files for another certificate.
const STRANGERS_PER_THREAD: u32 = 1000;

/// The modules of a bundle, and how often which reply came for the first of them.
#[derive(Drop)]
struct FloodCounts {
    work: Work,
    strangers: AtomicU64,
    accepted: AtomicU64,
    double: AtomicU64,
}

impl FloodCounts {
    fn count(&self, reply: Reply) {
        let counted = match reply {
            Reply::Stranger(Mismatch::Digest) => &self.strangers,
            Reply::Accepted => &self.accepted,
            Reply::Double(0) => &self.double,
            _ => return,
        };
        counted.fetch_add(1, Ordering::SeqCst);
    }

    /// Returns whether each reply came this often.
    fn has(&self, strangers: u64, accepted: u64, double: u64) -> bool {
        let counts = [&self.strangers, &self.accepted, &self.double];
        let wanted = [strangers, accepted, double];
        counts
            .iter()
            .zip(wanted)
            .all(|(count, wanted)| count.load(Ordering::SeqCst) == wanted)
    }
}

/// Files the first module's finding for the certificate of this digest.
fn file_first_job_under_digest<F: Filings, A: Ledger, R: Wait>(
    rt: &R,
    alloc: Global,
    digest: [u8; 32],
    book: &Book<F, A>,
    share: &mut Share<F, A>,
    flood: &FloodCounts,
) {
    let Some(job) = flood.work.jobs.first() else {
        return;
    };
    let Ok(job) = job.clone() else {
        return;
    };
    let Ok(finding) = run_job(alloc, digest, 0, job) else {
        return;
    };
    if let Some(reply) = reply_at_second_try(rt, book, share, finding) {
        flood.count(reply);
    }
}

/// Files many findings for another certificate, and then one for the book's.
fn file_strangers_then_own<F: Filings, A: Ledger, R: Wait>(
    rt: &R,
    alloc: Global,
    book: &Book<F, A>,
    share: &mut Share<F, A>,
    flood: &FloodCounts,
) {
    for _ in 0..STRANGERS_PER_THREAD {
        file_first_job_under_digest(rt, alloc, [7; 32], book, share, flood);
    }
    file_first_job_under_digest(rt, alloc, flood.work.digest, book, share, flood);
}

/// Returns what is gathered if eight threads do so.
fn gathered_after_flood<
    F: Filings + Send + Sync,
    A: Ledger + Send + Sync,
    R: Abort + Threads + Wait + Sync,
>(
    rt: &R,
    alloc: Global,
    f: Blank,
    a: Blank,
    state: BookState,
    flood: &FloodCounts,
) -> Option<Gathered>
    requires filings { (f.name ≡ F.name) × (f.parts ≡ F.parts) × (f.parts ≡ 8) }
    requires acceptances { (a.name ≡ A.name) × (a.parts ≡ A.parts) × (a.parts ≡ 8) }
    requires ledger_names_book { (state.digest ≡ F.digest) × (state.jobs ≡ F.jobs) }
    requires history_empty { state.history ≡ [] }
{
    let opened: (Book<F, A>, Vec<Share<F, A>>) = Book::open(alloc, f, a, state, 8).expect(
        rt, "a book",
    );
    let (book, mut shares) = opened;
    let shared = &book;
    thread::for_each_mut(
        rt,
        shares.as_mut_slice(),
        8,
        &|_, share| file_strangers_then_own(rt, alloc, shared, share, flood),
    );
    gather(book, shares).ok()
}

/// Returns what is gathered of the bundle's own book.
fn gathered_own_book_after_flood<R: Abort + Threads + Wait + Sync>(
    rt: &R,
    alloc: Global,
    flood: &FloodCounts,
) -> Option<Gathered> {
    let state = new_book_of_text(rt, alloc, GOOD_BUNDLE);
    let (f, a) = (Blank::new(8), Blank::new(8));
    gathered_after_flood::<Brand, Brand, R>(rt, alloc, f, a, state, flood)
}

#[test]
fn strangers_do_not_fill_book(rt: HostRuntime) {
    let flood = FloodCounts {
        work: work_of(rt.alloc(), GOOD_BUNDLE).expect(&rt, "work"),
        strangers: AtomicU64::new(0),
        accepted: AtomicU64::new(0),
        double: AtomicU64::new(0),
    };
    let gathered = gathered_own_book_after_flood(&rt, rt.alloc(), &flood).expect(
        &rt,
        "every share",
    );
    assert!(rt; flood.has(8000, 1, 7));
    assert!(rt; gathered.filed == 8008 && gathered.accepted == 1);
    let state = &gathered.state;
    assert!(rt; state.history().len() == 8008 && state.accepted() == 1);
}
