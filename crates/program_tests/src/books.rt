//! Threads that file into one book. The counts were worked out by hand.
//!
//! A filing that finds no memory is tried once more, so the growths of `file` can be refused in turn
//! (`rt try --test --fail-alloc N`).
ghost use Rattle.std.specs.Prelude.{◌≡◌, []};

use crate::gates::{Counts, are_all_counts, count_one, no_counts};
use certificate::Job;
use core_book::{BookState, LogEntry, NotFiled, Reply};
use local_run::{Finding, run_job};
use std::alloc::{AllocError, Global};
use std::marker::Brand;
use std::process::Abort;
use std::sync::ledger::{Blank, Ledger};
use std::sync::{Arc, Wait};
use std::thread;
use std::thread::Threads;
use test_support::{GOOD_BUNDLE, Work, work_of};
use verdict_book::*;

/// The counts of each of the four numbers that was accepted, and that was answered `Double` with itself.
#[derive(Drop)]
struct ReplyCounts {
    accepted: Counts,
    double: Counts,
}

impl ReplyCounts {
    fn new() -> ReplyCounts {
        ReplyCounts {
            accepted: no_counts(),
            double: no_counts(),
        }
    }

    fn count(&self, number: usize, reply: Reply) {
        if reply == Reply::Accepted {
            count_one(&self.accepted, number);
        } else if reply == Reply::Double(number) {
            count_one(&self.double, number);
        }
    }
}

/// Returns the finding of a job: that of the second run, if no memory was found for the first.
fn finding_at_second_try(
    alloc: Global,
    digest: [u8; 32],
    number: usize,
    job: &Arc<Job>,
) -> Option<Finding> {
    let (once, again) = (job.clone().ok()?, job.clone().ok()?);
    match run_job(alloc, digest, number, once) {
        Ok(finding) => Some(finding),
        Err(_) => run_job(alloc, digest, number, again).ok(),
    }
}

/// Files a finding of each job, and counts the replies.
fn file_finding_of_each_job<F: Filings, A: Ledger, R: Wait>(
    rt: &R,
    alloc: Global,
    work: &Work,
    book: &Book<F, A>,
    share: &mut Share<F, A>,
    replies: &ReplyCounts,
) {
    for (number, job) in work.jobs.iter().enumerate() {
        let Some(finding) = finding_at_second_try(alloc, work.digest, number, job) else {
            return;
        };
        if let Some(reply) = reply_at_second_try(rt, book, share, finding) {
            replies.count(number, reply);
        }
    }
}

/// Returns the reply to a finding: to the second filing, if there was no memory for the first.
pub(crate) fn reply_at_second_try<F: Filings, A: Ledger, R: Wait>(
    rt: &R,
    book: &Book<F, A>,
    share: &mut Share<F, A>,
    finding: Finding,
) -> Option<Reply> {
    match book.file(rt, share, finding) {
        Ok(reply) => Some(reply),
        Err(NotFiled { finding }) => book.file(rt, share, finding).ok(),
    }
}

/// Returns a book of a bundle's modules, in which nothing is filed.
pub(crate) fn new_book_of_text(rt: &impl Abort, alloc: Global, text: &str) -> BookState
    ensures { result.history ≡ [] }
{
    let Work { digest, jobs } = work_of(alloc, text).expect(rt, "work");
    let state = BookState::new(alloc, digest, jobs).expect(rt, "a state");
    assert!(rt; state.history().is_empty());
    state
}

/// Files all findings in each of as many threads as there are shares. If `kept_back`, one share is not handed in.
fn gathered_after_all_file<
    F: Filings + Send + Sync,
    A: Ledger + Send + Sync,
    R: Abort + Threads + Wait + Sync,
>(
    rt: &R,
    alloc: Global,
    f: Blank,
    a: Blank,
    state: BookState,
    replies: &ReplyCounts,
    kept_back: bool,
) -> Option<Gathered>
    requires filings { (f.name ≡ F.name) × (f.parts ≡ F.parts) × (f.parts ≡ 4) }
    requires acceptances { (a.name ≡ A.name) × (a.parts ≡ A.parts) × (a.parts ≡ 4) }
    requires ledger_names_book { (state.digest ≡ F.digest) × (state.jobs ≡ F.jobs) }
    requires history_empty { state.history ≡ [] }
{
    let work = work_of(alloc, GOOD_BUNDLE).expect(rt, "work");
    let opened: (Book<F, A>, Vec<Share<F, A>>) = Book::open(alloc, f, a, state, 4).expect(
        rt, "a book",
    );
    let (book, mut shares) = opened;
    let (own, shared) = (&work, &book);
    thread::for_each_mut(
        rt,
        shares.as_mut_slice(),
        4,
        &|_, share| file_finding_of_each_job(rt, alloc, own, shared, share, replies),
    );
    assert!(rt; shares.iter().all(|share| share.filed() == 4));
    if kept_back {
        shares.pop();
    }
    gather(book, shares).ok()
}

/// Returns whether it is the entry of a finding whose job is the book's, and that was accepted, or answered `Double`
/// with its number.
fn is_own_filing(entry: &LogEntry) -> bool {
    match entry {
        LogEntry::Filed(filing) => {
            filing.same
                && (filing.reply == Reply::Accepted || filing.reply == Reply::Double(filing.number))
        }
        LogEntry::Closing => false,
    }
}

/// Files all findings in each of four threads.
fn gathered_from_four_threads<R: Abort + Threads + Wait + Sync>(
    rt: &R,
    alloc: Global,
    replies: &ReplyCounts,
    kept_back: bool,
) -> Option<Gathered> {
    let state = new_book_of_text(rt, alloc, GOOD_BUNDLE);
    let (f, a) = (Blank::new(4), Blank::new(4));
    gathered_after_all_file::<Brand, Brand, R>(rt, alloc, f, a, state, replies, kept_back)
}

#[test]
fn four_threads_file_all(rt: HostRuntime) {
    let replies = ReplyCounts::new();
    assert!(rt; gathered_from_four_threads(&rt, rt.alloc(), &replies, true).is_none());
    let replies = ReplyCounts::new();
    let gathered = gathered_from_four_threads(&rt, rt.alloc(), &replies, false);
    let Gathered {
        state,
        filed,
        accepted,
    } = gathered.expect(&rt, "every share");
    assert!(rt; filed == 16 && accepted == 4);
    assert!(rt; state.history().len() == 16 && state.accepted() == 4 && !state.is_closed());
    assert!(rt; state.history().iter().all(is_own_filing), "another entry");
    // each number once and three times, so 4 and 12 of the sixteen
    assert!(rt; are_all_counts(&replies.accepted, 1) && are_all_counts(&replies.double, 3));
}

/// Files all findings into one of the two shares of a book. It returns `None` if there was no memory to open the book.
fn gathered_from_one_share<F: Filings, A: Ledger, R: Abort + Wait>(
    rt: &R,
    alloc: Global,
    f: Blank,
    a: Blank,
    state: BookState,
    work: &Work,
) -> Option<Gathered>
    requires filings { (f.name ≡ F.name) × (f.parts ≡ F.parts) × (f.parts ≡ 2) }
    requires acceptances { (a.name ≡ A.name) × (a.parts ≡ A.parts) × (a.parts ≡ 2) }
    requires ledger_names_book { (state.digest ≡ F.digest) × (state.jobs ≡ F.jobs) }
    requires history_empty { state.history ≡ [] }
{
    let opened: Result<(Book<F, A>, Vec<Share<F, A>>), AllocError> = Book::open(
        alloc, f, a, state, 2,
    );
    let (book, mut shares) = opened.ok()?;
    file_finding_of_each_job(rt, alloc, work, &book, &mut shares[1], &ReplyCounts::new());
    match gather(book, shares) {
        Ok(gathered) => Some(gathered),
        Err(_) => panic!(rt; "a share is missing"),
    }
}

/// Files all findings through one of two shares, with a state and shares of its own.
fn gathered_in_new_book<R: Abort + Wait>(rt: &R, alloc: Global, work: &Work) -> Option<Gathered> {
    let state = new_book_of_text(rt, alloc, GOOD_BUNDLE);
    let (f, a) = (Blank::new(2), Blank::new(2));
    gathered_from_one_share::<Brand, Brand, R>(rt, alloc, f, a, state, work)
}

/// Opens a book. It is made to be run with each growth of memory refused in turn.
#[test]
fn a_book_opens_at_the_second_try(rt: HostRuntime) {
    let work = work_of(rt.alloc(), GOOD_BUNDLE).expect(&rt, "work");
    let first = gathered_in_new_book(&rt, rt.alloc(), &work);
    let gathered = match first {
        Some(gathered) => Some(gathered),
        None => gathered_in_new_book(&rt, rt.alloc(), &work),
    };
    let Some(
        Gathered {
            state,
            filed,
            accepted,
        },
    ) = gathered
    else {
        panic!(rt; "not opened at the second try")
    };
    assert!(rt; filed == 4 && accepted == 4);
    assert!(rt; state.history().len() == 4 && state.history().iter().all(is_own_filing));
}
