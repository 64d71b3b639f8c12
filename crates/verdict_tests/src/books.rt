//! Findings of worked bundles, filed in turn in a book with its history. The replies and the entries were worked out by
//! hand.
//!
//! A call that finds no memory is made once more. So each growth can be refused in turn (`rt try --test --fail-alloc
//! N`), and the sequences must still end as they should.

use certificate::Job;
use core_book::*;
use local_run::{Finding, run_job};
use std::alloc::Global;
use std::process::Abort;
use std::sync::Arc;
use test_support::{BAD_BUNDLE, GOOD_BUNDLE, Work, work_of};

/// Returns the finding of the job at a place of the list, under a digest and a number.
///
/// It is that of the second run, if no memory was found for the first.
pub(crate) fn finding_at_second_try(
    rt: &impl Abort,
    alloc: Global,
    digest: [u8; 32],
    number: usize,
    jobs: &[Arc<Job>],
    place: usize,
) -> Finding {
    assert!(rt; place < jobs.len(), "no such job");
    let job = jobs[place].clone().expect(rt, "a job");
    if let Ok(finding) = run_job(alloc, digest, number, job) {
        return finding;
    }
    let again = jobs[place].clone().expect(rt, "a job");
    match run_job(alloc, digest, number, again) {
        Ok(finding) => finding,
        Err(_) => panic!(rt; "no memory at the second try"),
    }
}

/// Files a finding and returns the reply: a second time, if no memory was found for the first.
fn reply_at_second_try(rt: &impl Abort, book: &mut BookState, finding: Finding) -> Reply {
    let before = (book.history().len(), book.accepted());
    let finding = match book.file(finding) {
        Ok(reply) => return reply,
        Err(NotFiled { finding }) => finding,
    };
    assert!(rt;
        (book.history().len(), book.accepted()) == before,
        "changed"
    );
    match book.file(finding) {
        Ok(reply) => reply,
        Err(NotFiled { finding: _ }) => panic!(rt; "no memory at the second try"),
    }
}

fn last_entry(book: &BookState) -> Option<LogEntry> {
    book.history().last().copied()
}

/// The owner of a digest or a job.
#[derive(Clone, Copy)]
enum OwnerOf {
    /// The book's certificate.
    Own,
    /// The certificate whose first module has other lines.
    Other,
}

/// The work on two certificates.
#[derive(Drop)]
struct TwoWorks {
    own: Work,
    other: Work,
}

impl TwoWorks {
    fn new(rt: &impl Abort, alloc: Global) -> TwoWorks {
        TwoWorks {
            own: work_of(alloc, GOOD_BUNDLE).expect(rt, "work"),
            other: work_of(alloc, BAD_BUNDLE).expect(rt, "work"),
        }
    }

    fn of(&self, of: OwnerOf) -> &Work {
        match of {
            OwnerOf::Own => &self.own,
            OwnerOf::Other => &self.other,
        }
    }
}

/// Digest and number of a finding, the place of its job, whether that is the book's job of the number, the reply, and
/// how many are held then.
type FilingTurn = ((OwnerOf, usize), (OwnerOf, usize), bool, Reply, usize);

const FILING_TURNS: [FilingTurn; 15] = [
    (
        (OwnerOf::Own, 2),
        (OwnerOf::Own, 2),
        true,
        Reply::Accepted,
        1,
    ),
    (
        (OwnerOf::Own, 2),
        (OwnerOf::Own, 2),
        true,
        Reply::Double(2),
        1,
    ),
    (
        (OwnerOf::Other, 1),
        (OwnerOf::Own, 1),
        true,
        Reply::Stranger(Mismatch::Digest),
        1,
    ),
    (
        (OwnerOf::Own, 9),
        (OwnerOf::Own, 1),
        false,
        Reply::Stranger(Mismatch::Number),
        1,
    ),
    (
        (OwnerOf::Own, 4),
        (OwnerOf::Own, 1),
        false,
        Reply::Stranger(Mismatch::Number),
        1,
    ),
    (
        (OwnerOf::Own, 3),
        (OwnerOf::Own, 1),
        false,
        Reply::Stranger(Mismatch::Content),
        1,
    ),
    // the first that applies
    (
        (OwnerOf::Other, 9),
        (OwnerOf::Own, 2),
        false,
        Reply::Stranger(Mismatch::Digest),
        1,
    ),
    (
        (OwnerOf::Own, 2),
        (OwnerOf::Own, 0),
        false,
        Reply::Stranger(Mismatch::Content),
        1,
    ),
    (
        (OwnerOf::Own, 3),
        (OwnerOf::Own, 3),
        true,
        Reply::Accepted,
        2,
    ),
    // another certificate's job
    (
        (OwnerOf::Own, 0),
        (OwnerOf::Other, 0),
        false,
        Reply::Stranger(Mismatch::Content),
        2,
    ),
    (
        (OwnerOf::Own, 0),
        (OwnerOf::Own, 0),
        true,
        Reply::Accepted,
        3,
    ),
    // the second module has the same job in both
    (
        (OwnerOf::Own, 1),
        (OwnerOf::Other, 1),
        true,
        Reply::Accepted,
        4,
    ),
    (
        (OwnerOf::Own, 1),
        (OwnerOf::Own, 1),
        true,
        Reply::Double(1),
        4,
    ),
    (
        (OwnerOf::Own, 0),
        (OwnerOf::Own, 0),
        true,
        Reply::Double(0),
        4,
    ),
    (
        (OwnerOf::Other, 0),
        (OwnerOf::Other, 0),
        false,
        Reply::Stranger(Mismatch::Digest),
        4,
    ),
];

/// Returns whether the last filing has this reply, this entry and this count.
fn is_last_filing_as(book: &BookState, told: Reply, entry: Filing, held: usize) -> bool {
    let last = Some(LogEntry::Filed(entry));
    told == entry.reply && last_entry(book) == last && book.accepted() == held
}

/// Files what a turn says, and sees what it says of it.
fn file_turn_and_compare(
    rt: &impl Abort,
    alloc: Global,
    works: &TwoWorks,
    book: &mut BookState,
    turn: &FilingTurn,
) -> bool {
    let ((under, number), (jobs, place), same, wanted, held) = *turn;
    let digest = works.of(under).digest;
    let finding = finding_at_second_try(rt, alloc, digest, number, &works.of(jobs).jobs, place);
    let told = reply_at_second_try(rt, book, finding);
    let entry = Filing {
        digest,
        number,
        same,
        reply: wanted,
    };
    is_last_filing_as(book, told, entry, held)
}

/// Returns an open book of the four modules, in which nothing is held.
fn book_of_four_modules(rt: &impl Abort, alloc: Global) -> BookState {
    let Work { digest, jobs } = work_of(alloc, GOOD_BUNDLE).expect(rt, "work");
    BookState::new(alloc, digest, jobs).expect(rt, "a book")
}

/// Returns whether a book has this many entries, and is closed or not as `closed` says.
fn has_entries(book: &BookState, entries: usize, closed: bool) -> bool {
    book.history().len() == entries && book.is_closed() == closed
}

/// Closes an open book of this many entries: at the second time, if no memory was found at the first.
fn close(rt: &impl Abort, book: &mut BookState, entries: usize) {
    if book.close().is_ok() {
        return;
    }
    assert!(rt; has_entries(book, entries, false), "changed");
    assert!(rt; book.close().is_ok(), "no memory at the second try");
}

/// Plays all turns in a new book, and closes it.
fn played(rt: &impl Abort, alloc: Global, works: &TwoWorks) -> BookState {
    let mut book = book_of_four_modules(rt, alloc);
    for (number, turn) in FILING_TURNS.iter().enumerate() {
        assert!(rt; has_entries(&book, number, false));
        assert!(rt;
            file_turn_and_compare(rt, alloc, works, &mut book, turn),
            "turn {number}"
        );
    }
    close(rt, &mut book, FILING_TURNS.len());
    book
}

#[test]
fn turns_make_replies_and_history(rt: HostRuntime) {
    let works = TwoWorks::new(&rt, rt.alloc());
    let mut book = played(&rt, rt.alloc(), &works);
    assert!(rt; has_entries(&book, 16, true) && last_entry(&book) == Some(LogEntry::Closing));
    let late = ((OwnerOf::Own, 0), (OwnerOf::Own, 0), true, Reply::Closed, 4);
    assert!(rt; file_turn_and_compare(&rt, rt.alloc(), &works, &mut book, &late));
    assert!(rt; has_entries(&book, 17, true));
}

/// Returns whether the book holds for a number the finding of that number, which has no fault.
fn holds(book: &BookState, number: usize) -> bool {
    match book.found(number) {
        Some(held) => held.number() == number && held.fault().is_none(),
        None => false,
    }
}

#[test]
fn book_holds_filed_finding_only(rt: HostRuntime) {
    let works = TwoWorks::new(&rt, rt.alloc());
    let mut book = book_of_four_modules(&rt, rt.alloc());
    assert!(rt; book.digest() == works.own.digest && book.jobs().len() == 4);
    assert!(rt; book.found(2).is_none() && book.found(4).is_none());
    assert!(rt; file_turn_and_compare(&rt, rt.alloc(), &works, &mut book, &FILING_TURNS[0]));
    assert!(rt; holds(&book, 2) && book.found(1).is_none());
}

#[test]
fn a_book_without_jobs_holds_nothing(rt: HostRuntime) {
    let works = TwoWorks::new(&rt, rt.alloc());
    let none = Vec::new(rt.alloc());
    let mut book = BookState::new(rt.alloc(), works.own.digest, none).expect(&rt, "a book");
    let wanted = Reply::Stranger(Mismatch::Number);
    let turn = ((OwnerOf::Own, 0), (OwnerOf::Own, 0), false, wanted, 0);
    assert!(rt; file_turn_and_compare(&rt, rt.alloc(), &works, &mut book, &turn));
    assert!(rt; book.found(0).is_none());
}
