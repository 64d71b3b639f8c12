//! Books that are filled up. The entries were worked out by hand.
//!
//! A call that finds no memory is made once more. So each growth can be refused in turn (`rt try --test --fail-alloc
//! N`), and the books must still be full in the end.

use crate::verdicts::{book_with_filed_numbers, is_yes};
use core_book::*;
use std::alloc::Global;
use std::process::Abort;
use test_support::{BAD_BUNDLE, GOOD_BUNDLE, Work, work_of};

/// Fills a book up: by the second call, if no memory was found at the first.
///
/// A book that is not replaced, and has `entries` entries, then loses none.
fn fill_at_second_try(
    rt: &impl Abort,
    alloc: Global,
    book: &mut BookState,
    work: &Work,
    entries: usize,
) {
    if fill(alloc, book, work.digest, &work.jobs).is_ok() {
        return;
    }
    assert!(rt; book.history().len() >= entries, "lost");
    assert!(rt;
        fill(alloc, book, work.digest, &work.jobs).is_ok(),
        "no memory at the second try"
    );
}

/// Returns the entry of a finding that was accepted.
fn accepted(digest: [u8; 32], number: usize) -> LogEntry {
    LogEntry::Filed(Filing {
        digest,
        number,
        same: true,
        reply: Reply::Accepted,
    })
}

/// Returns whether findings of these numbers were accepted in this order, in a book that is open, and nothing else was
/// filed.
fn were_accepted_in_order(book: &BookState, digest: [u8; 32], numbers: &[usize]) -> bool {
    if book.is_closed()
        || book.accepted() != numbers.len()
        || book.history().len() != numbers.len()
    {
        return false;
    }
    for (entry, number) in book.history().iter().zip(numbers) {
        if *entry != accepted(digest, *number) {
            return false;
        }
    }
    true
}

/// Returns the work on the four modules.
fn work_of_four_modules(rt: &impl Abort, alloc: Global) -> Work {
    work_of(alloc, GOOD_BUNDLE).expect(rt, "work")
}

#[test]
fn fills_up_what_is_left(rt: HostRuntime) {
    let work = work_of_four_modules(&rt, rt.alloc());
    let mut book = book_with_filed_numbers(&rt, rt.alloc(), work.digest, GOOD_BUNDLE, &[1, 3]);
    fill_at_second_try(&rt, rt.alloc(), &mut book, &work, 2);
    assert!(rt; were_accepted_in_order(&book, work.digest, &[1, 3, 0, 2]));
    assert!(rt; is_yes(&rt, rt.alloc(), GOOD_BUNDLE, &book));
    fill_at_second_try(&rt, rt.alloc(), &mut book, &work, 4);
    assert!(rt; were_accepted_in_order(&book, work.digest, &[1, 3, 0, 2]));
}

#[test]
fn fills_up_in_place_of_a_closed_book(rt: HostRuntime) {
    let work = work_of_four_modules(&rt, rt.alloc());
    let mut book = book_with_filed_numbers(&rt, rt.alloc(), work.digest, GOOD_BUNDLE, &[1, 3]);
    assert!(rt; book.close().is_ok(), "no memory");
    fill_at_second_try(&rt, rt.alloc(), &mut book, &work, 0);
    assert!(rt; were_accepted_in_order(&book, work.digest, &[0, 1, 2, 3]));
}

/// Fills a book up in place of another one, which has another digest, or another job 0 under the same digest.
#[test]
fn fills_up_in_place_of_another_book(rt: HostRuntime) {
    let work = work_of_four_modules(&rt, rt.alloc());
    for (digest, text) in [([7; 32], GOOD_BUNDLE), (work.digest, BAD_BUNDLE)] {
        let mut book = book_with_filed_numbers(&rt, rt.alloc(), digest, text, &[1, 3]);
        fill_at_second_try(&rt, rt.alloc(), &mut book, &work, 0);
        assert!(rt;
            were_accepted_in_order(&book, work.digest, &[0, 1, 2, 3]),
            "{text}"
        );
    }
}

/// Two modules that differ in nothing but their places and their wires' names.
const TWINS: &str =
    "circuit\ninput a\ninput b\noutput a\noutput b\nend\nlayout 8 4 2\nin a 0 0\nin b 4 0\nout a 2 2\nout b 6 2\nend\ncertificate 1\nmodule 0 0 4 4\ncut a\nmodule 4 0 4 4\ncut b\nend\n";

#[test]
fn fills_up_modules_of_one_shape(rt: HostRuntime) {
    let work = work_of(rt.alloc(), TWINS).expect(&rt, "work");
    let mut book = book_with_filed_numbers(&rt, rt.alloc(), work.digest, TWINS, &[]);
    fill_at_second_try(&rt, rt.alloc(), &mut book, &work, 0);
    assert!(rt; were_accepted_in_order(&book, work.digest, &[0, 1]));
    assert!(rt; is_yes(&rt, rt.alloc(), TWINS, &book));
}
