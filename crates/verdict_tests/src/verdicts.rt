//! Verdicts on worked bundles. The lines were worked out by hand.

use crate::books::finding_at_second_try;
use audit_core::*;
use bbm_rule::Cell;
use border_match::{BorderFault, match_borders};
use certificate::{Cert, read_certificate};
use local_run::{Fault, Kind};
use std::alloc::Global;
use std::process::Abort;
use test_support::{BAD_BUNDLE, GOOD_BUNDLE, closed_feed, read_circuit_and_layout, work_of};

/// Returns the conclusion on a certificate: the second one, if no memory was found at the first.
fn conclude_at_second_try(
    rt: &impl Abort,
    alloc: Global,
    certificate: &Cert<'_>,
    book: &BookState,
) -> Result<Verdict, Unfinished> {
    let jobs = certificate.jobs(alloc).expect(rt, "jobs");
    let borders = match_borders(alloc, certificate, &jobs).expect(rt, "borders");
    match conclude(alloc, certificate, &jobs, &borders, book) {
        Err(Unfinished::Memory) => conclude(alloc, certificate, &jobs, &borders, book),
        concluded => concluded,
    }
}

/// Returns the conclusion on a bundle's certificate, by a book.
fn conclude_on_text(
    rt: &impl Abort,
    alloc: Global,
    text: &str,
    book: &BookState,
) -> Result<Verdict, Unfinished> {
    let mut feed = closed_feed(alloc, text.as_bytes()).expect(rt, "a text");
    let (circuit, layout) = read_circuit_and_layout(alloc, &mut feed).expect(rt, "two sections");
    let certificate = read_certificate(alloc, &mut feed, &circuit, &layout);
    let certificate = certificate.expect(rt, "a certificate");
    conclude_at_second_try(rt, alloc, &certificate, book)
}

/// A digest that is none of a text.
const DIGEST: [u8; 32] = [7; 32];

/// Returns a book of a bundle's jobs under a digest, in which the findings of these numbers are filed in this order.
pub(crate) fn book_with_filed_numbers(
    rt: &impl Abort,
    alloc: Global,
    digest: [u8; 32],
    text: &str,
    numbers: &[usize],
) -> BookState {
    let jobs = work_of(alloc, text).expect(rt, "work").jobs;
    let own = work_of(alloc, text).expect(rt, "work").jobs;
    let mut book = BookState::new(alloc, digest, own).expect(rt, "a book");
    for number in numbers {
        let finding = finding_at_second_try(rt, alloc, digest, *number, &jobs, *number);
        assert!(rt; book.file(finding).is_ok(), "no memory");
    }
    book
}

/// Returns whether this is a no with these lines, or a yes if there are none.
fn is_yes_or_no_with_lines(found: &Result<Verdict, Unfinished>, lines: &[ReportLine]) -> bool {
    match found {
        Ok(Verdict::Yes) => lines.is_empty(),
        Ok(Verdict::No(said)) => !lines.is_empty() && said.as_slice() == lines,
        Err(_) => false,
    }
}

/// Returns whether a book concludes with a yes on a bundle's certificate.
pub(crate) fn is_yes(rt: &impl Abort, alloc: Global, text: &str, book: &BookState) -> bool {
    is_yes_or_no_with_lines(&conclude_on_text(rt, alloc, text, book), &[])
}

/// Under q alone nothing comes back to (2, 2), and module 3 says that q is at (4, 4).
const BAD_BUNDLE_LINES: [ReportLine; 2] = [
    ReportLine::Local {
        module: 0,
        fault: Fault {
            time: 3,
            kind: Kind::End,
            cell: Cell { x: 2, y: 2 },
            assignment: 2,
        },
    },
    ReportLine::Border {
        module: 0,
        fault: BorderFault {
            time: 1,
            cell: Cell { x: 4, y: 4 },
        },
    },
];

/// In the second module q comes in at (3, 3).
const OTHER_BALL: &str =
    "circuit\ninput p\ninput q\ninteract p q -> a b c d\noutput a\noutput b\noutput c\noutput d\nend\nlayout 8 8 3\nin p 2 2\nin q 5 5\nout a 5 2\nout b 2 2\nout c 5 5\nout d 2 5\nend\ncertificate 1\nmodule 0 0 4 4\ncut p\ncut q\nuse 0\nedge 1 3 3 p\nhalo 1 4 4 q\nmodule 4 0 4 4\ncut p\ncut q\nuse 0\nhalo 1 3 3 q\nhalo 1 4 4 q\nmodule 0 4 4 4\ncut p\ncut q\nuse 0\nhalo 1 3 3 p\nhalo 1 4 4 q\nmodule 4 4 4 4\ncut p\ncut q\nuse 0\nedge 1 4 4 q\nhalo 1 3 3 p\nend\n";

const OTHER_BALL_LINES: [ReportLine; 2] = [
    ReportLine::Local {
        module: 1,
        fault: Fault {
            time: 3,
            kind: Kind::End,
            cell: Cell { x: 5, y: 2 },
            assignment: 2,
        },
    },
    ReportLine::Border {
        module: 1,
        fault: BorderFault {
            time: 1,
            cell: Cell { x: 3, y: 3 },
        },
    },
];

const FILING_ORDERS: [[usize; 4]; 3] = [[0, 1, 2, 3], [3, 2, 1, 0], [2, 0, 3, 1]];

/// Bundles, and the lines of the report.
const VERDICTS: [(&str, &[ReportLine]); 3] = [
    (GOOD_BUNDLE, &[]),
    (BAD_BUNDLE, &BAD_BUNDLE_LINES),
    (OTHER_BALL, &OTHER_BALL_LINES),
];

#[test]
fn verdict_ignores_filing_order(rt: HostRuntime) {
    for (text, lines) in &VERDICTS {
        for numbers in &FILING_ORDERS {
            let book = book_with_filed_numbers(&rt, rt.alloc(), DIGEST, text, numbers);
            let found = conclude_on_text(&rt, rt.alloc(), text, &book);
            assert!(rt; is_yes_or_no_with_lines(&found, lines), "{text}");
        }
    }
}

/// The bundle of the book's jobs, the numbers that are filed, and the first module without a finding.
const MISSING_FINDING_CASES: [(&str, &[usize], usize); 3] = [
    (GOOD_BUNDLE, &[], 0),
    (GOOD_BUNDLE, &[0, 1, 3], 2),
    // another job 0 under the same digest
    (BAD_BUNDLE, &[0, 1, 2, 3], 0),
];

/// Returns whether the first module without a finding is this one, in the verdict on the four modules by a book.
pub(crate) fn is_first_missing(
    rt: &impl Abort,
    alloc: Global,
    book: &BookState,
    number: usize,
) -> bool {
    conclude_on_text(rt, alloc, GOOD_BUNDLE, book) == Err(Unfinished::Missing(number))
}

#[test]
fn first_missing_number_is_named(rt: HostRuntime) {
    for (text, numbers, missing) in &MISSING_FINDING_CASES {
        let book = book_with_filed_numbers(&rt, rt.alloc(), DIGEST, text, numbers);
        assert!(rt;
            is_first_missing(&rt, rt.alloc(), &book, *missing),
            "{missing}"
        );
    }
}
