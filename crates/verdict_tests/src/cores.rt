//! A worked sequence of the core. The answers and the entries were worked out by hand.
//!
//! A call that finds no memory is made once more. So each growth can be refused in turn (`rt try --test --fail-alloc
//! N`), and the sequence must still end as it should.

use crate::books::finding_at_second_try;
use crate::verdicts::is_first_missing;
use core_book::*;
use std::alloc::Global;
use std::process::Abort;
use test_support::{GOOD_BUNDLE, Work, work_of};

/// Returns the core's answer to an event of one of its seats.
fn apply_event(rt: &impl Abort, core: &mut Core, event: Event) -> Result<Answer, NotApplied> {
    match event {
        Event::Claim(seat) => {
            assert!(rt; seat < core.seats(), "no such seat");
            core.apply(Event::Claim(seat))
        }
        Event::File(finding) => core.apply(Event::File(finding)),
        Event::Lose(number) => core.apply(Event::Lose(number)),
    }
}

/// Returns the core's answer to an event: the second one, if no memory was found at the first.
fn answer(rt: &impl Abort, core: &mut Core, event: Event) -> Answer {
    let before = (core.next(), core.book().history().len());
    let event = match apply_event(rt, core, event) {
        Ok(answer) => return answer,
        Err(NotApplied { event }) => event,
    };
    assert!(rt;
        (core.next(), core.book().history().len()) == before,
        "changed"
    );
    match apply_event(rt, core, event) {
        Ok(answer) => answer,
        Err(NotApplied { event: _ }) => panic!(rt; "no memory at the second try"),
    }
}

/// A step of the core.
#[derive(Clone, Copy)]
enum CoreStep {
    Claim(usize),
    /// The finding of the job of this number is filed.
    File(usize),
    Lose(usize),
}

fn event_of_step(rt: &impl Abort, alloc: Global, work: &Work, step: CoreStep) -> Event {
    match step {
        CoreStep::Claim(seat) => Event::Claim(seat),
        CoreStep::File(number) => {
            Event::File(finding_at_second_try(rt, alloc, work.digest, number, &work.jobs, number))
        }
        CoreStep::Lose(number) => Event::Lose(number),
    }
}

/// The steps of a core of two seats for four jobs, with the answers.
const CORE_STEPS: [(CoreStep, Answer); 11] = [
    (CoreStep::Claim(0), Answer::Number(0)),
    (CoreStep::Claim(1), Answer::Number(1)),
    (CoreStep::File(1), Answer::Reply(Reply::Accepted)),
    (CoreStep::Lose(0), Answer::Lost),
    (CoreStep::Claim(0), Answer::Number(2)),
    (CoreStep::Claim(0), Answer::Number(3)),
    (CoreStep::Claim(0), Answer::Empty),
    (CoreStep::Claim(0), Answer::Empty),
    (CoreStep::Claim(1), Answer::Empty),
    (CoreStep::File(1), Answer::Reply(Reply::Double(1))),
    (CoreStep::File(0), Answer::Reply(Reply::Accepted)),
];

/// Returns a core of two seats for this work.
fn new_core(rt: &impl Abort, alloc: Global, work: Work) -> Core {
    assert!(rt; work.jobs.len() <= 1024, "too many jobs");
    Core::new(alloc, work.digest, work.jobs, 2).expect(rt, "a core")
}

/// Returns the core of two seats to which all of this happened.
fn played(rt: &impl Abort, alloc: Global, work: &Work) -> Core {
    let mut core = new_core(rt, alloc, work_of(alloc, GOOD_BUNDLE).expect(rt, "work"));
    for (number, (step, wanted)) in CORE_STEPS.iter().enumerate() {
        let event = event_of_step(rt, alloc, work, *step);
        assert!(rt; answer(rt, &mut core, event) == *wanted, "step {number}");
    }
    core
}

/// Returns the entry of a filing.
fn filed(digest: [u8; 32], number: usize, reply: Reply) -> LogEntry {
    LogEntry::Filed(Filing {
        digest,
        number,
        same: true,
        reply,
    })
}

/// Returns whether the history has the three filings alone.
fn are_the_three_filings(history: &[LogEntry], digest: [u8; 32]) -> bool {
    let filings = [
        filed(digest, 1, Reply::Accepted),
        filed(digest, 1, Reply::Double(1)),
        filed(digest, 0, Reply::Accepted),
    ];
    history == filings.as_slice()
}

#[test]
fn steps_of_core_with_two_seats(rt: HostRuntime) {
    let work = work_of(rt.alloc(), GOOD_BUNDLE).expect(&rt, "work");
    let core = played(&rt, rt.alloc(), &work);
    assert!(rt; core.next() == 6 && core.seats() == 2);
    assert!(rt; core.draws(0) == [0, 2, 3, 4].as_slice());
    assert!(rt; core.draws(1) == [1, 5].as_slice());
    let book = core.book();
    assert!(rt; are_the_three_filings(book.history(), work.digest) && book.accepted() == 2);
    assert!(rt; is_first_missing(&rt, rt.alloc(), book, 2));
}
