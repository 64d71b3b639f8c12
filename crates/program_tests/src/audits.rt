//! Workers that a gate holds back, over the four modules of a worked bundle. The expected results were worked out by
//! hand.
ghost use Rattle.std.specs.Prelude.{◌<◌, ◌≤◌};

use crate::bundles::{NO_REPORT, YES_REPORT};
use crate::gates::{HoldRule, HoldingGate};
use certificate::read_certificate;
use check_main::{Audited, Feed, Outcome, Over, audit, check_stream, check_text};
use core_book::{Filing, LogEntry, Reply};
use job_pool::{Gate, OpenGate};
use std::alloc::Global;
use std::process::Abort;
use std::random::RandomSource;
use std::sync::Wait;
use std::thread::Threads;
use test_support::{BAD_BUNDLE, GOOD_BUNDLE, closed_feed, read_circuit_and_layout};

/// Returns whether `check` ends like this over a text, and writes this.
fn is_check_answer_as_worked<G: Gate + Sync, T: Threads + Wait + RandomSource + Sync>(
    rt: &T,
    alloc: Global,
    text: &str,
    workers: usize,
    gate: &G,
) -> bool
    requires { (0 < workers) × (workers ≤ 64) }
{
    let mut reader = Over::new(text.as_bytes());
    let mut writer = Over::new(Vec::new(alloc));
    let result = check_stream(rt, alloc, &mut reader, &mut writer, workers, gate);
    let (outcome, written) = if text == GOOD_BUNDLE {
        (Outcome::Yes, YES_REPORT)
    } else {
        (Outcome::No, NO_REPORT)
    };
    result == Ok(outcome) && writer.get_ref().as_slice() == written.as_bytes()
}

#[test]
fn writes_the_same_for_each_number_of_workers(rt: HostRuntime) {
    for text in [GOOD_BUNDLE, BAD_BUNDLE] {
        for workers in [1usize, 2, 3, 64] {
            assert!(rt;
                is_check_answer_as_worked(&rt, rt.alloc(), text, workers, &OpenGate),
                "{workers}"
            );
        }
    }
}

/// Returns whether `check` has this answer to a text in memory.
fn is_check_text_answer<T: Threads + Wait + RandomSource + Sync>(
    rt: &T,
    alloc: Global,
    text: &str,
    outcome: Outcome,
    output: &str,
) -> bool {
    let mut feed = Feed::new(alloc);
    if feed.push(text.as_bytes()).is_err() {
        return false;
    }
    feed.close();
    match check_text(rt, alloc, feed, 2, &OpenGate) {
        Ok(answered) => {
            answered.outcome == outcome && answered.output.as_slice() == output.as_bytes()
        }
        Err(_) => false,
    }
}

#[test]
fn answers_to_texts_in_memory(rt: HostRuntime) {
    assert!(rt; is_check_text_answer(&rt, rt.alloc(), GOOD_BUNDLE, Outcome::Yes, YES_REPORT));
    assert!(rt; is_check_text_answer(&rt, rt.alloc(), BAD_BUNDLE, Outcome::No, NO_REPORT));
}

/// The ways to hold workers back, each with the number of workers.
const HOLD_CASES: [(HoldRule, usize); 7] = [
    (HoldRule::Reverse, 4),
    (HoldRule::FirstTwo, 2),
    (HoldRule::UntilOthers(0), 2),
    (HoldRule::UntilOthers(1), 2),
    (HoldRule::UntilOthers(2), 2),
    (HoldRule::UntilOthers(3), 2),
    (HoldRule::FirstAlone, 2),
];

#[test]
fn writes_the_same_whatever_is_held_back(rt: HostRuntime) {
    for text in [GOOD_BUNDLE, BAD_BUNDLE] {
        for (hold, workers) in HOLD_CASES {
            assert!(rt; 0 < workers && workers <= 64);
            let gate = HoldingGate::new(hold);
            assert!(rt;
                is_check_answer_as_worked(&rt, rt.alloc(), text, workers, &gate),
                "{workers}"
            );
            assert!(rt; gate.was_gate_kept(), "{workers}");
        }
    }
}

/// Returns the number of an accepted finding, 4 for a closing entry, and 5 for anything else.
fn number_of(entry: &LogEntry) -> usize {
    match entry {
        LogEntry::Closing => 4,
        LogEntry::Filed(filing) => accepted_number(filing),
    }
}

fn accepted_number(filing: &Filing) -> usize {
    if filing.reply == Reply::Accepted {
        filing.number
    } else {
        5
    }
}

/// Returns the numbers of a history of five entries.
fn accepted_numbers_of(history: &[LogEntry]) -> [usize; 5] {
    let mut numbers = [5; 5];
    for (number, entry) in numbers.iter_mut().zip(history) {
        *number = number_of(entry);
    }
    numbers
}

/// Returns what the workers file of a bundle.
pub(crate) fn audit_of_text<T: Abort + Threads + Wait + Sync, G: Gate + Sync>(
    rt: &T,
    alloc: Global,
    text: &str,
    workers: usize,
    gate: &G,
) -> Audited
    requires { (0 < workers) × (workers ≤ 64) }
{
    let mut feed = closed_feed(alloc, text.as_bytes()).expect(rt, "a text");
    let (circuit, layout) = read_circuit_and_layout(alloc, &mut feed).expect(rt, "two sections");
    let certificate = read_certificate(alloc, &mut feed, &circuit, &layout);
    let certificate = certificate.expect(rt, "a certificate");
    audit(rt, alloc, &certificate, workers, gate).expect(rt, "an audit")
}

/// Returns how the numbers of the findings end.
fn last_numbers(hold: HoldRule) -> &'static [usize] {
    match hold {
        HoldRule::FirstTwo => &[4],
        HoldRule::Reverse => &[3, 2, 1, 0, 4],
        HoldRule::UntilOthers(0) => &[0, 4],
        HoldRule::UntilOthers(1) => &[1, 4],
        HoldRule::UntilOthers(2) => &[2, 4],
        HoldRule::UntilOthers(_) => &[3, 4],
        // A worker tells the gate of an end when it has filed, so the first finding comes first.
        HoldRule::FirstAlone => &[0, 1, 2, 3, 4],
    }
}

#[test]
fn an_audit_files_in_the_order_of_the_gate(rt: HostRuntime) {
    for (hold, workers) in HOLD_CASES {
        assert!(rt; 0 < workers && workers <= 64);
        let gate = HoldingGate::new(hold);
        let Audited { state, memory } = audit_of_text(&rt, rt.alloc(), GOOD_BUNDLE, workers, &gate);
        assert!(rt; !memory && state.is_closed());
        assert!(rt; state.accepted() == 4 && state.history().len() == 5);
        let numbers = accepted_numbers_of(state.history());
        assert!(rt; numbers.ends_with(last_numbers(hold)), "{numbers:?}");
        assert!(rt; gate.was_gate_kept());
    }
}
