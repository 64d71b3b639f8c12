//! Gates that hold workers back.

use job_pool::Gate;
use std::sync::atomic::{AtomicBool, AtomicU64, Ordering};
use std::thread;

/// The turns after which a worker that is held back goes on, whatever the others do.
const MAX_TURNS: u32 = 10_000_000;

/// A count for each of four numbers.
pub(crate) type Counts = [AtomicU64; 4];

pub(crate) fn no_counts() -> Counts {
    [
        AtomicU64::new(0),
        AtomicU64::new(0),
        AtomicU64::new(0),
        AtomicU64::new(0),
    ]
}

pub(crate) fn count_one(counts: &Counts, number: usize) {
    if let Some(count) = counts.get(number) {
        count.fetch_add(1, Ordering::SeqCst);
    }
}

/// Returns whether each number is counted this often.
pub(crate) fn are_all_counts(counts: &Counts, wanted: u64) -> bool {
    counts
        .iter()
        .all(|count| count.load(Ordering::SeqCst) == wanted)
}

/// Returns whether a number is counted at least once.
fn is_counted_at_all(counts: &Counts, number: usize) -> bool {
    match counts.get(number) {
        Some(count) => count.load(Ordering::SeqCst) > 0,
        None => false,
    }
}

/// For what a number is held back, before its job is run or at its end.
#[derive(Clone, Copy)]
pub(crate) enum HoldRule {
    /// The first two numbers, each until the other has begun.
    FirstTwo,
    /// Each number but the last, until the next one has ended.
    Reverse,
    /// This number, until the three others have ended.
    UntilOthers(usize),
    /// Each number but the first, until the first has ended; and the first at its end, until the three others have
    /// ended.
    FirstAlone,
}

/// A gate that counts what it hears of each of four numbers, and holds numbers back.
#[derive(Drop)]
pub(crate) struct HoldingGate {
    hold: HoldRule,
    begun: Counts,
    ended: Counts,
    late: AtomicBool,
}

impl HoldingGate {
    pub(crate) fn new(hold: HoldRule) -> HoldingGate {
        HoldingGate {
            hold,
            begun: no_counts(),
            ended: no_counts(),
            late: AtomicBool::new(false),
        }
    }

    /// Returns whether the number may go on.
    fn may_begin(&self, number: usize) -> bool {
        match self.hold {
            HoldRule::FirstTwo => match number {
                0 => is_counted_at_all(&self.begun, 1),
                1 => is_counted_at_all(&self.begun, 0),
                _ => true,
            },
            HoldRule::Reverse => match number {
                0 => is_counted_at_all(&self.ended, 1),
                1 => is_counted_at_all(&self.ended, 2),
                2 => is_counted_at_all(&self.ended, 3),
                _ => true,
            },
            HoldRule::UntilOthers(held) => {
                number != held
                    || (0..4).all(|other| other == held || is_counted_at_all(&self.ended, other))
            }
            HoldRule::FirstAlone => number == 0 || is_counted_at_all(&self.ended, 0),
        }
    }

    /// Returns whether the number may go on from its end.
    fn may_end(&self, number: usize) -> bool {
        match self.hold {
            HoldRule::FirstAlone => number != 0
                || (1..4).all(|other| is_counted_at_all(&self.ended, other)),
            _ => true,
        }
    }

    /// Returns whether the gate heard of each number once before and once after, and none was held too long.
    pub(crate) fn was_gate_kept(&self) -> bool {
        are_all_counts(&self.begun, 1)
            && are_all_counts(&self.ended, 1)
            && !self.late.load(Ordering::SeqCst)
    }
}

impl Gate for HoldingGate {
    fn before(&self, number: usize) {
        count_one(&self.begun, number);
        for _ in 0..MAX_TURNS {
            if self.may_begin(number) {
                return;
            }
            thread::yield_now();
        }
        self.late.store(true, Ordering::SeqCst);
    }

    fn after(&self, number: usize) {
        count_one(&self.ended, number);
        for _ in 0..MAX_TURNS {
            if self.may_end(number) {
                return;
            }
            thread::yield_now();
        }
        self.late.store(true, Ordering::SeqCst);
    }
}

/// A gate that holds each worker back until a number of them have begun, and counts the numbers that it hears of.
#[derive(Drop)]
pub(crate) struct CrowdGate {
    workers: u64,
    begun: AtomicU64,
    ended: AtomicU64,
    late: AtomicBool,
}

impl CrowdGate {
    pub(crate) fn new(workers: u64) -> CrowdGate {
        CrowdGate {
            workers,
            begun: AtomicU64::new(0),
            ended: AtomicU64::new(0),
            late: AtomicBool::new(false),
        }
    }

    /// Returns whether the gate heard this often before and after, and no worker was held too long.
    pub(crate) fn was_gate_kept(&self, numbers: u64) -> bool {
        self.begun.load(Ordering::SeqCst) == numbers
            && self.ended.load(Ordering::SeqCst) == numbers
            && !self.late.load(Ordering::SeqCst)
    }
}

impl Gate for CrowdGate {
    fn before(&self, _number: usize) {
        self.begun.fetch_add(1, Ordering::SeqCst);
        for _ in 0..MAX_TURNS {
            if self.begun.load(Ordering::SeqCst) >= self.workers {
                return;
            }
            thread::yield_now();
        }
        self.late.store(true, Ordering::SeqCst);
    }

    fn after(&self, _number: usize) {
        self.ended.fetch_add(1, Ordering::SeqCst);
    }
}
