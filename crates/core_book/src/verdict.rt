//! Verdicts, and the lines that give reasons for a no.

use border_match::BorderFault;
use certificate::StopGap;
use local_run::{Fault, KeepFault};
use std::alloc::{AllocError, AllocFailed};

/// A line of a report: a fault of a module, a gate that no module keeps, or what stops say of a gate.
///
/// Modules and gates are numbered from 0.
#[derive(Clone, Copy, Debug, PartialEq, Eq)]
pub enum ReportLine {
    /// The least fault of the module's job.
    Local {
        module: usize,
        fault: Fault,
    },
    /// Its least keep fault, by the number of the gate in the circuit.
    Keep {
        module: usize,
        fault: KeepFault,
    },
    /// The module's least border fault.
    Border {
        module: usize,
        fault: BorderFault,
    },
    /// An inverse gate of the circuit that no module keeps, by its number.
    Unkept {
        gate: usize,
    },
    /// How many steps a delay takes, and how many it must take.
    Delay {
        gate: usize,
        wanted: u32,
        gap: StopGap,
    },
    /// The time at which inputs of a gate meet, or `None` if they do not.
    Meet {
        gate: usize,
        at: Option<u32>,
    },
}

/// The part of a job's finding that a verdict uses: its least fault, and its least keep fault by the number of the gate
/// in the circuit.
#[derive(Clone, Copy, Debug, PartialEq, Eq)]
pub struct LeastFaults {
    pub fault: Option<Fault>,
    pub keep: Option<KeepFault>,
}

/// The verdict on a certificate.
///
/// It is a yes if the modules have no fault and keep all inverse gates, and if the stops keep the rules on delays and
/// meetings.
#[derive(Debug, Drop, PartialEq, Eq)]
pub enum Verdict {
    /// No module has a fault, each inverse gate is kept, and the rules are kept.
    Yes,
    /// Some module has one, an inverse gate is kept by none, or a rule is broken. For each module in order the lines
    /// have its least fault, its least keep fault and its least border fault, each if there is one; then come the
    /// inverse gates that are not kept, in order; and then the lines of all delays and meetings, of those too that keep
    /// the rules.
    No(Vec<ReportLine>),
}

/// The reason why there is no verdict.
#[derive(Clone, Copy, Debug, PartialEq, Eq)]
pub enum Unfinished {
    /// The first module for whose job the book holds no finding.
    Missing(usize),
    /// There is no memory.
    Memory,
}

impl From<AllocError> for Unfinished {
    ghost use Rattle.std.specs.Prelude.{◌≡◌};
    ghost use Rattle.core_book.specs.declared.verdict.Unfinished.TheVariants.{Memory};

    ghost from_gives = { λ _ e. e ≡ Memory };

    fn from(_: AllocError) -> Unfinished {
        Unfinished::Memory
    }
}

impl<T: Drop> From<AllocFailed<T>> for Unfinished {
    ghost use Rattle.std.specs.Prelude.{◌≡◌};
    ghost use Rattle.core_book.specs.declared.verdict.Unfinished.TheVariants.{Memory};

    ghost from_gives = { λ _ e. e ≡ Memory };

    fn from(_: AllocFailed<T>) -> Unfinished {
        Unfinished::Memory
    }
}
