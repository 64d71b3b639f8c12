//! Border faults, and their order.
ghost use Rattle.std.specs.Prelude.{◌≡◌, ◌⊎◌, false, Some};
ghost use Rattle.border_match.specs.BorderFaults.{border_fault_cmp};
ghost use Rattle.border_match.specs.Candidates.{HasCandidateAtMost};
ghost use Rattle.border_match.specs.declared.fault.BorderFault.{BorderFault};

use bbm_rule::{Cell, compare_cells};
use std::cmp::Ordering;

/// A time and a cell at which a module does not say the same as the module that has the cell.
///
/// The halo signal of the one and the edge signal of the other are neither the same constant nor the same wire of the
/// circuit.
#[derive(Clone, Copy, Debug, PartialEq, Eq)]
pub struct BorderFault {
    /// Odd, and below the layout's steps.
    pub time: u32,
    /// In the halo of the module, and in the layout's rectangle.
    pub cell: Cell,
}

impl BorderFault {
    /// Compares border faults by time, y and x.
    #[tactic(auto, unfolding(crate::specs::BorderFaults::border_fault_cmp))]
    pub fn compare(self, other: BorderFault) -> Ordering
        ensures { result ≡ border_fault_cmp self other }
    {
        self.time
            .cmp(&other.time)
            .then(compare_cells(self.cell, other.cell))
    }
}

// Returns whether the fault is less than the candidate, or there is no candidate.
pub(crate) fn is_less(fault: BorderFault, best: Option<BorderFault>) -> bool
    ensures { result ≡ false → HasCandidateAtMost best fault }
{
    match best {
        Some(other) => other.compare(fault) == Ordering::Greater,
        None => true,
    }
}

// The lesser of a candidate, if there is one, and a fault.
#[tactic(auto, using(crate::proofs::Least::lesser_kept, crate::proofs::Least::at_most_itself))]
pub(crate) fn lesser(best: Option<BorderFault>, fault: BorderFault) -> Option<BorderFault>
    ensures covers_as_before { (h : BorderFault) → HasCandidateAtMost best h →
        HasCandidateAtMost result h }
    ensures fault_covered { HasCandidateAtMost result fault }
    ensures best_or_fault { (result ≡ best) ⊎ (result ≡ Some fault) }
{
    match best {
        Some(other) => match other.compare(fault) {
            Ordering::Greater => Some(fault),
            _ => best,
        },
        None => Some(fault),
    }
}
