//! Laws of border faults, each the contract of a function without a body.
ghost use Rattle.border_match.specs.Laws.{HalolessBordersMatch, LeastBorderFaultIsUnique, NoBorderFaultMeansSameSignals};

/// States that a module has one least border fault, or none.
#[tactic(auto, using(crate::proofs::Unique::least_unique))]
pub fn least_border_fault_is_unique()
    ensures { LeastBorderFaultIsUnique }
{}

/// States what follows if a module has no border fault.
///
/// Its halo signal and the edge signal of the module that has the cell are then true under the same valuations, at each
/// odd time below the steps.
#[tactic(auto, using(crate::proofs::SameSignals::same_signals))]
pub fn no_border_fault_means_same_signals()
    ensures { NoBorderFaultMeansSameSignals }
{}

/// States that no module has a border fault in version 2.
pub fn haloless_borders_match()
    ensures { HalolessBordersMatch }
{}
