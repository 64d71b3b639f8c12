//! Faults, and their order.
ghost use Rattle.std.specs.Prelude.{◌≡◌};
ghost use Rattle.local_run.specs.Order.{fault_cmp, kind_number};

use bbm_rule::{Cell, compare_cells};
use std::cmp::Ordering;

/// The kind of a fault: what the cell is compared with.
#[derive(Clone, Copy, Debug, PartialEq, Eq)]
pub enum Kind {
    /// At an odd time, a cell of the ring with its edge signal.
    Edge,
    /// At the time of a stop, its cell with its wire.
    Stop,
    /// At the last time, a cell of the box with its demand.
    End,
}

/// A cell of a module's box that is not as the module says, at a time and under an assignment.
///
/// Bit i of the assignment is the value of cut i.
#[derive(Clone, Copy, Debug, PartialEq, Eq)]
pub struct Fault {
    pub time: u32,
    pub kind: Kind,
    pub cell: Cell,
    pub assignment: u32,
}

/// A kept gate, and an assignment under which it is the first used gate without a row.
///
/// The gate has its place among those that the module uses. Keep faults are ordered by gate and assignment.
#[derive(Clone, Copy, Debug, PartialEq, Eq)]
pub struct KeepFault {
    pub gate: usize,
    pub assignment: u32,
}

// The place of the kind in the order of kinds.
fn kind_number(kind: Kind) -> u8
    ensures { result ≡ kind_number kind }
{
    match kind {
        Kind::Edge => 0,
        Kind::Stop => 1,
        Kind::End => 2,
    }
}

impl Fault {
    /// Compares faults by time, kind (`Edge`, `Stop`, `End`), y, x and assignment.
    #[tactic(auto, unfolding(crate::specs::Order::fault_cmp, bbm_rule::specs::CellOrder::cell_cmp))]
    pub fn compare(self, other: Fault) -> Ordering
        ensures { result ≡ fault_cmp self other }
    {
        self.time
            .cmp(&other.time)
            .then(kind_number(self.kind).cmp(&kind_number(other.kind)))
            .then(compare_cells(self.cell, other.cell))
            .then(self.assignment.cmp(&other.assignment))
    }
}
