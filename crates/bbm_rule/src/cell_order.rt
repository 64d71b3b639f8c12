//! The order of cells.

ghost use Rattle.std.specs.Prelude.{◌≡◌};
ghost use Rattle.bbm_rule.specs.CellOrder.{cell_cmp};

use crate::block::Cell;
use std::cmp::Ordering;

/// Compares cells by y, then x.
#[tactic(auto, unfolding(crate::specs::CellOrder::cell_cmp))]
pub fn compare_cells(a: Cell, b: Cell) -> Ordering
    ensures { result ≡ cell_cmp a b }
{
    a.y.cmp(&b.y).then(a.x.cmp(&b.x))
}
