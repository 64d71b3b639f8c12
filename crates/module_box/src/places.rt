//! The places of the cells of a box.
ghost use Rattle.std.specs.Prelude.{◌≡◌, ◌+◌, ◌≤◌, IsTrue};
ghost use Rattle.module_box.specs.Places.{place_in};
ghost use Rattle.bbm_rule.specs.Boxes.{in_box};
ghost use Rattle.lemmas.specs.Bounds.{max_side};

use bbm_rule::{Box2, Cell};

/// Returns the place of a cell of a box, whose cells are counted row by row.
#[tactic(auto, using(crate::proofs::FromCorner::abs_from))]
pub fn place_in(area: Box2, cell: Cell) -> usize
    requires cell_in_box { IsTrue (in_box area cell.x cell.y) }
    requires sides_at_most_max_side { (area.w ≤ max_side) × (area.h ≤ max_side) }
    ensures { result ≡ place_in area cell.x cell.y }
{
    let row = (cell.y.unsigned_abs() - area.y) as usize;
    let column = (cell.x.unsigned_abs() - area.x) as usize;
    row * area.w as usize + column
}
