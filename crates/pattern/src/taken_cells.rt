//! Cells that are taken, as the live cells of a grid.
ghost use Rattle.std.specs.Prelude.{◌≡◌, ◌||◌, ◌&&◌, ℤ, if◌then◌else◌};
ghost use Rattle.std.specs.List.{list_any};
ghost use Rattle.bbm_rule.specs.Board.{live, HasSameSize};
ghost use Rattle.bbm_rule.specs.CellLists.{in_cells};
ghost use Rattle.pattern.specs.Lines.{takes_cells_at_start, cells_of};
ghost use Rattle.pattern.specs.DraftBoards.{LiesOnBoard};

use crate::layout_line::LayoutLine;
use bbm_rule::{Grid, fill_rectangle, is_any_live, is_any_live_in, make_live};

/// Returns whether a cell of the line is taken: in the first grid if the line takes its cells at the start, else in the
/// second.
pub(crate) fn is_any_cell_taken(at_start: &Grid, at_end: &Grid, part: &LayoutLine) -> bool
    requires start_on_part { LiesOnBoard at_start.now part.now }
    requires end_on_part { LiesOnBoard at_end.now part.now }
    ensures { result
        ≡ (if takes_cells_at_start part.now then list_any (λ c. live at_start.now c.x c.y)
        (cells_of part.now) else list_any (λ c. live at_end.now c.x c.y) (cells_of part.now)) }
{
    match part {
        LayoutLine::Mirror(r) => is_any_live_in(at_start, *r),
        LayoutLine::Ball(cell) => is_any_live(at_start, &[*cell]),
        LayoutLine::In(port) => is_any_live(at_start, &[port.cell]),
        LayoutLine::Out(port) => is_any_live(at_end, &[port.cell]),
        LayoutLine::Waste(cell) => is_any_live(at_end, &[*cell]),
    }
}

// Makes the cells of the line live, and leaves the others as they are.
fn take_cells(grid: &mut Grid, part: &LayoutLine)
    requires { LiesOnBoard grid.old part.now }
    ensures cells_taken { (x y : ℤ) →
        live grid.new x y ≡ (live grid.old x y || in_cells (cells_of part.now) x y) }
    ensures size { HasSameSize grid.old grid.new }
{
    match part {
        LayoutLine::Mirror(r) => fill_rectangle(grid, *r),
        LayoutLine::Ball(cell) => make_live(grid, &[*cell]),
        LayoutLine::In(port) => make_live(grid, &[port.cell]),
        LayoutLine::Out(port) => make_live(grid, &[port.cell]),
        LayoutLine::Waste(cell) => make_live(grid, &[*cell]),
    }
}

/// Takes the cells of the line if `takes` is true.
pub(crate) fn take_cells_if(takes: bool, grid: &mut Grid, part: &LayoutLine)
    requires { LiesOnBoard grid.old part.now }
    ensures cells_taken { (x y : ℤ) →
        live grid.new x y ≡ (live grid.old x y || (takes && in_cells (cells_of part.now) x y)) }
    ensures size { HasSameSize grid.old grid.new }
{
    if takes {
        take_cells(grid, part);
    }
}
