//! Cells of lists, rows and rectangles, and whether they are live on a grid.
ghost use Rattle.std.specs.Prelude.{◌≡◌, ◌+◌, ◌≤◌, ◌<◌, ◌++◌, ◌||◌, ℤ, All, OnOk, true};
ghost use Rattle.std.specs.List.{list_any};
ghost use Rattle.bbm_rule.specs.Board.{live, is_inside, HasSameSize};
ghost use Rattle.bbm_rule.specs.Boxes.{in_box};
ghost use Rattle.bbm_rule.specs.CellLists.{in_cells, rectangle_cells, row_cells};
ghost use Rattle.lemmas.specs.Bounds.{max_side};

use crate::block::{Box2, Cell};
use crate::grid::Grid;
use std::alloc::AllocError;

#[tactic(auto, using(crate::proofs::CellLists::row_pushed))]
fn push_row_cells(out: &mut Vec<Cell>, x: u32, w: u32, y: u32) -> Result<(), AllocError>
    requires columns { x + w ≤ max_side }
    requires row { y < max_side }
    ensures { OnOk result (out.new.items ≡ out.old.items ++ row_cells x w y) }
{
    for column in x..x + w {
        out.push(Cell {
            x: column as i32,
            y: y as i32,
        })?;
    }
    Ok(())
}

/// Appends the cells of the rectangle, row by row. Its columns and rows are below 4096.
///
/// # Errors
///
/// Out of memory. A part of the cells may then be there.
pub fn push_rectangle(out: &mut Vec<Cell>, r: Box2) -> Result<(), AllocError>
    requires columns { r.x + r.w ≤ max_side }
    requires rows { r.y + r.h ≤ max_side }
    ensures { OnOk result (out.new.items ≡ out.old.items ++ rectangle_cells r) }
{
    for row in r.y..r.y + r.h {
        push_row_cells(out, r.x, r.w, row)?;
    }
    Ok(())
}

/// Returns whether a cell is on the grid and live.
pub fn is_live(grid: &Grid, cell: Cell) -> bool
    ensures { result ≡ live grid.now cell.x cell.y }
{
    grid.holds(cell) && grid.get(cell)
}

/// Returns whether one of the cells is live. All of them are on the grid.
pub fn is_any_live(grid: &Grid, cells: &[Cell]) -> bool
    requires { All (λ c. is_inside grid.now c.x c.y ≡ true) cells.now }
    ensures { result ≡ list_any (λ c. live grid.now c.x c.y) cells.now }
{
    for cell in cells {
        if grid.get(*cell) {
            return true;
        }
    }
    false
}

/// Makes the cells live, and leaves the others as they are. All of them are on the grid.
pub fn make_live(grid: &mut Grid, cells: &[Cell])
    requires { All (λ c. is_inside grid.old c.x c.y ≡ true) cells.now }
    ensures cells_taken { (x y : ℤ) →
        live grid.new x y ≡ (live grid.old x y || in_cells cells.now x y) }
    ensures size { HasSameSize grid.old grid.new }
{
    for cell in cells {
        grid.set(*cell, true);
    }
}

/// Returns whether a cell of the rectangle is live. The rectangle is on the grid.
pub fn is_any_live_in(grid: &Grid, r: Box2) -> bool
    requires columns { (r.x + r.w ≤ grid.now.width) × (r.x + r.w ≤ max_side) }
    requires rows { (r.y + r.h ≤ grid.now.height) × (r.y + r.h ≤ max_side) }
    ensures { result ≡ list_any (λ c. live grid.now c.x c.y) (rectangle_cells r) }
{
    let end = r.x + r.w;
    let mut found = false;
    for y in r.y..r.y + r.h {
        found |= grid.next_live_column(y, r.x, end) < end;
    }
    found
}

/// Makes the cells of the rectangle live, and leaves the others as they are. The rectangle is on the grid.
#[tactic(auto, unfolding(crate::specs::Boxes::in_box))]
pub fn fill_rectangle(grid: &mut Grid, r: Box2)
    requires columns { (r.x + r.w ≤ grid.old.width) × (r.x + r.w ≤ max_side) }
    requires rows { (r.y + r.h ≤ grid.old.height) × (r.y + r.h ≤ max_side) }
    ensures filled { (x y : ℤ) →
        live grid.new x y ≡ (live grid.old x y || in_box r x y) }
    ensures size { HasSameSize grid.old grid.new }
{
    for y in r.y..r.y + r.h {
        grid.fill_row(r.x, y, r.w);
    }
}
