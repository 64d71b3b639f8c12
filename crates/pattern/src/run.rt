//! The start of a layout, and its whole run.
ghost use Rattle.std.specs.Prelude.{◌≡◌, ◌+◌, ◌≤◌, ◌<◌, ◌++◌, ℤ, List, map, OnOk, IfOk, MatchOption};
ghost use Rattle.std.specs.List.{All, flat_map, filter};
ghost use Rattle.bbm_rule.specs.Board.{HasSameSize, live};
ghost use Rattle.bbm_rule.specs.CellLists.{in_cells, rectangle_cells, row_cells};
ghost use Rattle.pattern.specs.Layout.{start};
ghost use Rattle.section_text.specs.Words.{has};
ghost use Rattle.pattern.specs.Run.{IsRunEnd, RunFirstLeavesAt, RunsInside, live_cells, start_cells_by_kind};
ghost use Rattle.lemmas.specs.Bounds.{max_side};

use crate::layout::Layout;
use crate::layout_line::{LayoutHeader, Port};
use crate::names::name_set;
use bbm_rule::{Box2, Cell, Grid, make_live, push_rectangle};
use indexmap::IndexSet;
use section_text::{Name, Seed};
use std::alloc::{AllocError, Global};

/// The end of the whole run of a layout.
#[derive(Debug, PartialEq, Eq, Drop)]
pub enum RunEnd {
    /// No cell outside the layout was ever live. These cells are live at the end, in order of y and then x.
    Cells(Vec<Cell>),
    /// The first step that makes a cell outside the layout live: step k leads from time k - 1 to time k.
    LeftAt(u32),
}

fn push_mirror_cells(out: &mut Vec<Cell>, mirrors: &[Box2]) -> Result<(), AllocError>
    requires { All (λ r. (r.x + r.w ≤ max_side) × (r.y + r.h ≤ max_side)) mirrors.now }
    ensures { OnOk result (out.new.items ≡ out.old.items ++ flat_map rectangle_cells mirrors.now) }
{
    for mirror in mirrors {
        push_rectangle(out, *mirror)?;
    }
    Ok(())
}

fn push_cells_of_ports_on(
    out: &mut Vec<Cell>,
    ports: &[Port],
    on: &IndexSet<Name, Seed>,
) -> Result<(), AllocError>
    ensures { OnOk result (out.new.items
        ≡ out.old.items ++ map (λ q. q.cell) (filter (λ q. has on.now.keys q.name) ports.now)) }
{
    for port in ports {
        if on.contains(&port.name) {
            out.push(port.cell)?;
        }
    }
    Ok(())
}

// The cells of the ports whose name is on.
fn push_cells_of_ports_named_in(
    alloc: Global,
    out: &mut Vec<Cell>,
    ports: &[Port],
    on: &[Name],
) -> Result<(), AllocError>
    ensures { OnOk result (out.new.items
        ≡ out.old.items ++ map (λ q. q.cell) (filter (λ q. has on.now q.name) ports.now)) }
{
    let on = name_set(alloc, Seed::of_names(on), on)?;
    push_cells_of_ports_on(out, ports, &on)
}

/// Returns the cells that are live at the start if the names `on` are on.
///
/// They are those of the mirrors, row by row, the balls, and the input cells whose name is on.
pub fn start_cells(alloc: Global, layout: &Layout, on: &[Name]) -> Result<Vec<Cell>, AllocError>
    ensures order { IfOk result (λ cells. cells.items
        ≡ start_cells_by_kind layout.now (λ n. has on.now n)) }
    ensures cells { IfOk result (λ cells. (x y : ℤ) →
        in_cells cells.items x y ≡ start layout.now (has on.now) x y) }
{
    let mut cells = Vec::new(alloc);
    push_mirror_cells(&mut cells, layout.mirrors.as_slice())?;
    cells.extend_from_slice(layout.balls.as_slice())?;
    push_cells_of_ports_named_in(alloc, &mut cells, layout.ins.as_slice(), on)?;
    Ok(cells)
}

// A grid of the layout's size with the cells of the start.
fn start_grid(alloc: Global, layout: &Layout, on: &[Name]) -> Result<Grid, AllocError>
    ensures size { IfOk result (λ g. (g.width ≡ layout.now.size.w)
        × (g.height ≡ layout.now.size.h)) }
    ensures cells { IfOk result (λ g. (x y : ℤ) → live g x y ≡ start layout.now (has on.now) x y) }
{
    let cells = start_cells(alloc, layout, on)?;
    let mut grid = Grid::new(alloc, layout.size.w, layout.size.h)?;
    make_live(&mut grid, cells.as_slice());
    Ok(grid)
}

// Makes every step, or all before the first that leaves the layout, and answers the number of that one.
fn run_until_leaving(grid: &mut Grid, size: LayoutHeader) -> Option<u32>
    requires { (grid.old.width ≡ size.w) × (grid.old.height ≡ size.h) }
    ensures run { MatchOption result (RunsInside size (live grid.old) (live grid.new))
        (λ k. RunFirstLeavesAt size (live grid.old) k) }
    ensures size { HasSameSize grid.old grid.new }
{
    for t in 0..size.steps {
        if grid.step(t).is_err() {
            return Some(t + 1);
        }
    }
    None
}

// Puts the live ones of the first w cells of row y behind the others.
fn push_live_cells_of_row(
    out: &mut Vec<Cell>,
    grid: &Grid,
    w: u32,
    y: u32,
) -> Result<(), AllocError>
    requires columns { (w ≤ grid.now.width) × (w ≤ max_side) }
    requires row { (y < grid.now.height) × (y < max_side) }
    ensures { OnOk result (out.new.items
        ≡ out.old.items ++ filter (λ c. live grid.now c.x c.y) (row_cells 0 w y)) }
{
    for x in 0..w {
        let cell = Cell {
            x: x as i32,
            y: y as i32,
        };
        if grid.get(cell) {
            out.push(cell)?;
        }
    }
    Ok(())
}

// The live cells in order of y and then x.
#[tactic(auto, using(crate::proofs::Imports::live, bbm_rule::proofs::CellLists::rows_filtered), unfolding(crate::proofs::Imports::live_cells, crate::proofs::Imports::rectangle_cells))]
fn live_cells_in_order(
    alloc: Global,
    grid: &Grid,
    size: LayoutHeader,
) -> Result<Vec<Cell>, AllocError>
    requires same_size { (grid.now.width ≡ size.w) × (grid.now.height ≡ size.h) }
    requires sides_at_most_max_side { (size.w ≤ max_side) × (size.h ≤ max_side) }
    ensures { IfOk result (λ cells. cells.items ≡ live_cells size (live grid.now)) }
{
    let mut cells = Vec::new(alloc);
    for y in 0..size.h {
        push_live_cells_of_row(&mut cells, grid, size.w, y)?;
    }
    Ok(cells)
}

/// Runs the whole layout from the start if the names `on` are on, on the unbounded plane.
///
/// The steps are those of the billiard ball model (Margolus 1984) on the layout's rectangle. The run ends early exactly
/// if a cell outside that rectangle becomes live.
pub fn run_plain(alloc: Global, layout: &Layout, on: &[Name]) -> Result<RunEnd, AllocError>
    ensures { IfOk result (λ end. IsRunEnd layout.now (λ n. has on.now n) end) }
{
    let size = layout.size;
    let mut grid = start_grid(alloc, layout, on)?;
    match run_until_leaving(&mut grid, size) {
        Some(step) => Ok(RunEnd::LeftAt(step)),
        None => Ok(RunEnd::Cells(live_cells_in_order(alloc, &grid, size)?)),
    }
}
