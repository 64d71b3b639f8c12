//! Cells of a job by their places in its box, and in the box together with its halo.
ghost use Rattle.std.specs.Prelude.{ℕ, pos, true, ◌≡◌, ◌↔◌, ◌*◌, ◌+◌, ◌-ℤ◌, ◌<◌, ◌≤◌, IsTrue};
ghost use Rattle.circuit.specs.Meaning.{wires};
ghost use Rattle.bbm_rule.specs.Boxes.{in_box, in_ring};
ghost use Rattle.module_box.specs.Schedules.{signal_at};
ghost use Rattle.module_job.specs.Jobs.{job_demand, job_start};
ghost use Rattle.module_job.specs.Signals.{IsSignalWireBelow, IsDemandWireBelow};
ghost use Rattle.local_run.specs.Places.{box_coord, halo_coord, HasSmallCoordinates};

use crate::lines::{EventPlaces, signal_at_moment};
use bbm_rule::Cell;
use module_box::{Box2, Moment, Signal};
use module_job::{Demand, Job, Shape};

/// Returns the cell at a column and row of the box.
///
/// Columns and rows are below 67, and the box's corner has coordinates of at most 4096.
#[tactic(auto, unfolding(crate::specs::Places::box_coord))]
pub fn box_cell_at(area: Box2, x: usize, y: usize) -> Cell
    requires { HasSmallCoordinates area x y }
    ensures x { result.x ≡ box_coord area.x x }
    ensures y { result.y ≡ box_coord area.y y }
{
    Cell {
        x: (area.x as usize + x) as i32,
        y: (area.y as usize + y) as i32,
    }
}

// The cell at a column and row of a box whose corner is at (0, 0).
fn box_cell(x: usize, y: usize) -> Cell
    requires { (x ≤ 66) × (y ≤ 66) }
    ensures x { result.x ≡ pos x }
    ensures y { result.y ≡ pos y }
{
    Cell {
        x: x as i32,
        y: y as i32,
    }
}

// The cell at a column and row that are counted from the halo of a box at the plane's corner.
fn halo_cell(x: usize, y: usize) -> Cell
    requires { (x ≤ 66) × (y ≤ 66) }
    ensures x { result.x ≡ pos x -ℤ pos 1 }
    ensures y { result.y ≡ pos y -ℤ pos 1 }
{
    Cell {
        x: x as i32 - 1,
        y: y as i32 - 1,
    }
}

/// Returns what the cell at a column and row of the box carries at time 0.
///
/// It is not sought if exactly `near` cells before it, row by row, carry something else than `Zero`.
#[inline(always)]
#[tactic(auto, using(crate::proofs::NextCells::start_at, crate::proofs::OwnWires::start_below))]
pub fn start_signal_at(job: &Job, x: usize, y: usize, near: usize) -> Signal
    requires { (x < job.now.area.w) × (y < job.now.area.h) }
    ensures start_is_exact { result
        ≡ job_start job.now (box_coord job.now.area.x x) (box_coord job.now.area.y y) }
    ensures wire_exists { IsSignalWireBelow (wires job.now.locals.netlist) result }
{
    let width = job.area().w as usize;
    let shape: &Shape = job.shape();
    shape.start_near(width * y + x, near)
}

/// Returns a place from `place` on, at most the number of cells of the box. All cells from `place` to before it, row by
/// row, are dead at time 0.
///
/// Contracts do not exclude that the cell at the result is dead too.
#[tactic(auto, using(crate::proofs::NextCells::start_dead))]
pub fn skip_dead_starts(job: &Job, place: usize) -> usize
    requires { place ≤ job.now.area.w * job.now.area.h }
    ensures range { (place ≤ result) × (result ≤ job.now.area.w * job.now.area.h) }
    ensures passed_dead { (x y : ℕ) → x < job.now.area.w → place ≤ job.now.area.w * y + x →
        job.now.area.w * y + x < result →
        job_start job.now (box_coord job.now.area.x x) (box_coord job.now.area.y y) ≡ Signal.Zero }
{
    let shape: &Shape = job.shape();
    shape.skip_dead_starts(place, cell_count(job))
}

/// Returns how many cells the box has.
pub fn cell_count(job: &Job) -> usize
    ensures { (result ≡ job.now.area.w * job.now.area.h) × (result ≤ 4096) }
{
    let area = job.area();
    area.w as usize * area.h as usize
}

/// Returns what the cell at a column and row of the box must be at the last time.
///
/// It is not sought if exactly `near` cells before it, row by row, must be something else than `Dead`.
#[inline(always)]
#[tactic(auto, using(crate::proofs::NextCells::demand_at, crate::proofs::OwnWires::demand_below))]
pub fn demand_at(job: &Job, x: usize, y: usize, near: usize) -> Demand
    requires { (x < job.now.area.w) × (y < job.now.area.h) }
    ensures demand_is_exact { result
        ≡ job_demand job.now (box_coord job.now.area.x x) (box_coord job.now.area.y y) }
    ensures wire_exists { IsDemandWireBelow (wires job.now.locals.netlist) result }
{
    let width = job.area().w as usize;
    let shape: &Shape = job.shape();
    shape.demand_near(width * y + x, near)
}

/// Returns whether the cell at a column and row of the box must be dead at the last time.
#[inline(always)]
#[tactic(auto, using(crate::proofs::NextCells::demand_at))]
pub fn must_be_dead(job: &Job, x: usize, y: usize) -> bool
    requires { (x < job.now.area.w) × (y < job.now.area.h) }
    ensures { (result ≡ true) ↔ (job_demand job.now (box_coord job.now.area.x x)
        (box_coord job.now.area.y y) ≡ Demand.Dead) }
{
    let width = job.area().w as usize;
    let shape: &Shape = job.shape();
    shape.must_be_dead(width * y + x)
}

/// Returns a place from `place` on, at most the number of cells of the box. All cells from `place` to before it, row by
/// row, must be dead at the last time.
///
/// Contracts do not exclude that the cell at the result must be dead too.
#[tactic(auto, using(crate::proofs::NextCells::demand_dead))]
pub fn skip_dead_demands(job: &Job, place: usize) -> usize
    requires { place ≤ job.now.area.w * job.now.area.h }
    ensures range { (place ≤ result) × (result ≤ job.now.area.w * job.now.area.h) }
    ensures passed_dead { (x y : ℕ) → x < job.now.area.w → place ≤ job.now.area.w * y + x →
        job.now.area.w * y + x < result →
        job_demand job.now (box_coord job.now.area.x x) (box_coord job.now.area.y y) ≡ Demand.Dead }
{
    let shape: &Shape = job.shape();
    shape.skip_dead_demands(place, cell_count(job))
}

/// Returns the column and row of the cell at a place of the box, whose cells are counted row by row.
#[inline(always)]
pub fn column_and_row_of_place(job: &Job, place: usize) -> (usize, usize)
    requires { place < job.now.area.w * job.now.area.h }
    ensures column { result.0 < job.now.area.w }
    ensures row { result.1 < job.now.area.h }
    ensures place_is_exact { job.now.area.w * result.1 + result.0 ≡ place }
{
    let width = job.area().w as usize;
    (place % width, place / width)
}

/// Returns what the cell at a column and row of the box carries at an odd time, if it is in the ring. Its event is
/// sought first at some places, whatever they are.
#[tactic(auto, using(crate::proofs::QuietLemmas::inner_signal, module_job::proofs::OwnSignals::edge_below))]
pub fn edge_signal_at(job: &Job, time: u32, x: usize, y: usize, near: EventPlaces) -> Signal
    requires { (x < job.now.area.w) × (y < job.now.area.h) }
    ensures signal_is_exact { result
        ≡ signal_at job.now.edges time (box_coord job.now.area.x x) (box_coord job.now.area.y y) }
    ensures wire_exists { IsSignalWireBelow (wires job.now.locals.netlist) result }
{
    job.prove_valid();
    let shape: &Shape = job.shape();
    let cell = box_cell(x, y);
    signal_at_moment(shape.edges(), Moment { time, cell }, near)
}

/// Returns what the cell at a column and row, counted from the halo, carries at an odd time, if it is in the halo. Its
/// event is sought first at some places, whatever they are.
#[tactic(auto, using(crate::proofs::QuietLemmas::outer_signal, module_job::proofs::OwnSignals::halo_below))]
pub fn halo_signal_at(job: &Job, time: u32, x: usize, y: usize, near: EventPlaces) -> Signal
    requires { (x < job.now.area.w + 2) × (y < job.now.area.h + 2) }
    ensures signal_is_exact { result
        ≡ signal_at job.now.halos time (halo_coord job.now.area.x x) (halo_coord job.now.area.y y) }
    ensures wire_exists { IsSignalWireBelow (wires job.now.locals.netlist) result }
{
    job.prove_valid();
    let shape: &Shape = job.shape();
    let cell = halo_cell(x, y);
    signal_at_moment(shape.halos(), Moment { time, cell }, near)
}

/// Returns whether the cell at a column and row of the box is in its ring.
pub fn is_in_ring(job: &Job, x: usize, y: usize) -> bool
    requires { (x < job.now.area.w) × (y < job.now.area.h) }
    ensures { result
        ≡ in_ring job.now.area (box_coord job.now.area.x x) (box_coord job.now.area.y y) }
{
    let area = job.area();
    area.in_ring(box_cell_at(area, x, y))
}

/// Returns the column and row of a cell of the box.
pub fn column_and_row_of(job: &Job, cell: Cell) -> (usize, usize)
    requires { IsTrue (in_box job.now.area cell.x cell.y) }
    ensures column { (result.0 < job.now.area.w) × (cell.x ≡ box_coord job.now.area.x result.0) }
    ensures row { (result.1 < job.now.area.h) × (cell.y ≡ box_coord job.now.area.y result.1) }
{
    let area = job.area();
    let x = cell.x.unsigned_abs() - area.x;
    let y = cell.y.unsigned_abs() - area.y;
    (x as usize, y as usize)
}
