//! `bbm_rule` and `module_box`.
ghost use Rattle.circuit.specs.Bridge.{netlist_of};
ghost use Rattle.module_box.specs.Locals.{AreLocalLines};
ghost use Rattle.module_box.specs.Tiling.{MayHaveOwnerTable};

use bbm_rule::{Cell, Grid, Left, turn, turn_lanes, turn_words};
use circuit::{Circuit, GateNo, WireNo};
use module_box::{
    AllTimesSignal, Box2, LocalValuesError, Locals, Owners, Schedule, Signal, TileFault,
    TimedSignal, owner_table,
};
use std::alloc::{AllocError, Global};

/// Makes a grid, and a step of it.
pub fn step_grid(alloc: Global) -> Result<(Grid, Result<(), Left>), AllocError> {
    let mut grid = Grid::new(alloc, 4, 4)?;
    let cell = Cell { x: 1, y: 1 };
    if grid.holds(cell) {
        let live = grid.get(cell);
        grid.set(cell, !live);
    }
    let stepped: Result<(), Left> = grid.step(0);
    Ok((grid, stepped))
}

/// Turns blocks: one, 64 at once, and rows of words.
pub fn turn_blocks() -> (u8, (u64, u64, u64, u64)) {
    let (mut upper_left, mut upper_right) = ([1u64, 2], [0u64, 4]);
    let (mut lower_left, mut lower_right) = ([0u64, 0], [8u64, 0]);
    turn_lanes(
        &mut upper_left,
        &mut upper_right,
        &mut lower_left,
        &mut lower_right,
    );
    (turn(9), turn_words(0xAAAA, 0xCCCC, 0xF0F0, 0xFF00))
}

/// Asks a box for cells.
pub fn ask_box(area: Box2, cell: Cell) -> [bool; 3] {
    let Box2 { x, y, w, h } = area;
    let same = Box2 { x, y, w, h };
    [same.holds(cell), same.in_ring(cell), same.in_halo(cell)]
}

/// Makes an owner table, and asks it for a cell of its rectangle.
pub fn ask_owner(alloc: Global, boxes: &[Box2], cell: Cell) -> Result<usize, TileFault>
    requires { MayHaveOwnerTable 8 8 boxes.now }
{
    let owners: Owners = owner_table(alloc, 8, 8, boxes)?;
    let whole = Box2 {
        x: 0,
        y: 0,
        w: 8,
        h: 8,
    };
    if whole.holds(cell) {
        return Ok(owners.owner(cell));
    }
    Err(TileFault::Gap(cell))
}

/// Returns the number of the box or the corner that a tile fault names.
pub fn place_of_fault(fault: TileFault) -> Option<Result<usize, Cell>> {
    match fault {
        TileFault::Outside(number) => Some(Ok(number)),
        TileFault::Overlap(corner) | TileFault::Gap(corner) => Some(Err(corner)),
        TileFault::Memory => None,
    }
}

/// Asks a schedule of nothing for a signal.
pub fn ask_schedule(alloc: Global) -> Option<u16> {
    let all_times: Vec<AllTimesSignal> = Vec::new(alloc);
    let events: Vec<TimedSignal> = Vec::new(alloc);
    let schedule = Schedule::new(all_times, events);
    match schedule.at(1, Cell { x: 0, y: 0 }) {
        Signal::Zero | Signal::One => None,
        Signal::Wire(wire) => Some(wire),
    }
}

/// Makes the wires of a module, and asks for their values.
pub fn ask_locals(
    alloc: Global,
    circuit: &Circuit,
    cuts: &[WireNo],
    gates: &[GateNo],
) -> Result<Vec<bool>, LocalValuesError>
    requires { AreLocalLines (netlist_of circuit.now) cuts.now gates.now }
{
    let locals = Locals::new(alloc, circuit, cuts, gates)?;
    let (wiring, _, _) = locals.into_parts();
    wiring.local_values(alloc, 1)
}
