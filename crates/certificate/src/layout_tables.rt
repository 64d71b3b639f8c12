//! The cells of a module: what they carry at time 0, and what they must be at the last time.
ghost use Rattle.std.specs.Prelude.{◌≡◌, ◌+◌, ◌*◌, ◌<◌, ◌≤◌, ◌++◌, ◌||◌, [], ◌∷◌, ℕ, ℤ, pos, false, true, replicate, None, Some, All, length, map, unwrap_or, slice_get, IsTrue, IfOk, OnOk};
ghost use Rattle.bbm_rule.specs.Board.{HasSameSize, live};
ghost use Rattle.circuit.specs.Bridge.{circuit_of};
ghost use Rattle.circuit.specs.Meaning.{wires};
ghost use Rattle.bbm_rule.specs.CellLists.{row_cells, in_cells};
ghost use Rattle.pattern.specs.Layout.{in_layout, in_rectangles};
ghost use Rattle.pattern.specs.Lines.{size_fault};
ghost use Rattle.bbm_rule.specs.Boxes.{in_box};
ghost use Rattle.module_box.specs.Locals.{circuit_wire, is_among};
ghost use Rattle.certificate_lines.specs.PortTables.{ArePortTables};
ghost use Rattle.certificate.specs.Jobs.{end_demand, start_signal};
ghost use Rattle.module_box.specs.Places.{place_in};
ghost use Rattle.certificate.specs.LayoutTablesView.{AddsStartsAndDemands, HasLayoutSize, HasNothingAt, IsOnGrid, IsPortWireLocalAt, ArePortWiresLocalIn, ball_waste_and_port_cells};
ghost use Rattle.module_job.specs.Signals.{IsSignalWireBelow, IsDemandWireBelow, renumber_demand, renumber_signal};
ghost use Rattle.lemmas.specs.Bounds.{max_side};

use bbm_rule::{Cell, Grid, fill_rectangle, is_live, make_live};
use certificate_lines::PortTablePair;
use circuit::{Circuit, WireNo};
use module_box::{Box2, Locals, Signal};
use module_job::{Demand, EndDemands, StartSignals};
use pattern::{Layout, LayoutHeader, Port};
use std::alloc::{AllocError, Global};
use std::marker::Model;

/// A circuit and a layout, with tables by which each cell of the layout is looked up in constant time. Contracts see
/// the circuit and the layout, as a `LayoutTablesView`.
// The mirrors' cells, the balls and the waste cells are the live cells of grids. `named` has the cells of all of them
// and of ports: most cells are dead in it, and need no other look.
#[derive(Drop)]
pub(crate) struct LayoutTables<'a> {
    circuit: &'a Circuit,
    layout: &'a Layout,
    mirrors: Grid,
    balls: Grid,
    wastes: Grid,
    named: Grid,
    ports: &'a PortTablePair<'a>,
}

impl<'a> Model for LayoutTables<'a> {
    ghost use Rattle.certificate.specs.LayoutTablesView.{LayoutTablesView};

    ghost Value = { LayoutTablesView };

    ghost use Rattle.certificate.specs.LayoutTablesView.{layout_tables_view, AreLayoutTables};

    ghost view = { layout_tables_view };

    ghost invariant = { AreLayoutTables };
}

// What cells carry at time 0, and what they must be at the last time, one cell after the other.
#[derive(Drop)]
struct CellLists {
    starts: StartSignals,
    demands: EndDemands,
}

impl CellLists {
    fn new(alloc: Global, count: usize) -> Result<CellLists, AllocError>
        ensures starts { IfOk result (λ lists. lists.starts ≡ []) }
        ensures demands { IfOk result (λ lists. lists.demands ≡ []) }
    {
        Ok(CellLists {
            starts: StartSignals::new(alloc, count)?,
            demands: EndDemands::new(alloc, count)?,
        })
    }

    fn push(&mut self, start: Signal, demand: Demand) -> Result<(), AllocError>
        ensures starts { OnOk result (self.new.starts ≡ self.old.starts ++ start ∷ []) }
        ensures demands { OnOk result (self.new.demands
            ≡ self.old.demands ++ demand ∷ []) }
    {
        self.starts.push(start)?;
        self.demands.push(demand)?;
        Ok(())
    }

    // Adds cells of mirrors.
    fn push_live(&mut self, count: u32) -> Result<(), AllocError>
        ensures starts { OnOk result (self.new.starts
            ≡ self.old.starts ++ replicate count Signal.One) }
        ensures demands { OnOk result (self.new.demands
            ≡ self.old.demands ++ replicate count Demand.Live) }
    {
        for _mirror in 0..count {
            self.push(Signal::One, Demand::Live)?;
        }
        Ok(())
    }

    // Adds cells that are dead at time 0 and at the last time.
    fn push_dead(&mut self, count: u32) -> Result<(), AllocError>
        ensures starts { OnOk result (self.new.starts
            ≡ self.old.starts ++ replicate count Signal.Zero) }
        ensures demands { OnOk result (self.new.demands
            ≡ self.old.demands ++ replicate count Demand.Dead) }
    {
        self.starts.push_dead(count as usize)?;
        self.demands.push_dead(count as usize)?;
        Ok(())
    }
}

// A grid of the layout's size on which these cells are live.
#[tactic(auto, using(crate::proofs::Imports::size_sides, pattern::proofs::PlaneRuns::inside_is_layout))]
fn grid_of(alloc: Global, size: LayoutHeader, cells: &[Cell]) -> Result<Grid, AllocError>
    requires limits { size_fault size ≡ None }
    requires inside { All (λ c. in_layout size c.x c.y ≡ true) cells.now }
    ensures cells { IfOk result (λ grid. (x y : ℤ) → live grid x y ≡ in_cells cells.now x y) }
    ensures size { IfOk result (λ grid. (grid.width ≡ size.w) × (grid.height ≡ size.h)) }
{
    let mut grid = Grid::new(alloc, size.w, size.h)?;
    make_live(&mut grid, cells);
    Ok(grid)
}

// Makes the cells of mirrors live.
fn fill_mirrors(grid: &mut Grid, mirrors: &[Box2])
    requires { All (IsOnGrid grid.old) mirrors.now }
    ensures cells { (x y : ℤ) →
        live grid.new x y ≡ (live grid.old x y || in_rectangles mirrors.now x y) }
    ensures size { HasSameSize grid.old grid.new }
{
    for mirror in mirrors {
        fill_rectangle(grid, *mirror);
    }
}

// Adds the cells of ports.
fn push_port_cells(cells: &mut Vec<Cell>, ports: &[Port]) -> Result<(), AllocError>
    ensures { OnOk result (cells.new.items ≡ cells.old.items ++ map (λ p. p.cell) ports.now) }
{
    for port in ports {
        cells.push(port.cell)?;
    }
    Ok(())
}

// The cells of balls, the waste cells and the cells of ports.
fn ball_waste_and_port_cells(alloc: Global, layout: &Layout) -> Result<Vec<Cell>, AllocError>
    ensures { IfOk result (λ cells. cells.items ≡ ball_waste_and_port_cells layout.now) }
{
    let mut cells = Vec::new(alloc);
    cells.extend_from_slice(layout.balls())?;
    cells.extend_from_slice(layout.wastes())?;
    push_port_cells(&mut cells, layout.ins())?;
    push_port_cells(&mut cells, layout.outs())?;
    Ok(cells)
}

// A grid of the layout's size on which these cells and those of the mirrors are live.
fn grid_with_mirrors(alloc: Global, layout: &Layout, cells: &[Cell]) -> Result<Grid, AllocError>
    requires { All (λ c. in_layout layout.now.size c.x c.y ≡ true) cells.now }
    ensures cells { IfOk result (λ grid. (x y : ℤ) →
        live grid x y ≡ (in_cells cells.now x y || in_rectangles layout.now.mirrors x y)) }
    ensures size { IfOk result (HasLayoutSize layout.now) }
{
    let size = layout.size();
    let mut grid = grid_of(alloc, size, cells)?;
    fill_mirrors(&mut grid, layout.mirrors());
    Ok(grid)
}

// A grid on which the cells of mirrors, balls, waste cells and ports are live.
#[tactic(auto, using(crate::proofs::LayoutTableLemmas::nothing_here, crate::proofs::LayoutTableLemmas::others_inside))]
fn occupied_grid(alloc: Global, layout: &Layout) -> Result<Grid, AllocError>
    ensures cells { IfOk result (λ grid. (x y : ℤ) →
        live grid x y ≡ false → HasNothingAt layout.now x y) }
    ensures size { IfOk result (HasLayoutSize layout.now) }
{
    layout.prove_valid();
    let cells = ball_waste_and_port_cells(alloc, layout)?;
    let grid = grid_with_mirrors(alloc, layout, &cells)?;
    Ok(grid)
}

// The grids of a layout's mirrors, of its balls and of its wastes.
#[tactic(auto, using(crate::proofs::Imports::balls_on_layout, crate::proofs::Imports::wastes_on_layout))]
fn mirror_ball_waste_grids(alloc: Global, layout: &Layout) -> Result<(Grid, Grid, Grid), AllocError>
    ensures mirrors { IfOk result (λ grids. (x y : ℤ) →
        live grids.0 x y ≡ in_rectangles layout.now.mirrors x y) }
    ensures mirrors_size { IfOk result (λ grids. HasLayoutSize layout.now grids.0) }
    ensures balls { IfOk result (λ grids. (x y : ℤ) →
        live grids.1 x y ≡ in_cells layout.now.balls x y) }
    ensures wastes { IfOk result (λ grids. (x y : ℤ) →
        live grids.2 x y ≡ in_cells layout.now.wastes x y) }
{
    let size = layout.size();
    let mirrors = grid_with_mirrors(alloc, layout, &[])?;
    let balls = grid_of(alloc, size, layout.balls())?;
    let wastes = grid_of(alloc, size, layout.wastes())?;
    Ok((mirrors, balls, wastes))
}

/// Returns the number among a module's wires of a wire of the circuit that the module knows.
pub(crate) fn local_wire_number(locals: &Locals, wire: WireNo) -> u16
    requires { IsTrue (is_among locals.now.circuit_wires wire) }
    ensures same_wire { circuit_wire locals.now result ≡ wire }
    ensures below { result < wires locals.now.netlist }
{
    let count = locals.wires();
    match locals.number_in_module(wire) {
        Some(number) => {
            prove!((number as usize) < count);
            number
        }
        None => unreachable!(),
    }
}

impl<'a> LayoutTables<'a> {
    /// Creates the tables, once for a circuit and a layout.
    pub(crate) fn new(
        alloc: Global,
        circuit: &'a Circuit,
        layout: &'a Layout,
        ports: &'a PortTablePair<'a>,
    ) -> Result<LayoutTables<'a>, AllocError>
        requires { ArePortTables circuit.now layout.now ports.now.ins ports.now.outs }
        ensures { IfOk result (λ tables. tables
            ≡ record { circuit = circuit.now; layout = layout.now }) }
    {
        let (mirrors, balls, wastes) = mirror_ball_waste_grids(alloc, layout)?;
        let named = occupied_grid(alloc, layout)?;
        Ok(LayoutTables {
            circuit,
            layout,
            mirrors,
            balls,
            wastes,
            named,
            ports,
        })
    }

    /// Returns the circuit.
    pub(crate) fn circuit(&self) -> &Circuit
        ensures { result.now ≡ self.now.circuit }
    {
        self.circuit
    }

    /// Returns the layout.
    pub(crate) fn layout(&self) -> &Layout
        ensures { result.now ≡ self.now.layout }
    {
        self.layout
    }

    // What a cell carries at time 0, where the module knows the wire of an input there.
    fn start_at(&self, locals: &Locals, cell: Cell) -> Signal
        requires { IsPortWireLocalAt (circuit_of self.now.circuit) locals.now.circuit_wires
            self.now.layout.ins cell.x cell.y }
        ensures same_signal { renumber_signal (circuit_wire locals.now) result
            ≡ start_signal (circuit_of self.now.circuit) self.now.layout cell.x cell.y }
        ensures below { IsSignalWireBelow (wires locals.now.netlist) result }
    {
        let mirror = is_live(&self.mirrors, cell);
        let ball = is_live(&self.balls, cell);
        if mirror | ball {
            return Signal::One;
        }
        match self.ports.ins.get(cell) {
            Some(Some(wire)) => Signal::Wire(local_wire_number(locals, wire)),
            Some(None) => Signal::Zero,
            None => Signal::Zero,
        }
    }

    // What a cell is to be at the last time, where the module knows the wire of an output there.
    fn demand_at(&self, locals: &Locals, cell: Cell) -> Demand
        requires { IsPortWireLocalAt (circuit_of self.now.circuit) locals.now.circuit_wires
            self.now.layout.outs cell.x cell.y }
        ensures same_demand { renumber_demand (circuit_wire locals.now) result
            ≡ end_demand (circuit_of self.now.circuit) self.now.layout cell.x cell.y }
        ensures below { IsDemandWireBelow (wires locals.now.netlist) result }
    {
        if is_live(&self.mirrors, cell) {
            return Demand::Live;
        }
        if let Some(port) = self.ports.outs.get(cell) {
            return match port {
                Some(wire) => Demand::Wire(local_wire_number(locals, wire)),
                None => Demand::Dead,
            };
        }
        if is_live(&self.wastes, cell) {
            Demand::Any
        } else {
            Demand::Dead
        }
    }

    // The first column from `from` on whose cell in row `y` the layout may name, or `end` if it names none before it.
    #[tactic(auto, using(crate::proofs::LayoutTableLemmas::end_dead, crate::proofs::LayoutTableLemmas::start_dead))]
    fn next_occupied_column(&self, y: u32, from: u32, end: u32) -> u32
        requires row { y < self.now.layout.size.h }
        requires columns { (from ≤ end) × (end ≤ self.now.layout.size.w) }
        ensures range { (from ≤ result) × (result ≤ end) }
        ensures starts { (x : ℕ) → from ≤ x → x < result →
            start_signal (circuit_of self.now.circuit) self.now.layout (pos x) (pos y)
            ≡ Signal.Zero }
        ensures demands { (x : ℕ) → from ≤ x → x < result →
            end_demand (circuit_of self.now.circuit) self.now.layout (pos x) (pos y)
            ≡ Demand.Dead }
    {
        self.named.next_live_column(y, from, end)
    }

    // The first column from `from` on whose cell in row `y` has no mirror, or `end` if all cells before it have one.
    #[tactic(auto, using(crate::proofs::LayoutTableLemmas::end_live, crate::proofs::LayoutTableLemmas::start_mirror))]
    fn next_nonmirror_column(&self, y: u32, from: u32, end: u32) -> u32
        requires row { y < self.now.layout.size.h }
        requires columns { (from ≤ end) × (end ≤ self.now.layout.size.w) }
        ensures range { (from ≤ result) × (result ≤ end) }
        ensures starts { (x : ℕ) → from ≤ x → x < result →
            start_signal (circuit_of self.now.circuit) self.now.layout (pos x) (pos y)
            ≡ Signal.One }
        ensures demands { (x : ℕ) → from ≤ x → x < result →
            end_demand (circuit_of self.now.circuit) self.now.layout (pos x) (pos y)
            ≡ Demand.Live }
    {
        self.mirrors.next_dead_column(y, from, end)
    }

    // Adds what the cells of a row of a box carry and must be.
    fn push_starts_and_demands_of_row(
        &self,
        locals: &Locals,
        area: Box2,
        y: u32,
        lists: &mut CellLists,
    ) -> Result<(), AllocError>
        requires columns { (area.x + area.w ≤ self.now.layout.size.w)
            × (area.x + area.w ≤ max_side) }
        requires row { (area.y ≤ y) × (y < area.y + area.h) × (y < max_side) }
        requires rows { area.y + area.h ≤ self.now.layout.size.h }
        requires ins { ArePortWiresLocalIn (circuit_of self.now.circuit) locals.now.circuit_wires
            self.now.layout.ins area }
        requires outs { ArePortWiresLocalIn (circuit_of self.now.circuit) locals.now.circuit_wires
            self.now.layout.outs area }
        ensures { OnOk result (AddsStartsAndDemands (circuit_of self.now.circuit) self.now.layout
            locals.now (row_cells area.x area.w y) lists.old lists.new) }
    {
        let end = area.x + area.w;
        let mut x = area.x;
        while x < end {
            let named = self.next_occupied_column(y, x, end);
            lists.push_dead(named - x)?;
            if named == end {
                return Ok(());
            }
            x = self.next_nonmirror_column(y, named, end);
            lists.push_live(x - named)?;
            if x == named {
                let cell = Cell {
                    x: named as i32,
                    y: y as i32,
                };
                lists.push(self.start_at(locals, cell), self.demand_at(locals, cell))?;
                x = named + 1;
            }
        }
        Ok(())
    }

    /// Returns what the cells of a box carry at time 0, and what they must be at the last time, row by row.
    ///
    /// The module knows the wires of the ports there.
    pub(crate) fn start_and_demand_lists(
        &self,
        alloc: Global,
        area: Box2,
        locals: &Locals,
    ) -> Result<(StartSignals, EndDemands), AllocError>
        requires columns { (area.x + area.w ≤ self.now.layout.size.w)
            × (area.x + area.w ≤ max_side) }
        requires rows { (area.y + area.h ≤ self.now.layout.size.h) × (area.y + area.h ≤ max_side) }
        requires ins { ArePortWiresLocalIn (circuit_of self.now.circuit) locals.now.circuit_wires
            self.now.layout.ins area }
        requires outs { ArePortWiresLocalIn (circuit_of self.now.circuit) locals.now.circuit_wires
            self.now.layout.outs area }
        ensures starts_count { IfOk result (λ lists. length lists.0 ≡ area.w * area.h) }
        ensures starts_own { IfOk result (λ lists. All
            (IsSignalWireBelow (wires locals.now.netlist)) lists.0) }
        ensures starts { IfOk result (λ lists. (x y : ℤ) → IsTrue (in_box area x y) →
            renumber_signal (circuit_wire locals.now)
            (unwrap_or (slice_get lists.0 (place_in area x y)) Signal.Zero)
            ≡ start_signal (circuit_of self.now.circuit) self.now.layout x y) }
        ensures demands_count { IfOk result (λ lists. length lists.1 ≡ area.w * area.h) }
        ensures demands_own { IfOk result (λ lists. All
            (IsDemandWireBelow (wires locals.now.netlist)) lists.1) }
        ensures demands { IfOk result (λ lists. (x y : ℤ) → IsTrue (in_box area x y) →
            renumber_demand (circuit_wire locals.now)
            (unwrap_or (slice_get lists.1 (place_in area x y)) Demand.Dead)
            ≡ end_demand (circuit_of self.now.circuit) self.now.layout x y) }
    {
        let mut lists = CellLists::new(alloc, area.w as usize * area.h as usize)?;
        for y in area.y..area.y + area.h {
            self.push_starts_and_demands_of_row(locals, area, y, &mut lists)?;
        }
        let CellLists { starts, demands } = lists;
        Ok((starts, demands))
    }
}
