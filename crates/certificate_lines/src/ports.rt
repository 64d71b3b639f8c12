//! The ports of a layout by their cells.
ghost use Rattle.std.specs.Prelude.{◌≡◌, ◌+◌, ◌<◌, ◌≤◌, ℕ, ℤ, length, map, nat_eq, pos, true, None, IfOk, IfSome};
ghost use Rattle.std.specs.List.{list_all};
ghost use Rattle.std.specs.Option.{option_map};
ghost use Rattle.circuit.specs.Bridge.{circuit_of};
ghost use Rattle.circuit.specs.Meaning.{wire_of};
ghost use Rattle.pattern.specs.Layout.{HaveDistinctCells};
ghost use Rattle.pattern.specs.Lines.{size_fault};
ghost use Rattle.bbm_rule.specs.Boxes.{in_box};
ghost use Rattle.certificate_lines.specs.PortTables.{port_at, entry_place, ArePortsInBox, ArePortTables, AreRowsWithPortsNumbered, ArePortsInLayout};
ghost use Rattle.lemmas.specs.Bounds.{max_side, max_wires};

use crate::rules::whole_of;
use bbm_rule::Cell;
use circuit::{Circuit, WireNo};
use module_box::Box2;
use pattern::{Layout, LayoutHeader, Port};
use std::alloc::{AllocError, Global};
use std::marker::Model;

/// The wire of a port, or `None` if the circuit has none of the port's name.
pub type PortWire = Option<WireNo>;

// The wire of a port in two bytes: its number plus one, or 0 for none. Contracts see the wire.
#[derive(Clone, Copy)]
struct PackedWire {
    code: u16,
}

impl Model for PackedWire {
    ghost use Rattle.std.specs.Prelude.{ℕ, Option};

    ghost Value = { Option ℕ };

    ghost use Rattle.certificate_lines.specs.PackedWires.{code_back, code_of_wire, wire_of_code};

    ghost view = { λ a. wire_of_code a.code };

    ghost inverse = { λ w. record { code = code_of_wire w } };

    ghost inverse_ok = { code_back };
}

impl PackedWire {
    fn of(wire: PortWire) -> PackedWire
        requires { IfSome wire (λ w. w < max_wires) }
        ensures { result ≡ wire }
    {
        match wire {
            Some(wire) => PackedWire {
                code: wire.number() + 1,
            },
            None => PackedWire { code: 0 },
        }
    }

    fn wire(self) -> PortWire
        ensures { result ≡ self }
    {
        if self.code == 0 {
            None
        } else {
            Some(WireNo::of(self.code - 1))
        }
    }
}

/// The inputs or the outputs of a layout, with a table by which the wire of the port at a cell is looked up. Contracts
/// see the circuit and the ports.
///
/// Only rows with a port have entries in the table, since most rows of a layout have none.
#[derive(Drop)]
pub struct PortTable<'a> {
    area: Box2,
    circuit: &'a Circuit,
    ports: &'a [Port],
    wires: Vec<PackedWire>,
    // for each row of the area, its number among the rows with a port, counted from 1, or 0 if it has none
    rows: Vec<u32>,
    // for each cell of the rows with a port, row by row, the number of its port plus one, or 0 where there is none
    numbers: Vec<u32>,
}

impl<'a> Model for PortTable<'a> {
    ghost use Rattle.certificate_lines.specs.PortTables.{CircuitAndPorts};

    ghost Value = { CircuitAndPorts };

    ghost use Rattle.certificate_lines.specs.PortTables.{ArePortTableFields, circuit_and_ports};

    ghost view = { circuit_and_ports };

    ghost invariant = { ArePortTableFields };
}

// The place of a cell's number in a table with these rows, if the cell's row has numbers.
#[inline(always)]
#[tactic(auto, using(crate::proofs::Imports::abs_from, crate::proofs::RowLemmas::none_after, crate::proofs::RowLemmas::sides, crate::proofs::RowLemmas::some_after))]
fn entry_place(area: Box2, rows: &[u32], cell: Cell) -> Option<usize>
    requires inside { in_box area cell.x cell.y ≡ true }
    requires small { area.w ≤ max_side }
    requires sized { length rows.now ≡ area.h }
    ensures { result ≡ entry_place area rows.now cell.x cell.y }
{
    let row = rows[(cell.y.unsigned_abs() - area.y) as usize] as usize;
    if row == 0 {
        return None;
    }
    let column = (cell.x.unsigned_abs() - area.x) as usize;
    Some((row - 1) * area.w as usize + column)
}

// The numbers of an area's rows with a port, counted from 1, with 0 for each other row; and how many have a port.
fn number_rows(alloc: Global, area: Box2, ports: &[Port]) -> Result<(Vec<u32>, u32), AllocError>
    requires inside { ArePortsInBox area ports.now }
    requires small { area.h ≤ max_side }
    ensures { IfOk result (λ numbered. AreRowsWithPortsNumbered area ports.now numbered.0.items
        numbered.1) }
{
    let mut rows = vec![in alloc; 0u32; area.h as usize]?;
    let mut count = 0u32;
    for number in 0..ports.len() {
        let row = (ports[number].cell.y.unsigned_abs() - area.y) as usize;
        if rows[row] == 0 {
            count += 1;
            rows[row] = count;
        }
    }
    Ok((rows, count))
}

// The wires of ports.
fn port_wires(
    alloc: Global,
    circuit: &Circuit,
    ports: &[Port],
) -> Result<Vec<PackedWire>, AllocError>
    ensures { IfOk result (λ wires. wires.items
        ≡ map (λ p. wire_of (circuit_of circuit.now) p.name) ports.now) }
{
    circuit.prove_valid();
    let mut wires = Vec::with_capacity(alloc, ports.len())?;
    for port in ports {
        wires.push(PackedWire::of(circuit.wire(&port.name)))?;
    }
    Ok(wires)
}

// The table of some ports, of which no two stand at one cell.
fn index_ports<'a>(
    alloc: Global,
    circuit: &'a Circuit,
    size: LayoutHeader,
    ports: &'a [Port],
) -> Result<PortTable<'a>, AllocError>
    requires limits { size_fault size ≡ None }
    requires cells_distinct { HaveDistinctCells ports.now }
    requires inside { ArePortsInLayout size ports.now }
    ensures { IfOk result (λ table. table
        ≡ record { circuit = circuit_of circuit.now; ports = ports.now }) }
{
    let area = whole_of(size);
    let (rows, count) = number_rows(alloc, area, ports)?;
    let mut numbers = vec![in alloc; 0u32; count as usize * area.w as usize]?;
    for number in 0..ports.len() {
        if let Some(place) = entry_place(area, &rows, ports[number].cell) {
            numbers[place] = number as u32 + 1;
        }
    }
    let wires = port_wires(alloc, circuit, ports)?;
    Ok(PortTable {
        area,
        circuit,
        ports,
        wires,
        rows,
        numbers,
    })
}

/// The tables of the inputs and of the outputs of a layout, by their cells.
#[derive(Drop)]
pub struct PortTablePair<'a> {
    pub ins: PortTable<'a>,
    pub outs: PortTable<'a>,
}

/// Creates the tables of the ports of a layout.
#[tactic(auto, using(crate::proofs::LayoutPorts::ports_on_layout))]
pub fn port_tables<'a>(
    alloc: Global,
    circuit: &'a Circuit,
    layout: &'a Layout,
) -> Result<PortTablePair<'a>, AllocError>
    ensures { IfOk result (λ pair. ArePortTables circuit.now layout.now pair.ins pair.outs) }
{
    let size = layout.size();
    let ins = index_ports(alloc, circuit, size, layout.ins())?;
    let outs = index_ports(alloc, circuit, size, layout.outs())?;
    Ok(PortTablePair { ins, outs })
}

fn are_all_zero(numbers: &[u32]) -> bool
    ensures { result ≡ list_all (λ n. nat_eq n 0) numbers.now }
{
    let mut joined = 0;
    // Over all numbers, so that some are joined at once.
    for number in numbers {
        joined |= *number;
    }
    joined == 0
}

impl<'a> PortTable<'a> {
    // Whether no port is in row `y`, by the row's number alone. Most rows of a layout have no port.
    #[inline(always)]
    pub(crate) fn is_row_without_port(&self, y: u32) -> bool
        ensures { result ≡ true → (x : ℤ) → port_at self.now.ports x (pos y) ≡ None }
    {
        let Some(row) = y.checked_sub(self.area.y) else {
            return false;
        };
        match self.rows.get(row as usize) {
            Some(number) => *number == 0,
            None => false,
        }
    }

    // Whether no port is in the `height` rows from `y` on, by the numbers of the rows alone.
    pub(crate) fn are_rows_without_port(&self, y: u32, height: u32) -> bool
        ensures { result ≡ true → (k : ℕ) → k < height → (x : ℤ) →
            port_at self.now.ports x (pos (y + k)) ≡ None }
    {
        let Some(first) = y.checked_sub(self.area.y) else {
            return false;
        };
        let end = first as usize + height as usize;
        if self.rows.len() < end {
            return false;
        }
        are_all_zero(&self.rows[first as usize..end])
    }

    // Whether no port is at `width` cells of row `y`, from column `x` on. It looks at the row once.
    pub(crate) fn is_row_part_without_port(&self, x: u32, y: u32, width: u32) -> bool
        requires { (x + width ≤ max_side) × (y < max_side) }
        ensures { result ≡ true → (k : ℕ) → k < width →
            port_at self.now.ports (pos (x + k)) (pos y) ≡ None }
    {
        let first = Cell {
            x: x as i32,
            y: y as i32,
        };
        let end = u64::from(self.area.x) + u64::from(self.area.w);
        if !self.area.holds(first) || u64::from(x + width) > end {
            return false;
        }
        let place = match entry_place(self.area, &self.rows, first) {
            None => return true,
            Some(place) => place,
        };
        are_all_zero(&self.numbers[place..place + width as usize])
    }

    /// Returns the wire of the port at the cell, if there is a port.
    pub fn get(&self, cell: Cell) -> Option<PortWire>
        ensures { result ≡ option_map (wire_of self.now.circuit)
            (port_at self.now.ports cell.x cell.y) }
    {
        if !self.area.holds(cell) {
            return None;
        }
        let place = entry_place(self.area, &self.rows, cell)?;
        let number = self.numbers[place] as usize;
        if number == 0 {
            return None;
        }
        Some(self.wires[number - 1].wire())
    }
}
