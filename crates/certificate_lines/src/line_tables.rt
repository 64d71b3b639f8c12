//! The circuit and the layout that a certificate is for, with tables of the layout's ports by their cells.
ghost use Rattle.bbm_rule.specs.CellLists.{rectangle_cells};
ghost use Rattle.std.specs.Prelude.{◌≡◌, ◌+◌, ◌<◌, ◌≤◌, ◌&&◌, not, length, slice_get, IfSome};
ghost use Rattle.std.specs.List.{All, list_any};
ghost use Rattle.std.specs.Option.{option_and_then, option_map};
ghost use Rattle.circuit.specs.Meaning.{wire_of, wires};
ghost use Rattle.circuit.specs.Wiring.{gate_of};
ghost use Rattle.bbm_rule.specs.CellLists.{row_cells};
ghost use Rattle.pattern.specs.Lines.{size_fault};
ghost use Rattle.bbm_rule.specs.Boxes.{in_box};
ghost use Rattle.certificate_lines.specs.Entries.{wire_name_in_line};
ghost use Rattle.certificate_lines.specs.Rules.{is_inverse_gate, is_local};
ghost use Rattle.certificate_lines.specs.Versions.{is_nonlocal_signal};
ghost use Rattle.certificate_lines.specs.PortTables.{port_at, ArePortTables};
ghost use Rattle.certificate_lines.specs.Settings.{setting_of};
ghost use Rattle.lemmas.specs.Bounds.{max_gates, max_side};

use crate::certificate_line::CertificateLine;
use crate::ports::{PortTable, PortTablePair};
use crate::wire_list::WireList;
use bbm_rule::Cell;
use circuit::{Circuit, GateNo, GateWires};
use module_box::Box2;
use pattern::{Layout, LayoutHeader};
use section_text::Name;
use std::marker::Model;

/// A circuit and a layout, by which the names and numbers of lines are looked up. Contracts see a `Setting`.
#[derive(Drop)]
pub struct LineTables<'a> {
    circuit: &'a Circuit,
    layout: &'a Layout,
    ports: &'a PortTablePair<'a>,
}

impl<'a> Model for LineTables<'a> {
    ghost use Rattle.certificate_lines.specs.Entries.{Setting};

    ghost Value = { Setting };

    ghost use Rattle.certificate_lines.specs.LineTablesView.{tables_setting, AreLineTables};

    ghost view = { tables_setting };

    ghost invariant = { AreLineTables };
}

// The name in a line, if it has one.
#[inline(always)]
fn wire_name_in_line(line: &CertificateLine) -> Option<&Name>
    ensures { option_map (λ n. n.now) result ≡ wire_name_in_line line.now }
{
    match line {
        CertificateLine::Cut(name) => Some(name),
        CertificateLine::Edge(border) => border.signal.as_ref(),
        CertificateLine::Halo(border) => border.signal.as_ref(),
        CertificateLine::Stop(stop) => Some(&stop.wire),
        _ => None,
    }
}

// Whether there is a port at the cell, and its wire is not local.
#[inline(always)]
fn is_nonlocal_port(ports: &PortTable, known: &WireList, cell: Cell) -> bool
    ensures { result ≡ is_nonlocal_signal ports.now.circuit known.now.wires
        (port_at ports.now.ports cell.x cell.y) }
{
    match ports.get(cell) {
        Some(Some(wire)) => !known.contains(wire.number()),
        Some(None) => true,
        None => false,
    }
}

// Whether a port at one of `width` cells of row `y`, from column `x` on, has a wire that is not local.
#[tactic(auto, using(bbm_rule::proofs::CellLists::none_in_row, crate::proofs::TableLemmas::row_named))]
fn has_row_nonlocal_port(ports: &PortTable, known: &WireList, x: u32, y: u32, width: u32) -> bool
    requires { (x + width ≤ max_side) × (y < max_side) }
    ensures { result
        ≡ list_any (λ c. is_nonlocal_signal ports.now.circuit known.now.wires
        (port_at ports.now.ports c.x c.y)) (row_cells x width y) }
{
    if ports.is_row_without_port(y) {
        return false;
    }
    if ports.is_row_part_without_port(x, y, width) {
        return false;
    }
    let mut lacks = false;
    for column in x..x + width {
        let cell = Cell {
            x: column as i32,
            y: y as i32,
        };
        lacks |= is_nonlocal_port(ports, known, cell);
    }
    lacks
}

// Whether a port in a box has a wire that is not local. Most boxes have no row with a port.
#[tactic(auto, unfolding(bbm_rule::specs::CellLists::rectangle_cells))]
fn has_box_nonlocal_port(ports: &PortTable, known: &WireList, area: Box2) -> bool
    requires { (area.x + area.w ≤ max_side) × (area.y + area.h ≤ max_side) }
    ensures { result
        ≡ list_any (λ c. is_nonlocal_signal ports.now.circuit known.now.wires
        (port_at ports.now.ports c.x c.y)) (rectangle_cells area) }
{
    if ports.are_rows_without_port(area.y, area.h) {
        return false;
    }
    let mut lacks = false;
    for y in area.y..area.y + area.h {
        lacks |= has_row_nonlocal_port(ports, known, area.x, y, area.w);
    }
    lacks
}

impl<'a> LineTables<'a> {
    /// Creates the tables of a circuit and a layout, by the tables of the layout's ports.
    pub fn new(
        circuit: &'a Circuit,
        layout: &'a Layout,
        ports: &'a PortTablePair<'a>,
    ) -> LineTables<'a>
        requires { ArePortTables circuit.now layout.now ports.now.ins ports.now.outs }
        ensures { result ≡ setting_of circuit.now layout.now }
    {
        circuit.prove_valid();
        layout.prove_valid();
        LineTables {
            circuit,
            layout,
            ports,
        }
    }

    /// Returns the width, the height and the steps of the layout.
    pub(crate) fn size(&self) -> LayoutHeader
        ensures size { result ≡ self.now.size }
        ensures limits { size_fault result ≡ None }
    {
        self.layout.size()
    }

    /// Shows the limits of the layout. It does nothing.
    #[inline(always)]
    pub(crate) fn prove_valid(&self)
        ensures { size_fault self.now.size ≡ None }
    {
        self.layout.prove_valid();
    }

    /// Returns the circuit's wire that a line names, if it names one and the circuit has it.
    #[inline(always)]
    pub(crate) fn wire_in(&self, line: &CertificateLine) -> Option<u16>
        ensures wire { result
            ≡ option_and_then (wire_of self.now.circuit) (wire_name_in_line line.now) }
        ensures of_the_circuit { IfSome result (λ w. w < wires self.now.circuit.netlist) }
        ensures at_most_max_gates { length self.now.circuit.netlist.gates ≤ max_gates }
        ensures size_limits { size_fault self.now.size ≡ None }
    {
        let wire = self.circuit.wire(wire_name_in_line(line)?)?;
        Some(wire.number())
    }

    /// Returns how many wires the circuit has.
    #[inline(always)]
    pub(crate) fn wire_count(&self) -> usize
        ensures { result ≡ wires self.now.circuit.netlist }
    {
        self.circuit.wires()
    }

    /// Returns the circuit's gate of this number.
    pub(crate) fn gate(&self, number: u32) -> Option<GateWires>
        ensures gate { option_map gate_of result
            ≡ slice_get self.now.circuit.netlist.gates number }
        ensures of_the_circuit { IfSome result (λ g. All (λ w. w < wires self.now.circuit.netlist)
            (gate_of g).outs) }
    {
        self.circuit.prove_valid();
        if number as usize >= self.circuit.gates() {
            return None;
        }
        Some(self.circuit.gate(GateNo::of(number as u16)))
    }

    /// Returns whether the number is that of an inverse gate of the circuit.
    pub(crate) fn is_inverse(&self, number: u32) -> bool
        ensures { result ≡ is_inverse_gate (slice_get self.now.circuit.netlist.gates number) }
    {
        match self.gate(number) {
            None => false,
            Some(gate) => gate.kind().is_inverse(),
        }
    }

    /// Returns whether a port in a box has a wire that is not local.
    pub(crate) fn has_nonlocal_port(&self, known: &WireList, area: Box2) -> bool
        requires { (area.x + area.w ≤ max_side) × (area.y + area.h ≤ max_side) }
        ensures { result ≡ list_any (λ p. in_box area p.cell.x p.cell.y
            && not (is_local self.now.circuit known.now.wires p.name)) self.now.ports }
    {
        let lacks_input = has_box_nonlocal_port(&self.ports.ins, known, area);
        let lacks_output = has_box_nonlocal_port(&self.ports.outs, known, area);
        lacks_input | lacks_output
    }
}
