//! `circuit` and `pattern`.
ghost use Rattle.std.specs.Prelude.{◌≡◌, ◌<◌, true, length};
ghost use Rattle.circuit.specs.Bridge.{netlist_of};
ghost use Rattle.circuit.specs.Entries.{defined};

use bbm_rule::Cell;
use circuit::{
    Circuit, CircuitFault, Draft, GateKind, GateNo, Unused, ValuesFault, WireNo, port_names,
    print_circuit, read_circuit,
};
use module_box::Box2;
use pattern::{Layout, RunEnd, print_layout, read_assign, read_layout, run_plain, start_cells};
use section_text::{Feed, Name, PortNames, ReadFault};
use std::alloc::{AllocError, Global};

/// Makes a circuit of each call that a draft has.
pub fn draft_circuit(
    alloc: Global,
    names: [Name; 4],
) -> Result<Result<Circuit, Unused>, CircuitFault> {
    let [input, source, first, second] = names;
    let mut draft = Draft::new(alloc);
    draft.add_input(input)?;
    draft.add_source(true, source)?;
    draft.add_gate(GateKind::Delay(4), &[input], &[first])?;
    draft.add_gate(GateKind::Delay(4), &[source], &[second])?;
    draft.add_output(first)?;
    draft.add_spill(second)?;
    Ok(draft.finish())
}

/// Returns the code of a fault of a draft.
pub fn code_of(fault: CircuitFault) -> Option<u8> {
    match fault {
        CircuitFault::Code(code) => Some(code.number()),
        CircuitFault::Memory => None,
    }
}

/// Returns the draft and the wire of a draft that was finished too early.
pub fn draft_and_wire(unused: Unused) -> (Draft, Name) {
    let Unused { draft, wire } = unused;
    (draft, wire)
}

/// Returns how many wires a gate of a kind uses.
pub fn use_count(kind: GateKind) -> u8 {
    match kind {
        GateKind::Source(_) => 0,
        GateKind::Delay(_) => 1,
        GateKind::Switch | GateKind::Interact => 2,
        GateKind::Fredkin | GateKind::Cswap | GateKind::Unswitch => 3,
        GateKind::Uninteract => 4,
    }
}

/// Asks a circuit for its wires, its gates and their values.
pub fn ask_circuit(
    alloc: Global,
    circuit: &Circuit,
    inputs: &[bool],
    gate: GateNo,
    wire: WireNo,
) -> Result<(usize, usize, Option<WireNo>), ValuesFault>
    requires inputs { length inputs.now ≡ (netlist_of circuit.now).given }
    requires gate { gate < length (netlist_of circuit.now).gates }
    requires wire { wire < length (defined circuit.now) }
{
    let name = circuit.name(wire);
    let wires = circuit.gate(gate);
    let count = wires.ins().len() + wires.outs().len();
    let kind: GateKind = wires.kind();
    let values: Vec<bool> = circuit.values(alloc, inputs)?;
    let _ = (count, kind, values.len());
    Ok((circuit.wires(), circuit.gates(), circuit.wire(&name)))
}

/// Returns the gate without values, and how many values come before it.
pub fn gate_without_values(fault: ValuesFault) -> Option<(usize, usize)> {
    match fault {
        ValuesFault::OutOfDomain { gate, before } => Some((gate, before.len())),
        ValuesFault::Memory => None,
    }
}

/// Reads and prints a circuit and a layout.
pub fn read_and_print(alloc: Global, feed: &mut Feed) -> Result<(Vec<u8>, Vec<u8>), ReadFault>
    requires { feed.old.closed ≡ true }
{
    let circuit: Circuit = read_circuit(alloc, feed)?;
    let Ok(ports) = port_names(alloc, &circuit) else {
        return Err(ReadFault::Memory);
    };
    let ports: PortNames = ports;
    let layout: Layout = read_layout(alloc, feed, &ports)?;
    match (print_circuit(alloc, &circuit), print_layout(alloc, &layout)) {
        (Ok(circuit), Ok(layout)) => Ok((circuit, layout)),
        _ => Err(ReadFault::Memory),
    }
}

/// Returns the names that are on.
pub fn read_names_on(alloc: Global, feed: &mut Feed, ins: &[Name]) -> Result<Vec<Name>, ReadFault>
    requires { feed.old.closed ≡ true }
{
    read_assign(alloc, feed, ins)
}

/// Asks a layout for its parts.
pub fn ask_layout(layout: &Layout) -> (u32, u32, u32, usize) {
    let size = layout.size();
    let mirrors: &[Box2] = layout.mirrors();
    let cells: [&[Cell]; 2] = [layout.balls(), layout.wastes()];
    let ports = layout.ins().len().max(layout.outs().len());
    let most = mirrors
        .len()
        .max(cells[0].len())
        .max(cells[1].len())
        .max(ports);
    (size.w, size.h, size.steps, most)
}

/// Runs a layout, and returns how many cells are live at the start and at the end, or the step that leaves.
pub fn run_layout(
    alloc: Global,
    layout: &Layout,
    on: &[Name],
) -> Result<(usize, Result<usize, u32>), AllocError> {
    let start: Vec<Cell> = start_cells(alloc, layout, on)?;
    match run_plain(alloc, layout, on)? {
        RunEnd::Cells(cells) => Ok((start.len(), Ok(cells.len()))),
        RunEnd::LeftAt(step) => Ok((start.len(), Err(step))),
    }
}
