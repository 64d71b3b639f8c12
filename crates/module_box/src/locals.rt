//! The wires that a module knows, and the gates that it uses, numbered anew.

ghost use Rattle.std.specs.Prelude.{◌≡◌, ◌==◌, ◌+◌, ◌<◌, ◌≤◌, ◌^◌, ◌++◌, [], map, length, position, is_some, slice_index, IsTrue, Some, OnOk, IfOk, IfSome};
ghost use Rattle.std.specs.List.{All};
ghost use Rattle.circuit.specs.Bridge.{netlist_of};
ghost use Rattle.circuit.specs.Gates.{uses};
ghost use Rattle.circuit.specs.Meaning.{wires};
ghost use Rattle.circuit.specs.Wiring.{gate_of};
ghost use Rattle.module_box.specs.LocalGates.{gate_of_local_gate};
ghost use Rattle.module_box.specs.Locals.{AreDistinct, AreLocalLines, AreLocalsOf, circuit_gate, circuit_wire, is_among, local_wires};

use crate::numbered_wires::NumberedWires;
use crate::wiring::Wiring;
use circuit::{Circuit, GateKind, GateNo, GateWires, WireNo};
use std::alloc::{AllocError, Global};
use std::marker::Model;

// A gate over the wires that a module knows, by their numbers there: the wires that it uses, and the first of those
// that it defines, which are numbered one after the other.
#[derive(Clone, Copy, Debug)]
pub(crate) struct LocalGate {
    pub(crate) kind: GateKind,
    pub(crate) ins: [u16; 4],
    pub(crate) first: u16,
}

/// The wires that a module knows: its cuts, then the outputs of the gates that it uses, numbered from 0 in this order.
///
/// It also has those gates, over these numbers.
#[derive(Debug, Drop)]
pub struct Locals {
    pub(crate) given: usize,
    pub(crate) gates: Vec<LocalGate>,
    pub(crate) circuit_wires: NumberedWires,
    pub(crate) circuit_gates: Vec<GateNo>,
}

impl Model for Locals {
    ghost use Rattle.module_box.specs.Locals.{LocalNet};

    ghost Value = { LocalNet };

    ghost use Rattle.module_box.specs.LocalsView.{local_net, IsLocalNet};

    ghost view = { local_net };

    ghost invariant = { IsLocalNet };
}

// Adds wires that are not known yet.
#[tactic(auto, using(crate::proofs::WireLists::next_fresh))]
fn add_wires(known: &mut NumberedWires, wires: &[WireNo]) -> Result<(), AllocError>
    requires different { AreDistinct (known.old ++ wires.now) }
    requires at_most_65536 { length known.old + length wires.now ≤ 2 ^ 16 }
    ensures { OnOk result (known.new ≡ known.old ++ wires.now) }
{
    for wire in wires {
        known.push(wire.number())?;
    }
    Ok(())
}

// The number here of a wire that is known.
fn local_number(known: &NumberedWires, wire: WireNo) -> u16
    requires wire_known { IsTrue (is_among known.now wire) }
    ensures number_within_known { result < length known.now }
    ensures wire { slice_index known.now result ≡ wire }
{
    match known.number(wire.number()) {
        Some(number) => number,
        None => unreachable!(),
    }
}

// The gate over the wires that are known. Those that it defines come next.
fn local_gate(known: &NumberedWires, gate: GateWires) -> LocalGate
    requires below_65536 { length known.now < 2 ^ 16 }
    requires inputs_known { All (λ w. IsTrue (is_among known.now w)) (gate_of gate).ins }
    requires fits { length (gate_of gate).ins ≡ uses (gate_of gate).kind }
    ensures kind { (gate_of_local_gate result).kind ≡ (gate_of gate).kind }
    ensures inputs_within_known { All (λ w. w < length known.now) (gate_of_local_gate result).ins }
    ensures ins { map (slice_index known.now) (gate_of_local_gate result).ins ≡ (gate_of gate).ins }
    ensures first { result.first ≡ length known.now }
{
    let mut ins = [0; 4];
    for (place, wire) in gate.ins().iter().enumerate() {
        ins[place] = local_number(known, *wire);
    }
    LocalGate {
        kind: gate.kind(),
        ins,
        first: known.len() as u16,
    }
}

// The gates, each over the wires that are known before it. The cuts become known, and what each gate defines.
fn number_cuts_and_gates(
    alloc: Global,
    known: &mut NumberedWires,
    circuit: &Circuit,
    cuts: &[WireNo],
    gates: &[GateNo],
) -> Result<Vec<LocalGate>, AllocError>
    requires known_is_empty { known.old ≡ [] }
    requires lines { AreLocalLines (netlist_of circuit.now) cuts.now gates.now }
    ensures locals { IfOk result (λ made. AreLocalsOf (netlist_of circuit.now)
        (record {
          netlist = record { given = length cuts.now; gates = map gate_of_local_gate made.items };
          circuit_wires = known.new;
          circuit_gates = gates.now;
        })) }
    ensures wires { IfOk result (λ made. known.new
        ≡ local_wires (netlist_of circuit.now) cuts.now gates.now) }
    ensures count { IfOk result (λ made. length made.items ≡ length gates.now) }
    ensures at_most_268 { IfOk result (λ made. length known.new ≤ 268) }
{
    let gate_count = circuit.gates();
    add_wires(known, cuts)?;
    let mut made = Vec::with_capacity(alloc, gates.len())?;
    for used in gates {
        prove!((used.number() as usize) < gate_count);
        let gate = circuit.gate(*used);
        let local = local_gate(known, gate);
        made.push(local)?;
        add_wires(known, gate.outs())?;
    }
    Ok(made)
}

impl Locals {
    /// Creates the wires and gates that the lines of a module name.
    ///
    /// They are the wires of the circuit that the module cuts, at most 12, and the gates that it uses, at most 64, in
    /// the order of the circuit. Each gate uses wires that are cut or that a gate before it defines. No wire is cut
    /// twice, or cut and defined.
    pub fn new(
        alloc: Global,
        circuit: &Circuit,
        cuts: &[WireNo],
        gates: &[GateNo],
    ) -> Result<Locals, AllocError>
        requires { AreLocalLines (netlist_of circuit.now) cuts.now gates.now }
        ensures locals { IfOk result (λ l. AreLocalsOf (netlist_of circuit.now) l) }
        ensures wires { IfOk result (λ l. l.circuit_wires
            ≡ local_wires (netlist_of circuit.now) cuts.now gates.now) }
        ensures gates { IfOk result (λ l. l.circuit_gates ≡ gates.now) }
        ensures count { IfOk result (λ l. length l.netlist.gates ≡ length gates.now) }
        ensures cuts_given { IfOk result (λ l. l.netlist.given ≡ length cuts.now) }
    {
        let circuit_gates = gates.to_vec(alloc)?;
        Locals::with_gates(alloc, circuit, cuts, circuit_gates)
    }

    /// Creates them like [`Locals::new`], from a list of gates that it keeps.
    pub fn with_gates(
        alloc: Global,
        circuit: &Circuit,
        cuts: &[WireNo],
        circuit_gates: Vec<GateNo>,
    ) -> Result<Locals, AllocError>
        requires { AreLocalLines (netlist_of circuit.now) cuts.now circuit_gates.items }
        ensures locals { IfOk result (λ l. AreLocalsOf (netlist_of circuit.now) l) }
        ensures wires { IfOk result (λ l. l.circuit_wires
            ≡ local_wires (netlist_of circuit.now) cuts.now circuit_gates.items) }
        ensures gates { IfOk result (λ l. l.circuit_gates ≡ circuit_gates.items) }
        ensures count { IfOk result (λ l. length l.netlist.gates ≡ length circuit_gates.items) }
        ensures cuts_given { IfOk result (λ l. l.netlist.given ≡ length cuts.now) }
    {
        // Room for most modules: a gate mostly defines one to three wires.
        let room = cuts
            .len()
            .saturating_add(circuit_gates.len().saturating_mul(3));
        let mut wires = NumberedWires::with_capacity(alloc, room)?;
        let gates = number_cuts_and_gates(alloc, &mut wires, circuit, cuts, &circuit_gates)?;
        Ok(Locals {
            given: cuts.len(),
            gates,
            circuit_wires: wires,
            circuit_gates,
        })
    }

    /// Returns the gates over the module's own wires, and the numbers of these wires and gates in the circuit.
    pub fn into_parts(self) -> (Wiring, Vec<u16>, Vec<GateNo>)
        ensures wiring { result.0 ≡ self.netlist }
        ensures wires { result.1.items ≡ self.circuit_wires }
        ensures gates { result.2.items ≡ self.circuit_gates }
        ensures wire_count { length self.circuit_wires ≡ wires self.netlist }
    {
        let wires = self.wires();
        let wiring = Wiring {
            given: self.given,
            gates: self.gates,
            wires,
        };
        (wiring, self.circuit_wires.into_wires(), self.circuit_gates)
    }

    /// Returns how many wires the module knows, at most 268: 12 cuts, and 4 wires of each of 64 gates.
    pub fn wires(&self) -> usize
        ensures count { result ≡ length self.now.circuit_wires }
        ensures netlist_wires { result ≡ wires self.now.netlist }
        ensures at_most_268 { result ≤ 268 }
    {
        self.circuit_wires.len()
    }

    /// Returns the module's number, below `wires()`, of a wire of the circuit, if the module knows it.
    pub fn number_in_module(&self, wire: WireNo) -> Option<u16>
        ensures place { result ≡ position (λ w. w == wire) self.now.circuit_wires }
        ensures found_if_known { is_some result ≡ is_among self.now.circuit_wires wire }
        ensures number_exists { IfSome result (λ i. i < length self.now.circuit_wires) }
        ensures same_wire { IfSome result (λ i. circuit_wire self.now i ≡ wire) }
    {
        self.circuit_wires.number(wire.number())
    }

    /// Returns the number in the circuit of the used gate at this place, for a place below `gates()`, and else 0.
    pub fn circuit_gate_number(&self, place: usize) -> u16
        ensures { result ≡ circuit_gate self.now place }
    {
        match self.circuit_gates.get(place) {
            Some(gate) => gate.number(),
            None => 0,
        }
    }

    /// Returns the wire of the circuit that has this number in the module, for a number below `wires()`.
    pub fn wire(&self, number: u16) -> WireNo
        requires { number < length self.now.circuit_wires }
        ensures { result ≡ circuit_wire self.now number }
    {
        WireNo::of(self.circuit_wires.as_slice()[number as usize])
    }
}
