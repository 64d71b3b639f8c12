//! Circuits: their wires, their gates, and their values.
ghost use Rattle.std.specs.Prelude.{◌≡◌, ◌<◌, ◌≤◌, Some, true, length, take, slice_get, IfErr, IfOk, IfSome};
ghost use Rattle.circuit.specs.Entries.{defined};
ghost use Rattle.circuit.specs.Bridge.{AreWireValues, IsValuesFault, circuit_of, input_count, input_names, is_input, netlist_of, as_values};
ghost use Rattle.circuit.specs.Meaning.{AreGatesOrdered, wire_of, wires};
ghost use Rattle.circuit.specs.Wiring.{gate_of};
ghost use Rattle.lemmas.specs.Bounds.{max_gates, max_wires};

use crate::circuit_line::{CircuitLine, CircuitLineKind};
use crate::number::{GateNo, WireNo};
use crate::wiring::{GateWires, values_of};
use indexmap::IndexSet;
use section_text::{Name, NameHints, Seed};
use std::alloc::{AllocError, Global};
use std::marker::Model;

/// A circuit of conservative logic (Fredkin and Toffoli 1982). Contracts see its lines.
///
/// Each wire is defined once and consumed once, and a gate uses wires that were defined before it. It has at most
/// 65,000 wires and 16,384 gates.
#[derive(Drop)]
pub struct Circuit {
    pub(crate) wires: IndexSet<Name, Seed>,
    pub(crate) hints: NameHints,
    pub(crate) entries: Vec<CircuitLine>,
    pub(crate) wired: Vec<GateWires>,
}

impl Model for Circuit {
    ghost use Rattle.std.specs.Prelude.{List};
    ghost use Rattle.circuit.specs.declared.circuit_line.CircuitLine.{CircuitLine};

    ghost Value = { List CircuitLine };

    ghost use Rattle.circuit.specs.CircuitView.{AreCircuitFields, circuit_entries};

    ghost view = { circuit_entries };

    ghost invariant = { AreCircuitFields };
}

/// The reason why a circuit has no values.
#[derive(Debug, Drop, PartialEq, Eq)]
pub enum ValuesFault {
    /// The gate of this number is the first that has no row. The values are those of the wires defined before it.
    OutOfDomain { gate: usize, before: Vec<bool> },
    /// There is no memory.
    Memory,
}

impl From<AllocError> for ValuesFault {
    ghost use Rattle.std.specs.Prelude.{◌≡◌};
    ghost use Rattle.circuit.specs.declared.netlist.ValuesFault.TheVariants.{Memory};

    ghost from_gives = { λ _ e. e ≡ Memory };

    fn from(_: AllocError) -> ValuesFault {
        ValuesFault::Memory
    }
}

fn is_input_kind(kind: CircuitLineKind) -> bool
    ensures { result ≡ is_input kind }
{
    match kind {
        CircuitLineKind::Input => true,
        _ => false,
    }
}

fn count_inputs(entries: &[CircuitLine]) -> usize
    ensures { result ≡ input_count entries.now }
{
    entries
        .iter()
        .filter(|entry| is_input_kind(entry.kind))
        .count()
}

/// Returns whether the list has the name at this place.
#[inline(always)]
pub(crate) fn is_name_at(names: &[Name], place: usize, name: &Name) -> bool
    ensures name { result ≡ true → slice_get names.now place ≡ Some name.now }
    ensures place_within_names { result ≡ true → place < length names.now }
{
    match names.get(place) {
        Some(found) => *found == *name,
        None => false,
    }
}

impl Circuit {
    // The lines of the circuit.
    pub(crate) fn entries(&self) -> &[CircuitLine]
        ensures { result.now ≡ self.now }
    {
        self.entries.as_slice()
    }

    // The names of the wires, by their numbers.
    #[tactic(auto, using(crate::proofs::Naming::wires_are_named))]
    pub(crate) fn names(&self) -> &[Name]
        ensures names { result.now ≡ defined self.now }
        ensures count { length result.now ≡ wires (netlist_of self.now) }
    {
        self.wires.as_slice()
    }

    /// Returns how many inputs the circuit has. They are its first wires, in the order of their lines.
    #[tactic(auto, using(crate::proofs::Counting::inputs_counted, crate::proofs::Naming::inputs_are_first))]
    pub fn inputs(&self) -> usize
        ensures count { result ≡ (netlist_of self.now).given }
        ensures inputs_come_first { take result (defined self.now) ≡ input_names self.now }
        ensures inputs_named { length (input_names self.now) ≡ result }
    {
        count_inputs(self.entries.as_slice())
    }

    /// Returns how many wires the circuit has, at most 65,000. They are numbered from 0 in order of definition.
    #[tactic(auto, using(crate::proofs::Naming::wires_are_named))]
    pub fn wires(&self) -> usize
        ensures count { result ≡ wires (netlist_of self.now) }
        ensures wires_named { result ≡ length (defined self.now) }
        ensures at_most_max_wires { result ≤ max_wires }
    {
        self.wires.len()
    }

    // The wire of this name, if there is one.
    #[tactic(auto, using(crate::proofs::Naming::place_position, crate::proofs::Naming::wires_are_named))]
    fn wire_by_hash(&self, name: &Name) -> Option<WireNo>
        ensures wire { result ≡ wire_of (circuit_of self.now) name.now }
        ensures wire_exists { IfSome result (λ w. w < wires (netlist_of self.now)) }
    {
        let index = self.wires.get_index_of(name)?;
        Some(WireNo::of(index as u16))
    }

    /// Returns the wire of this name, if there is one. Its number is below `wires()`.
    #[inline(always)]
    #[tactic(auto, using(crate::proofs::Naming::names_are_own, crate::proofs::Naming::wires_are_named))]
    pub fn wire(&self, name: &Name) -> Option<WireNo>
        ensures wire { result ≡ wire_of (circuit_of self.now) name.now }
        ensures wire_exists { IfSome result (λ w. w < wires (netlist_of self.now)) }
    {
        // To compare the name with that of a likely wire costs less than to look it up by its hash.
        let likely = self.hints.guess(name);
        if is_name_at(self.wires.as_slice(), likely, name) {
            return Some(WireNo::of(likely as u16));
        }
        self.wire_by_hash(name)
    }

    /// Returns the name of a wire, for a number below `wires()`.
    #[tactic(auto, using(crate::proofs::Imports::slice_get_read, crate::proofs::Naming::names_are_own))]
    pub fn name(&self, wire: WireNo) -> Name
        requires { wire < length (defined self.now) }
        ensures name { slice_get (defined self.now) wire ≡ Some result }
        ensures own_wire { wire_of (circuit_of self.now) result ≡ Some wire }
    {
        self.wires.as_slice()[wire.number() as usize]
    }

    /// Returns how many gates the circuit has, at most 16,384, sources among them.
    ///
    /// They are numbered from 0 in the order of their lines. Each of them uses wires that inputs and earlier gates
    /// define.
    pub fn gates(&self) -> usize
        ensures count { result ≡ length (netlist_of self.now).gates }
        ensures at_most_max_gates { result ≤ max_gates }
        ensures gates_ordered { AreGatesOrdered (netlist_of self.now).given
            (netlist_of self.now).gates }
    {
        self.wired.len()
    }

    /// Shows what holds of each circuit. It does nothing.
    #[tactic(auto, using(crate::proofs::Naming::inputs_are_first, crate::proofs::Naming::wires_are_named))]
    #[inline(always)]
    pub fn prove_valid(&self)
        ensures at_most_max_gates { length (netlist_of self.now).gates ≤ max_gates }
        ensures at_most_max_wires { wires (netlist_of self.now) ≤ max_wires }
        ensures gates_ordered { AreGatesOrdered (netlist_of self.now).given
            (netlist_of self.now).gates }
        ensures inputs_come_first { take (netlist_of self.now).given (defined self.now)
            ≡ input_names self.now }
    {
        let _ = &self.wires;
        self.gates();
    }

    /// Returns a gate, for a number below `gates()`: its kind, and the wires that it uses and defines.
    pub fn gate(&self, gate: GateNo) -> GateWires
        requires { gate < length (netlist_of self.now).gates }
        ensures { slice_get (netlist_of self.now).gates gate ≡ Some (gate_of result) }
    {
        self.wired.as_slice()[gate.number() as usize]
    }

    /// Returns each wire's value, by its number, in the one valuation in which the inputs have these values.
    ///
    /// `inputs` has one value for each input.
    ///
    /// # Errors
    ///
    /// If there is no valuation, the first gate without a row, and the values of the wires that are defined before it.
    pub fn values(&self, alloc: Global, inputs: &[bool]) -> Result<Vec<bool>, ValuesFault>
        requires { length inputs.now ≡ (netlist_of self.now).given }
        ensures values { IfOk result (λ vs. AreWireValues (netlist_of self.now)
            (as_values inputs.now) vs.items) }
        ensures fault { IfErr result (λ e. IsValuesFault (netlist_of self.now)
            (as_values inputs.now) e) }
    {
        match values_of(alloc, inputs, self.wired.as_slice()) {
            Ok(values) => Ok(values),
            Err(fault) => Err(fault),
        }
    }
}
