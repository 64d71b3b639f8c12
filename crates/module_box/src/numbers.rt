//! Numbers that differ for modules with different gates.

ghost use Rattle.std.specs.Prelude.{◌≡◌, ◌≤◌, ◌∷◌, ◌++◌, map, length, IfOk, OnOk};
ghost use Rattle.std.specs.List.{flat_map, range_with_len};
ghost use Rattle.module_box.specs.Equality.{gate_kind_number};
ghost use Rattle.module_box.specs.LocalGates.{gate_of_local_gate};
ghost use Rattle.module_box.specs.Numbers.{gate_code_numbers, netlist_numbers, gate_kind_parameter};

use crate::locals::LocalGate;
use crate::wiring::Wiring;
use circuit::GateKind;
use std::alloc::{AllocError, Global};

fn gate_kind_number(kind: GateKind) -> u64
    ensures { result ≡ gate_kind_number kind }
{
    match kind {
        GateKind::Source(_) => 0,
        GateKind::Fredkin => 1,
        GateKind::Cswap => 2,
        GateKind::Interact => 3,
        GateKind::Switch => 4,
        GateKind::Delay(_) => 5,
        GateKind::Unswitch => 6,
        GateKind::Uninteract => 7,
    }
}

fn gate_kind_parameter(kind: GateKind) -> u64
    ensures { result ≡ gate_kind_parameter kind }
{
    match kind {
        GateKind::Source(true) => 1,
        GateKind::Delay(steps) => steps as u64,
        _ => 0,
    }
}

// Adds how many wires these are, and then their numbers.
fn push_wires(numbers: &mut Vec<u64>, wires: &[u16]) -> Result<(), AllocError>
    ensures { OnOk result (numbers.new.items ≡ numbers.old.items ++ length wires.now ∷ wires.now) }
{
    numbers.push(wires.len() as u64)?;
    for wire in wires {
        numbers.push(*wire as u64)?;
    }
    Ok(())
}

// Adds `count`, and then the numbers of as many wires from `first` on.
fn push_wires_from(numbers: &mut Vec<u64>, first: u16, count: usize) -> Result<(), AllocError>
    requires { count ≤ 4 }
    ensures { OnOk result (numbers.new.items
        ≡ numbers.old.items ++ count ∷ range_with_len first count) }
{
    numbers.push(count as u64)?;
    for place in 0..count {
        numbers.push(first as u64 + place as u64)?;
    }
    Ok(())
}

fn push_gate_as_numbers(numbers: &mut Vec<u64>, gate: &LocalGate) -> Result<(), AllocError>
    ensures { OnOk result (numbers.new.items
        ≡ numbers.old.items ++ gate_code_numbers (gate_of_local_gate gate.now)) }
{
    numbers.push(gate_kind_number(gate.kind))?;
    numbers.push(gate_kind_parameter(gate.kind))?;
    push_wires(numbers, gate.ins())?;
    push_wires_from(numbers, gate.first, gate.kind.outs())
}

fn push_gates_as_numbers(numbers: &mut Vec<u64>, gates: &[LocalGate]) -> Result<(), AllocError>
    ensures { OnOk result (numbers.new.items
        ≡ numbers.old.items ++ flat_map gate_code_numbers (map gate_of_local_gate gates.now)) }
{
    for gate in gates {
        push_gate_as_numbers(numbers, gate)?;
    }
    Ok(())
}

impl Wiring {
    /// Returns numbers that determine the wiring: two different wirings have different numbers.
    ///
    /// They are how many wires are given, how many gates there are, and for each gate what it does, the wires that it
    /// uses and those that it defines.
    #[tactic(auto, unfolding(crate::specs::Numbers::netlist_numbers))]
    pub fn numbers(&self, alloc: Global) -> Result<Vec<u64>, AllocError>
        ensures { IfOk result (λ numbers. numbers.items ≡ netlist_numbers self.now) }
    {
        let mut numbers = Vec::new(alloc);
        numbers.push(self.given as u64)?;
        numbers.push(self.gates.len() as u64)?;
        push_gates_as_numbers(&mut numbers, &self.gates)?;
        Ok(numbers)
    }
}
