//! The names of a circuit's inputs and outputs.
ghost use Rattle.std.specs.Prelude.{◌≡◌, [], ◌∷◌, ◌++◌, length, Some, OnOk, IfOk};
ghost use Rattle.section_text.specs.Ports.{port_name_lists};
ghost use Rattle.circuit.specs.Bridge.{input_names, netlist_of, output_names};

use crate::circuit_line::{CircuitLine, CircuitLineKind};
use crate::netlist::Circuit;
use section_text::{Name, PortNames};
use std::alloc::{AllocError, Global};

fn push_if_input(names: &mut Vec<Name>, entry: &CircuitLine) -> Result<(), AllocError>
    ensures { OnOk result (names.new.items ≡ names.old.items ++ input_names (entry.now ∷ [])) }
{
    match entry.kind {
        CircuitLineKind::Input => names.extend_from_slice(entry.outs.as_slice()),
        _ => Ok(()),
    }
}

fn push_if_output(names: &mut Vec<Name>, entry: &CircuitLine) -> Result<(), AllocError>
    ensures { OnOk result (names.new.items ≡ names.old.items ++ output_names (entry.now ∷ [])) }
{
    match entry.kind {
        CircuitLineKind::Output => names.extend_from_slice(entry.ins.as_slice()),
        _ => Ok(()),
    }
}

fn push_port_names_of_lines(
    ins: &mut Vec<Name>,
    outs: &mut Vec<Name>,
    entries: &[CircuitLine],
) -> Result<(), AllocError>
    ensures ins { OnOk result (ins.new.items ≡ ins.old.items ++ input_names entries.now) }
    ensures outs { OnOk result (outs.new.items ≡ outs.old.items ++ output_names entries.now) }
{
    for entry in entries {
        push_if_input(ins, entry)?;
        push_if_output(outs, entry)?;
    }
    Ok(())
}

/// Returns the names of the inputs and of the outputs, each in the order of their lines. A spill is no output.
pub fn port_names(alloc: Global, circuit: &Circuit) -> Result<PortNames, AllocError>
    ensures ports { IfOk result (λ names. port_name_lists names
        ≡ Some (record { ins = input_names circuit.now; outs = output_names circuit.now })) }
    ensures count { length (input_names circuit.now) ≡ (netlist_of circuit.now).given }
{
    let inputs = circuit.inputs();
    let lines = circuit.entries().len();
    let mut ins = Vec::with_capacity(alloc, inputs)?;
    // The lines that are no inputs and no gates are outputs and spills.
    let most_outs = lines.saturating_sub(inputs).saturating_sub(circuit.gates());
    let mut outs = Vec::with_capacity(alloc, most_outs)?;
    push_port_names_of_lines(&mut ins, &mut outs, circuit.entries())?;
    Ok(PortNames::Only { ins, outs })
}
