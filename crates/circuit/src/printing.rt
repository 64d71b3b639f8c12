//! The text of a circuit.
ghost use Rattle.std.specs.Prelude.{◌≡◌, ◌≤◌, length, ◌++◌, OnOk, IfOk};
ghost use Rattle.std.specs.List.{flat_map};
ghost use Rattle.circuit.specs.Entries.{defined};
ghost use Rattle.section_text.specs.Spelling.{space_and_word};
ghost use Rattle.circuit.specs.Bridge.{netlist_of};
ghost use Rattle.circuit.specs.Meaning.{wires};
ghost use Rattle.circuit.specs.Text.{value_line, value_lines, gate_word, gate_parameter_words, first_word, words_after_keyword, entry_text, circuit_text};

use crate::circuit_line::{CircuitLine, CircuitLineKind, GateKind};
use crate::netlist::Circuit;
use section_text::{Name, print_number, print_word};
use std::alloc::{AllocError, Global};

fn print_names(out: &mut Vec<u8>, names: &[Name]) -> Result<(), AllocError>
    ensures { OnOk result (out.new.items ≡ out.old.items ++ flat_map space_and_word names.now) }
{
    for name in names {
        print_word(out, name.bytes())?;
    }
    Ok(())
}

// The keyword of a gate, and its bit or number.
fn print_gate(out: &mut Vec<u8>, kind: GateKind) -> Result<(), AllocError>
    ensures { OnOk result (out.new.items
        ≡ out.old.items ++ (gate_word kind
        ++ flat_map space_and_word (gate_parameter_words kind))) }
{
    match kind {
        GateKind::Source(true) => out.extend_from_slice(b"source 1"),
        GateKind::Source(false) => out.extend_from_slice(b"source 0"),
        GateKind::Fredkin => out.extend_from_slice(b"fredkin"),
        GateKind::Cswap => out.extend_from_slice(b"cswap"),
        GateKind::Interact => out.extend_from_slice(b"interact"),
        GateKind::Switch => out.extend_from_slice(b"switch"),
        GateKind::Delay(n) => {
            out.extend_from_slice(b"delay")?;
            print_number(out, n)
        }
        GateKind::Unswitch => out.extend_from_slice(b"unswitch"),
        GateKind::Uninteract => out.extend_from_slice(b"uninteract"),
    }
}

#[tactic(auto, unfolding(crate::specs::Text::entry_text, crate::specs::Text::first_word, crate::specs::Text::words_after_keyword))]
fn print_entry(out: &mut Vec<u8>, entry: &CircuitLine) -> Result<(), AllocError>
    ensures { OnOk result (out.new.items ≡ out.old.items ++ entry_text entry.now) }
{
    match entry.kind {
        CircuitLineKind::Input => {
            out.extend_from_slice(b"input")?;
            print_names(out, entry.outs.as_slice())?;
        }
        CircuitLineKind::Gate(kind) => {
            print_gate(out, kind)?;
            print_names(out, entry.ins.as_slice())?;
            out.extend_from_slice(b" ->")?;
            print_names(out, entry.outs.as_slice())?;
        }
        CircuitLineKind::Output => {
            out.extend_from_slice(b"output")?;
            print_names(out, entry.ins.as_slice())?;
        }
        CircuitLineKind::Spill => {
            out.extend_from_slice(b"spill")?;
            print_names(out, entry.ins.as_slice())?;
        }
    }
    out.push(b'\n')?;
    Ok(())
}

fn print_entries(out: &mut Vec<u8>, entries: &[CircuitLine]) -> Result<(), AllocError>
    ensures { OnOk result (out.new.items ≡ out.old.items ++ flat_map entry_text entries.now) }
{
    for entry in entries {
        print_entry(out, entry)?;
    }
    Ok(())
}

/// Returns the text of the circuit section.
#[tactic(auto, unfolding(crate::specs::Text::circuit_text))]
pub fn print_circuit(alloc: Global, circuit: &Circuit) -> Result<Vec<u8>, AllocError>
    ensures { IfOk result (λ text. text.items ≡ circuit_text circuit.now) }
{
    let mut out = Vec::new(alloc);
    out.extend_from_slice(b"circuit\n")?;
    print_entries(&mut out, circuit.entries())?;
    out.extend_from_slice(b"end\n")?;
    Ok(out)
}

// A name, a space, a bit and a line feed.
const MAX_VALUE_LINE_BYTES: usize = 35;

#[tactic(auto, unfolding(crate::specs::Text::value_line))]
fn print_value(out: &mut Vec<u8>, name: &Name, value: bool) -> Result<(), AllocError>
    ensures { OnOk result (out.new.items ≡ out.old.items ++ value_line name.now value) }
{
    out.extend_from_slice(name.bytes())?;
    if value {
        out.extend_from_slice(b" 1\n")
    } else {
        out.extend_from_slice(b" 0\n")
    }
}

fn print_value_lines(out: &mut Vec<u8>, names: &[Name], values: &[bool]) -> Result<(), AllocError>
    requires { length values.now ≤ length names.now }
    ensures { OnOk result (out.new.items ≡ out.old.items ++ value_lines names.now values.now) }
{
    for i in 0..values.len() {
        print_value(out, &names[i], values[i])?;
    }
    Ok(())
}

/// Returns a line `NAME 0` or `NAME 1` for each wire that has a value, in order of definition.
pub fn print_all_wire_values(
    alloc: Global,
    circuit: &Circuit,
    values: &[bool],
) -> Result<Vec<u8>, AllocError>
    requires { length values.now ≤ wires (netlist_of circuit.now) }
    ensures { IfOk result (λ text. text.items ≡ value_lines (defined circuit.now) values.now) }
{
    let mut out = Vec::with_capacity(alloc, values.len().saturating_mul(MAX_VALUE_LINE_BYTES))?;
    print_value_lines(&mut out, circuit.names(), values)?;
    Ok(out)
}
