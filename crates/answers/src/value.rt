//! Evaluates a circuit under an assignment.
ghost use Rattle.std.specs.Prelude.{◌≡◌, ◌≤◌, ◌++◌, ◌∷◌, [], true, None, codes, length, IfOk};
ghost use Rattle.std.specs.Fmt.{decimal};
ghost use Rattle.section_text.specs.Spelling.{line_text};
ghost use Rattle.circuit.specs.Meaning.{wires};
ghost use Rattle.circuit.specs.Entries.{defined};
ghost use Rattle.circuit.specs.Text.{value_lines};
ghost use Rattle.section_text.specs.Section.{ReaderReturnsSection};
ghost use Rattle.circuit.specs.Bridge.{input_names, netlist_of};
ghost use Rattle.answers.specs.ValueText.{IsValueAnswerOf, SaysValues, value_sections_with_limits};
ghost use Rattle.answers.specs.Answers.{AnswersOrRefuses};
ghost use Rattle.section_text.specs.Limits.{limits_line_count};

use crate::asking::read_assign_and_end;
use crate::outcome::{Answered, Outcome};
use crate::refusing::refusal_answer;
use circuit::{Circuit, ValuesFault, port_names, print_all_wire_values, read_circuit_within};
use pattern::which_names_are_on;
use section_text::{Feed, Limits, Name, PortNames, ReadFault};
use std::alloc::{AllocError, Global};

// The names of the inputs.
fn input_name_list(alloc: Global, circuit: &Circuit) -> Result<Vec<Name>, AllocError>
    ensures names { IfOk result (λ names. names.items ≡ input_names circuit.now) }
    ensures count { length (input_names circuit.now) ≡ (netlist_of circuit.now).given }
{
    match port_names(alloc, circuit)? {
        PortNames::Only { ins, outs: _ } => Ok(ins),
        PortNames::Any => unreachable!(),
    }
}

// Reads a circuit, the names that are on, and the end of the text.
fn read_circuit_and_assign(
    alloc: Global,
    feed: &mut Feed,
    limits: Limits,
) -> Result<(Circuit, Vec<Name>), ReadFault>
    requires text_closed { feed.old.closed ≡ true }
    requires front_taken { feed.old.taken ≡ limits_line_count limits }
    requires feed_not_stopped { feed.old.stop ≡ None }
    ensures { ReaderReturnsSection (λ asked. (asked.0, asked.1.items)) result
        (value_sections_with_limits limits feed.old.text) }
{
    let circuit = match read_circuit_within(alloc, feed, limits) {
        Err(fault) => return Err(fault),
        Ok(circuit) => circuit,
    };
    let Ok(ins) = input_name_list(alloc, &circuit) else {
        return Err(ReadFault::Memory);
    };
    match read_assign_and_end(alloc, feed, &ins) {
        Err(fault) => Err(fault),
        Ok(on) => Ok((circuit, on)),
    }
}

// The values of the wires before a gate that has no row, and the gate.
fn values_up_to_gate_text(
    alloc: Global,
    circuit: &Circuit,
    gate: usize,
    before: &[bool],
) -> Result<Vec<u8>, AllocError>
    requires { length before.now ≤ wires (netlist_of circuit.now) }
    ensures { IfOk result (λ text. text.items
        ≡ value_lines (defined circuit.now) before.now
        ++ line_text (codes "undefined") (decimal gate ∷ [])) }
{
    let mut output = print_all_wire_values(alloc, circuit, before)?;
    let line = format!(in alloc; "undefined {gate}\n")?;
    output.extend_from_slice(line.as_bytes())?;
    Ok(output)
}

// Evaluates a circuit with these names on.
fn answer(alloc: Global, circuit: &Circuit, on: &[Name]) -> Result<Answered, AllocError>
    ensures { IfOk result (λ answered. SaysValues (circuit.now, on.now) answered.output.items
        answered.outcome) }
{
    let ins = input_name_list(alloc, circuit)?;
    let bits = which_names_are_on(alloc, &ins, on)?;
    circuit.prove_valid();
    match circuit.values(alloc, &bits) {
        Ok(values) => {
            let output = print_all_wire_values(alloc, circuit, &values)?;
            Ok(Answered {
                outcome: Outcome::Yes,
                output,
            })
        }
        Err(ValuesFault::OutOfDomain { gate, before }) => {
            let output = values_up_to_gate_text(alloc, circuit, gate, &before)?;
            Ok(Answered {
                outcome: Outcome::No,
                output,
            })
        }
        Err(ValuesFault::Memory) => Err(AllocError),
    }
}

// Evaluates the circuit of a text with these limits, of which the lines before the first section were taken, as `value`
// does.
fn value_after_front(alloc: Global, feed: &mut Feed, limits: Limits) -> Result<Answered, AllocError>
    requires text_closed { feed.old.closed ≡ true }
    requires front_taken { feed.old.taken ≡ limits_line_count limits }
    requires feed_not_stopped { feed.old.stop ≡ None }
    ensures { IfOk result (λ answered. AnswersOrRefuses SaysValues
        (value_sections_with_limits limits feed.old.text) answered.output.items answered.outcome) }
{
    match read_circuit_and_assign(alloc, feed, limits) {
        Err(fault) => refusal_answer(alloc, fault),
        Ok((circuit, on)) => answer(alloc, &circuit, &on),
    }
}

/// Evaluates the circuit of a text under its assignment, and answers as `value` does. The text is read whole.
#[tactic(auto, unfolding(crate::specs::ValueText::value_sections_of))]
pub fn value_text(alloc: Global, feed: &mut Feed) -> Result<Answered, AllocError>
    requires text_closed { feed.old.closed ≡ true }
    requires unread { feed.old.taken ≡ 0 }
    requires feed_not_stopped { feed.old.stop ≡ None }
    ensures { IfOk result (λ answered. IsValueAnswerOf feed.old.text answered.output.items
        answered.outcome) }
{
    let limits = feed.take_limits();
    value_after_front(alloc, feed, limits)
}
