//! A circuit that is printed and asked for its gates and ports, and a draft that is finished too early. The expected
//! results were worked out by hand from the format.

use circuit::*;
use section_text::{LineFault, Name, PortNames};
use std::alloc::Global;
use std::process::Abort;
use test_support::circuit_of;

/// A line of each kind.
const KINDS: &str = "circuit
input end
input p
source 1 -> input
source 0 -> z
delay 4096 z -> y
switch input end -> c d e
interact p c -> f g h i
fredkin d e f -> j k l
cswap g h i -> m n o
output j
output y
output k
output l
output m
spill n
spill o
end
";

/// Returns whether these are the wires of gate 3, which is the switch.
fn is_gate_3_the_switch(circuit: &Circuit) -> bool {
    if circuit.gates() <= 3 {
        return false;
    }
    let gate = circuit.gate(GateNo::of(3));
    gate.ins() == [WireNo::of(2), WireNo::of(0)].as_slice()
        && gate.outs() == [WireNo::of(5), WireNo::of(6), WireNo::of(7)].as_slice()
}

fn are_names_equal_to(names: &[Name], words: &[&str]) -> bool {
    for (name, word) in names.iter().zip(words) {
        if name.bytes() != word.as_bytes() {
            return false;
        }
    }
    names.len() == words.len()
}

fn are_ports_of_kinds_circuit(ports: &PortNames) -> bool {
    match ports {
        PortNames::Only { ins, outs } => {
            are_names_equal_to(ins, &["end", "p"])
                && are_names_equal_to(outs, &["j", "y", "k", "l", "m"])
        }
        PortNames::Any => false,
    }
}

#[test]
fn all_gate_kinds_are_reprinted(rt: HostRuntime) {
    let circuit = circuit_of(rt.alloc(), KINDS).expect(&rt, "a circuit");
    let printed = print_circuit(rt.alloc(), &circuit).expect(&rt, "a text");
    assert!(rt; printed.as_slice() == KINDS.as_bytes() && is_gate_3_the_switch(&circuit));
    assert!(rt; are_ports_of_kinds_circuit(&port_names(rt.alloc(), &circuit).expect(&rt, "names")));
}

fn name(rt: &impl Abort, word: &[u8]) -> Name {
    Name::of(word).expect(rt, "a name")
}

/// Returns an input, a source, and an output of the input.
fn draft_of_three_lines(rt: &impl Abort, alloc: Global) -> Draft {
    let (p, q) = (name(rt, b"p"), name(rt, b"q"));
    let mut draft = Draft::new(alloc);
    assert!(rt; draft.add_input(p).is_ok());
    assert!(rt; draft.add_source(true, q).is_ok());
    assert!(rt; draft.add_output(p).is_ok());
    draft
}

/// Returns whether a draft is finished with a wire that is spilled.
fn is_finished_after_spill(mut draft: Draft, wire: Name) -> bool {
    draft.add_spill(wire).is_ok() && draft.finish().is_ok()
}

#[test]
fn unused_wire_is_named(rt: HostRuntime) {
    let unused = draft_of_three_lines(&rt, rt.alloc()).finish().err();
    let Unused { draft, wire } = unused.expect(&rt, "an unused wire");
    assert!(rt; wire.bytes() == b"q".as_slice() && is_finished_after_spill(draft, wire));
}

/// A line that is added to a draft, with its names: those that it consumes, and those that it defines.
#[derive(Clone, Copy)]
enum AddedLine {
    Input(&'static str),
    Source(&'static str),
    Interact(
        (&'static str, &'static str),
        (&'static str, &'static str, &'static str, &'static str),
    ),
    Output(&'static str),
    Spill(&'static str),
}

/// The lines of `ADDED`, as a text.
const ADDED_TEXT: &str =
    "circuit\ninput p\ninput q\nsource 1 -> s\ninteract p q -> a b c d\ninteract a s -> e f g h\noutput b\noutput c\noutput d\noutput e\nspill f\nspill g\nspill h\nend\n";

const ADDED: [AddedLine; 12] = [
    AddedLine::Input("p"),
    AddedLine::Input("q"),
    AddedLine::Source("s"),
    AddedLine::Interact(("p", "q"), ("a", "b", "c", "d")),
    AddedLine::Interact(("a", "s"), ("e", "f", "g", "h")),
    AddedLine::Output("b"),
    AddedLine::Output("c"),
    AddedLine::Output("d"),
    AddedLine::Output("e"),
    AddedLine::Spill("f"),
    AddedLine::Spill("g"),
    AddedLine::Spill("h"),
];

/// Adds a line once.
fn add_line_once(rt: &impl Abort, draft: &mut Draft, line: AddedLine) -> Result<(), LineFault> {
    match line {
        AddedLine::Input(word) => {
            assert!(rt; draft.may_add_inputs());
            draft.add_input(name(rt, word.as_bytes()))
        }
        AddedLine::Source(word) => draft.add_source(true, name(rt, word.as_bytes())),
        AddedLine::Interact((p, q), (a, b, c, d)) => {
            let ins = [p, q].map(|word| name(rt, word.as_bytes()));
            let outs = [a, b, c, d].map(|word| name(rt, word.as_bytes()));
            draft.add_gate(GateKind::Interact, &ins, &outs)
        }
        AddedLine::Output(word) => draft.add_output(name(rt, word.as_bytes())),
        AddedLine::Spill(word) => draft.add_spill(name(rt, word.as_bytes())),
    }
}

/// Adds a line: at the second time, if no memory was found at the first.
fn add(rt: &impl Abort, draft: &mut Draft, line: AddedLine) {
    if let Err(fault) = add_line_once(rt, draft, line) {
        assert!(rt; fault == LineFault::Memory, "refused");
        assert!(rt;
            add_line_once(rt, draft, line).is_ok(),
            "not added at the second try"
        );
    }
}

/// Returns whether the draft is the circuit of `ADDED_TEXT`.
///
/// It is printed a second time, if no memory was found for the first.
fn is_circuit_of_added_text(rt: &impl Abort, alloc: Global, draft: Draft) -> bool {
    let Ok(circuit) = draft.finish() else {
        return false;
    };
    let printed = match print_circuit(alloc, &circuit) {
        Ok(printed) => Ok(printed),
        Err(_) => print_circuit(alloc, &circuit),
    };
    printed.expect(rt, "a text").as_slice() == ADDED_TEXT.as_bytes()
}

/// Adds lines. It is made to be run with each growth of memory refused in turn.
#[test]
fn lines_added_at_the_second_try(rt: HostRuntime) {
    let mut draft = Draft::new(rt.alloc());
    for line in ADDED {
        add(&rt, &mut draft, line);
    }
    assert!(rt; is_circuit_of_added_text(&rt, rt.alloc(), draft));
}
