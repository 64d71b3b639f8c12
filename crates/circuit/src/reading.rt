//! The reader of the circuit section.
ghost use Rattle.std.specs.Prelude.{◌≡◌, ◌==◌, true, if◌then◌else◌};
ghost use Rattle.section_text.specs.Section.{Reads};
ghost use Rattle.circuit.specs.Rules.{last_rank, gate_count};
ghost use Rattle.section_text.specs.declared.limits.Limits.TheVariants.{First};
ghost use Rattle.circuit.specs.Grammars.{circuit_grammar, circuit_section};

use crate::circuit_line::CircuitLine;
use crate::draft::Draft;
use crate::form::line_form;
use crate::netlist::Circuit;
use section_text::{
    Feed, Form, Limits, Line, LineFault, ReadFault, RefusalCode, Section, read_section,
};
use std::alloc::Global;

// A circuit that is read: the lines so far, and the rank of the last one.
#[derive(Drop)]
struct Reading {
    draft: Draft,
    rank: u8,
    ghost ranked: { rank ≡ last_rank draft.lines },
    ghost no_gate: { (if rank == 0 then gate_count draft.lines else 0) ≡ 0 },
}

impl Section for Reading {
    type Header = ();

    type Item = CircuitLine;

    ghost grammar = { λ r. circuit_grammar r.draft.limits };

    ghost header = { λ _. tt };

    ghost items = { λ r. r.draft.lines };

    fn form(&self, feed: &Feed, line: &Line) -> Option<Form<(), CircuitLine>> {
        line_form(feed, line)
    }

    fn begin(&mut self, _head: ()) -> Result<(), LineFault> {
        Ok(())
    }

    fn add(&mut self, entry: CircuitLine) -> Result<(), LineFault> {
        let next = entry.kind.rank();
        if next < self.rank {
            return Err(LineFault::Code(RefusalCode::OutOfOrder));
        }
        match self.draft.add(entry) {
            Ok(()) => {
                self.rank = next;
                Ok(())
            }
            Err(fault) => Err(fault),
        }
    }

    fn missing(&self) -> Option<RefusalCode> {
        match self.draft.first_unconsumed_name() {
            Some(_) => Some(RefusalCode::SomethingMissing),
            None => None,
        }
    }
}

/// Reads a circuit section, of at most 4096 wires and 1024 gates.
pub fn read_circuit(alloc: Global, feed: &mut Feed) -> Result<Circuit, ReadFault>
    requires { feed.old.closed ≡ true }
    ensures { Reads (circuit_grammar First) circuit_section feed.old feed.new result }
{
    read_circuit_within(alloc, feed, Limits::First)
}

/// Reads a circuit section of a text with these limits.
pub fn read_circuit_within(
    alloc: Global,
    feed: &mut Feed,
    limits: Limits,
) -> Result<Circuit, ReadFault>
    requires { feed.old.closed ≡ true }
    ensures { Reads (circuit_grammar limits) circuit_section feed.old feed.new result }
{
    let mut reading = Reading {
        draft: Draft::seeded(alloc, limits, feed.seed()),
        rank: 0,
    };
    match read_section(feed, &mut reading) {
        Err(fault) => Err(fault),
        Ok(()) => {
            let Reading { draft, rank: _ } = reading;
            match draft.finish() {
                Ok(circuit) => Ok(circuit),
                Err(_) => unreachable!(),
            }
        }
    }
}
