//! Gates by the numbers of their wires, and the values of wires, gate after gate.
ghost use Rattle.std.specs.Prelude.{◌≡◌, ◌≤◌, ◌++◌, Bool, List, Some, None, Ok, true, false, map, length, take, option_map, OnOk, OnErr, IfErr, IfOk};
ghost use Rattle.std.specs.List.{range_with_len};
ghost use Rattle.circuit.specs.Gates.{row, uses};
ghost use Rattle.circuit.specs.Bridge.{as_values};
ghost use Rattle.circuit.specs.Evaluate.{evaluate, IsGateEvaluationError};
ghost use Rattle.circuit.specs.Wiring.{gate_of, gate_with_outs_from};
ghost use Rattle.lemmas.specs.Bounds.{max_wires};

use crate::circuit_line::{CircuitLineKind, GateKind};
use crate::netlist::ValuesFault;
use crate::number::WireNo;
use std::alloc::{AllocError, Global};

/// A gate of a circuit: its kind, and the numbers of its wires. Contracts see it by `gate_of`.
#[derive(Clone, Copy)]
pub struct GateWires {
    kind: GateKind,
    ins: [WireNo; 4],
    outs: [WireNo; 4],
}

impl GateWires {
    /// Returns the kind of the gate.
    pub fn kind(&self) -> GateKind
        ensures kind { result ≡ self.now.kind }
        ensures same_kind { result ≡ (gate_of self.now).kind }
    {
        self.kind
    }

    /// Returns the wires that the gate uses, in the order of its line.
    pub fn ins(&self) -> &[WireNo]
        ensures { result.now ≡ (gate_of self.now).ins }
    {
        &self.ins[..self.kind.ins()]
    }

    /// Returns the wires that the gate defines, in the order of its line.
    pub fn outs(&self) -> &[WireNo]
        ensures { result.now ≡ (gate_of self.now).outs }
    {
        &self.outs[..self.kind.outs()]
    }
}

// Four wires, from this one on.
fn four_wires_from(first: u16) -> [WireNo; 4]
    requires { first ≤ max_wires }
    ensures { result ≡ range_with_len first 4 }
{
    [
        WireNo::of(first),
        WireNo::of(first + 1),
        WireNo::of(first + 2),
        WireNo::of(first + 3),
    ]
}

/// Adds the gate of a line, if it is a gate's line. The wires that it defines are numbered from `first` on. An error
/// changes nothing.
pub(crate) fn push_gate_of_line(
    gates: &mut Vec<GateWires>,
    kind: CircuitLineKind,
    ins: [WireNo; 4],
    first: u16,
) -> Result<(), AllocError>
    requires { first ≤ max_wires }
    ensures ok { OnOk result (map gate_of gates.new.items
        ≡ map gate_of gates.old.items ++ gate_with_outs_from kind ins first) }
    ensures earlier_gates_stay { OnOk result (take (length gates.old.items) gates.new.items
        ≡ gates.old.items) }
    ensures err { OnErr result (gates.new.items ≡ gates.old.items) }
{
    match kind {
        CircuitLineKind::Gate(kind) => {
            let outs = four_wires_from(first);
            gates.push(GateWires { kind, ins, outs })?;
            Ok(())
        }
        _ => Ok(()),
    }
}

fn value_at(values: &[bool], wire: WireNo) -> bool
    ensures { result ≡ as_values values.now wire }
{
    values.get(wire.number() as usize).copied().unwrap_or(false)
}

/// Adds the values of the wires that the gate defines. `false`: it has no row.
#[tactic(auto, unfolding(crate::specs::Gates::row))]
fn push_out_values(values: &mut Vec<bool>, gate: GateWires) -> Result<bool, AllocError>
    ensures found { result ≡ Ok true →
        option_map (λ (r : List Bool). values.old.items ++ r)
        (row gate.kind
        (map (as_values values.old.items) (take (uses gate.kind) gate.ins)))
        ≡ Some values.new.items }
    ensures no_row { result ≡ Ok false →
        row gate.kind
        (map (as_values values.old.items) (take (uses gate.kind) gate.ins)) ≡ None }
    ensures values_unchanged { result ≡ Ok false → values.new.items ≡ values.old.items }
{
    let [x, y, z, w] = gate.ins;
    let a = value_at(values.as_slice(), x);
    let b = value_at(values.as_slice(), y);
    let c = value_at(values.as_slice(), z);
    let d = value_at(values.as_slice(), w);
    match gate.kind {
        GateKind::Source(bit) => values.extend_from_slice(&[bit])?,
        GateKind::Fredkin => {
            let (u, v) = if a { (b, c) } else { (c, b) };
            values.extend_from_slice(&[a, u, v])?
        }
        GateKind::Cswap => {
            let (u, v) = if a { (c, b) } else { (b, c) };
            values.extend_from_slice(&[a, u, v])?
        }
        GateKind::Interact => values.extend_from_slice(&[a & b, !a & b, a & !b, a & b])?,
        GateKind::Switch => values.extend_from_slice(&[a, a & b, !a & b])?,
        GateKind::Delay(_) => values.extend_from_slice(&[a])?,
        GateKind::Unswitch => {
            if (a & c) | (!a & b) {
                return Ok(false);
            }
            values.extend_from_slice(&[a, b | c])?
        }
        GateKind::Uninteract => match (a, b, c, d) {
            (false, false, false, false) => values.extend_from_slice(&[false, false])?,
            (false, true, false, false) => values.extend_from_slice(&[false, true])?,
            (false, false, true, false) => values.extend_from_slice(&[true, false])?,
            (true, false, false, true) => values.extend_from_slice(&[true, true])?,
            _ => return Ok(false),
        },
    }
    Ok(true)
}

/// Returns the values of all wires, those that are given first.
///
/// If a gate has no row, it returns those of the wires that are defined before it.
#[tactic(auto, using(crate::proofs::Loops::none_done, crate::proofs::Loops::values_more, crate::proofs::Loops::values_stop))]
pub(crate) fn values_of(
    alloc: Global,
    given: &[bool],
    gates: &[GateWires],
) -> Result<Vec<bool>, ValuesFault>
    ensures values { IfOk result (λ vs. evaluate given.now (map gate_of gates.now)
        ≡ Some vs.items) }
    ensures fault { IfErr result (λ e. IsGateEvaluationError given.now (map gate_of gates.now) e) }
{
    let mut values = given.to_vec(alloc)?;
    for (number, gate) in gates.iter().enumerate() {
        if !push_out_values(&mut values, *gate)? {
            return Err(ValuesFault::OutOfDomain {
                gate: number,
                before: values,
            });
        }
    }
    Ok(values)
}
