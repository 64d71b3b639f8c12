//! Equality of schedules, and of the wires and gates that modules know: by whole content.

ghost use Rattle.std.specs.Prelude.{◌≡◌};
ghost use Rattle.std.specs.Cmp.{on_equiv, partial_equiv_from_equiv};
ghost use Rattle.std.specs.Ordering.{on};
ghost use Rattle.module_box.specs.Equality.{same_gate, gate_equivalence, same_locals, locals_equivalence, same_netlist, netlist_equivalence, same_signals, schedule_equivalence};
ghost use Rattle.module_box.specs.LocalGates.{gate_of_local_gate};

use crate::locals::{LocalGate, Locals};
use crate::schedules::Schedule;
use crate::wiring::Wiring;

impl PartialEq for Schedule {
    ghost eq = { same_signals };

    ghost laws = { partial_equiv_from_equiv schedule_equivalence };

    fn eq(&self, other: &Schedule) -> bool {
        let all_times = self.all_times() == other.all_times();
        let events = self.events() == other.events();
        all_times & events
    }
}

impl Eq for Schedule {
    ghost laws = { schedule_equivalence };
}

impl LocalGate {
    /// Returns the wires that the gate uses.
    pub(crate) fn ins(&self) -> &[u16]
        ensures { result.now ≡ (gate_of_local_gate self.now).ins }
    {
        &self.ins[..self.kind.ins()]
    }
}

impl PartialEq for LocalGate {
    ghost eq = { on gate_of_local_gate same_gate };

    ghost laws = { partial_equiv_from_equiv (on_equiv gate_of_local_gate gate_equivalence) };

    fn eq(&self, other: &LocalGate) -> bool {
        let kind = self.kind == other.kind;
        let ins = self.ins() == other.ins();
        kind & ins & (self.first == other.first)
    }
}

impl PartialEq for Wiring {
    ghost eq = { same_netlist };

    ghost laws = { partial_equiv_from_equiv netlist_equivalence };

    fn eq(&self, other: &Wiring) -> bool {
        let given = self.given == other.given;
        let gates = self.gates == other.gates;
        given & gates
    }
}

impl Eq for Wiring {
    ghost laws = { netlist_equivalence };
}

impl PartialEq for Locals {
    ghost eq = { same_locals };

    ghost laws = { partial_equiv_from_equiv locals_equivalence };

    fn eq(&self, other: &Locals) -> bool {
        let cuts = self.given == other.given;
        let gates = self.gates == other.gates;
        let wires = self.circuit_wires.as_slice() == other.circuit_wires.as_slice();
        let numbers = self.circuit_gates == other.circuit_gates;
        cuts & gates & wires & numbers
    }
}

impl Eq for Locals {
    ghost laws = { locals_equivalence };
}
