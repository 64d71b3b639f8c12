//! The gates that a module uses, over its own wires.

use crate::locals::LocalGate;
use std::marker::Model;

/// A list of wires that are numbered from 0, and of gates over them. Contracts see it as a `Netlist`.
///
/// The first wires are given. Each gate uses wires that are given or that a gate before it defines, and defines the
/// next ones. A wiring does not know the circuit that its wires come from.
#[derive(Debug, Drop)]
pub struct Wiring {
    pub(crate) given: usize,
    pub(crate) gates: Vec<LocalGate>,
    pub(crate) wires: usize,
}

impl Model for Wiring {
    ghost use Rattle.circuit.specs.Meaning.{Netlist};

    ghost Value = { Netlist };

    ghost use Rattle.module_box.specs.WiringView.{wiring_net, IsWiring};

    ghost view = { wiring_net };

    ghost invariant = { IsWiring };
}
