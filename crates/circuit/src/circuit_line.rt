//! The lines of a circuit.
//!
//! The kinds of gate (Fredkin and Toffoli 1982), with the order of their wires:
//!
//! - `Source(b)`, `source b -> a`: no input; a is b.
//! - `Fredkin`, `fredkin c x y -> d u v`: d is c. If c is true, u is x and v is y, else u is y and v is x.
//! - `Cswap`, `cswap c x y -> d u v`: d is c. If c is true, u is y and v is x, else u is x and v is y.
//! - `Interact`, `interact p q -> a b c d`: a and d are p and q; b is q without p; c is p without q.
//! - `Switch`, `switch c x -> d y z`: d is c; y is x if c is true, z is x if it is false; the other one is false.
//! - `Delay(n)`, `delay n a -> b`: b is a. The number, 1 to 4096, is the delay in steps.
//! - `Unswitch`, `unswitch c y z -> d x`: undoes `switch`. d is c; x is y if c is true, else z. There is no row if the
//!   other one is true.
//! - `Uninteract`, `uninteract a b c d -> p q`: undoes `interact`. There is no row at inputs that `interact` never
//!   gives.
//!
//! All but sources keep the number of ones. The last two are the inverse gates: they lack a row at some inputs.
ghost use Rattle.std.specs.Prelude.{◌≡◌, ◌≤◌, [], ◌∷◌, if◌then◌else◌};
ghost use Rattle.circuit.specs.Entries.{rank_of, entry};
ghost use Rattle.circuit.specs.Bridge.{is_input};
ghost use Rattle.circuit.specs.Gates.{is_inverse, uses, defines};
ghost use Rattle.circuit.specs.declared.circuit_line.CircuitLineKind.TheVariants.{Gate};
ghost use Rattle.circuit.specs.declared.circuit_line.GateKind.TheVariants.{Source};

use section_text::{Name, Names};

/// The kind of a gate (Fredkin and Toffoli 1982). The head of this file gives the rows.
#[derive(Clone, Copy, Debug, PartialEq, Eq)]
pub enum GateKind {
    Source(bool),
    Fredkin,
    Cswap,
    Interact,
    Switch,
    Delay(u32),
    Unswitch,
    Uninteract,
}

/// The kind of a circuit's line.
#[derive(Clone, Copy, Debug, PartialEq, Eq)]
pub enum CircuitLineKind {
    Input,
    Gate(GateKind),
    Output,
    Spill,
}

/// A line of a circuit: its kind, the wires that it consumes, and the wires that it defines.
#[derive(Drop)]
pub struct CircuitLine {
    pub kind: CircuitLineKind,
    pub ins: Names,
    pub outs: Names,
}

impl GateKind {
    /// Returns how many wires a gate of this kind consumes.
    pub fn ins(self) -> usize
        ensures count { result ≡ uses self }
        ensures at_most_4 { result ≤ 4 }
    {
        match self {
            GateKind::Source(_) => 0,
            GateKind::Fredkin => 3,
            GateKind::Cswap => 3,
            GateKind::Interact => 2,
            GateKind::Switch => 2,
            GateKind::Delay(_) => 1,
            GateKind::Unswitch => 3,
            GateKind::Uninteract => 4,
        }
    }

    /// Returns whether a gate of this kind has no row at some inputs.
    pub fn is_inverse(self) -> bool
        ensures { result ≡ is_inverse self }
    {
        match self {
            GateKind::Unswitch => true,
            GateKind::Uninteract => true,
            _ => false,
        }
    }

    /// Returns how many wires a gate of this kind defines.
    pub fn outs(self) -> usize
        ensures count { result ≡ defines self }
        ensures at_most_4 { result ≤ 4 }
    {
        match self {
            GateKind::Source(_) => 1,
            GateKind::Fredkin => 3,
            GateKind::Cswap => 3,
            GateKind::Interact => 4,
            GateKind::Switch => 3,
            GateKind::Delay(_) => 1,
            GateKind::Unswitch => 2,
            GateKind::Uninteract => 2,
        }
    }
}

impl CircuitLineKind {
    /// Returns the place of the kind in the order of a circuit's lines.
    pub fn rank(self) -> u8
        ensures rank { result ≡ rank_of self }
    {
        match self {
            CircuitLineKind::Input => 0,
            CircuitLineKind::Gate(_) => 1,
            CircuitLineKind::Output => 2,
            CircuitLineKind::Spill => 3,
        }
    }
}

impl CircuitLine {
    /// Creates the line of an input, an output or a spill, which has one name.
    pub fn of_one_name(kind: CircuitLineKind, name: Name) -> CircuitLine
        ensures { result ≡ entry kind (if is_input kind then [] else name ∷ [])
            (if is_input kind then name ∷ [] else []) }
    {
        let mut ins = Names::new();
        let mut outs = Names::new();
        match kind {
            CircuitLineKind::Input => outs.push(name),
            _ => ins.push(name),
        }
        CircuitLine { kind, ins, outs }
    }

    /// Creates the line of a source, which defines a wire.
    pub fn source(bit: bool, name: Name) -> CircuitLine
        ensures { result ≡ entry (Gate (Source bit)) [] (name ∷ []) }
    {
        CircuitLine {
            kind: CircuitLineKind::Gate(GateKind::Source(bit)),
            ins: Names::new(),
            outs: Names::of(&[name]),
        }
    }
}
