//! The numbers of wires and gates.
ghost use Rattle.std.specs.Prelude.{◌≡◌};

use std::marker::Model;

/// The number of a wire. Contracts see the number.
///
/// The wires of a circuit are numbered from 0 in order of definition.
#[derive(Clone, Copy, Debug, PartialEq, Eq)]
pub struct WireNo {
    number: u16,
}

impl Model for WireNo {
    ghost use Rattle.std.specs.Prelude.{ℕ};

    ghost Value = { ℕ };

    ghost view = { λ a. a.number };

    ghost inverse = { λ n. record { number = n } };
}

impl WireNo {
    /// Returns the wire of this number.
    pub fn of(number: u16) -> WireNo
        ensures { result ≡ number }
    {
        WireNo { number }
    }

    /// Returns the number.
    pub fn number(self) -> u16
        ensures { result ≡ self }
    {
        self.number
    }
}

/// The number of a gate. Contracts see the number.
///
/// The gates of a circuit, sources among them, are numbered from 0 in the order of their lines.
#[derive(Clone, Copy, Debug, PartialEq, Eq)]
pub struct GateNo {
    number: u16,
}

impl Model for GateNo {
    ghost use Rattle.std.specs.Prelude.{ℕ};

    ghost Value = { ℕ };

    ghost view = { λ a. a.number };

    ghost inverse = { λ n. record { number = n } };
}

impl GateNo {
    /// Returns the gate of this number.
    pub fn of(number: u16) -> GateNo
        ensures { result ≡ number }
    {
        GateNo { number }
    }

    /// Returns the number.
    pub fn number(self) -> u16
        ensures { result ≡ self }
    {
        self.number
    }
}
