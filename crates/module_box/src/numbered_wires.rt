//! Wires of a circuit that are numbered anew.

ghost use Rattle.std.specs.Prelude.{◌≡◌, ◌==◌, ◌<◌, ◌^◌, ◌++◌, ◌∷◌, [], false, true, length, position, slice_get, IfOk, OnErr, OnOk, Some};
ghost use Rattle.module_box.specs.Locals.{is_among};

use std::alloc::{AllocError, Global};
use std::marker::Model;

// The count of entries of the table. The wires of a module mostly have near numbers, so few have one entry.
const ENTRY_COUNT: usize = 256;

/// Different wires of a circuit, numbered from 0 in the order in which they were added.
///
/// To look a wire's new number up reads a table. Only if the wire shares its entry with a later one, it is compared
/// with each of the wires.
#[derive(Debug, Drop)]
pub(crate) struct NumberedWires {
    wires: Vec<u16>,
    // By the last bits of a wire's number in the circuit, the new number of the wire that was added last of those with
    // these bits.
    numbers: [u16; ENTRY_COUNT],
}

impl Model for NumberedWires {
    ghost use Rattle.std.specs.Prelude.{List, ℕ};

    ghost Value = { List ℕ };

    ghost use Rattle.module_box.specs.NumberedWiresView.{wires_in_order, AreWiresNumbered};

    ghost view = { wires_in_order };

    ghost invariant = { AreWiresNumbered };
}

// The first place of a wire in a list.
fn place_in(wires: &[u16], wire: u16) -> Option<usize>
    ensures { result ≡ position (λ w. w == wire) wires.now }
{
    wires.iter().position(|w| *w == wire)
}

// Whether the wire stands at this place of a list.
fn is_this_wire_at(wires: &[u16], place: u16, wire: u16) -> bool
    ensures { result ≡ true → slice_get wires.now place ≡ Some wire }
{
    match wires.get(place as usize) {
        Some(found) => *found == wire,
        None => false,
    }
}

impl NumberedWires {
    /// Creates a list without wires, with room for `room` wires.
    pub(crate) fn with_capacity(alloc: Global, room: usize) -> Result<NumberedWires, AllocError>
        ensures { IfOk result (λ wires. wires ≡ []) }
    {
        let wires = Vec::with_capacity(alloc, room)?;
        Ok(NumberedWires {
            wires,
            numbers: [0; ENTRY_COUNT],
        })
    }

    /// Returns how many wires there are.
    pub(crate) fn len(&self) -> usize
        ensures { result ≡ length self.now }
    {
        self.wires.len()
    }

    /// Returns the wires in their order, by their numbers in the circuit.
    pub(crate) fn as_slice(&self) -> &[u16]
        ensures { result.now ≡ self.now }
    {
        self.wires.as_slice()
    }

    /// Returns the new number of a wire, if it is one of these.
    pub(crate) fn number(&self, wire: u16) -> Option<u16>
        ensures { result ≡ position (λ w. w == wire) self.now }
    {
        let number = self.numbers[wire as usize % ENTRY_COUNT];
        if is_this_wire_at(&self.wires, number, wire) {
            return Some(number);
        }
        match place_in(&self.wires, wire) {
            Some(place) => Some(place as u16),
            None => None,
        }
    }

    /// Adds a wire that is not one of these yet. It gets the next number.
    #[tactic(auto, using(crate::proofs::Imports::length_push, crate::proofs::WireLists::different_push))]
    pub(crate) fn push(&mut self, wire: u16) -> Result<(), AllocError>
        requires wire_is_new { is_among self.old wire ≡ false }
        requires count_below_65536 { length self.old < 2 ^ 16 }
        ensures added { OnOk result (self.new ≡ self.old ++ wire ∷ []) }
        ensures unchanged_on_error { OnErr result (self.new ≡ self.old) }
    {
        let number = self.wires.len() as u16;
        self.wires.push(wire)?;
        self.numbers[wire as usize % ENTRY_COUNT] = number;
        Ok(())
    }

    /// Returns the wires in their order, without the table.
    pub(crate) fn into_wires(self) -> Vec<u16>
        ensures { result.items ≡ self }
    {
        let NumberedWires { wires, numbers: _ } = self;
        wires
    }
}
