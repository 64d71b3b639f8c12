//! The cells of a box: their signals at time 0, and the demands on them at the last time.
ghost use Rattle.std.specs.Prelude.{ℕ, ◌≡◌, ◌↔◌, true, ◌^◌, ◌<◌, ◌≤◌, ◌++◌, [], ◌∷◌, IfOk, OnOk, replicate, slice_get, unwrap_or};
ghost use Rattle.std.specs.Cmp.{partial_equiv_from_equiv};
ghost use Rattle.std.specs.Cmp.Lexicographic.{lists_equiv, pointwise};
ghost use Rattle.module_box.specs.Equality.{same_signal, signal_equivalence};
ghost use Rattle.module_job.specs.Equality.{demand_equivalence, same_demand};
ghost use Rattle.module_job.specs.Keys.{sparse_list_numbers, demand_number, signal_number};

use crate::job::Demand;
use crate::keys::{demand_number, signal_number};
use crate::sparse_numbers::SparseNumbers;
use module_box::Signal;
use std::alloc::{AllocError, Global};
use std::marker::Model;

/// A list of what the cells of a box carry at time 0, row by row. Contracts see the signals.
///
/// A dead cell takes no memory but a bit.
#[derive(Drop)]
pub struct StartSignals {
    numbers: SparseNumbers,
}

impl Model for StartSignals {
    ghost use Rattle.std.specs.Prelude.{List};
    ghost use Rattle.module_box.specs.declared.schedules.Signal.{Signal};

    ghost Value = { List Signal };

    ghost use Rattle.module_job.specs.CellLists.{AreSignalWires16Bit, starts_view};

    ghost view = { starts_view };

    ghost invariant = { AreSignalWires16Bit };
}

/// A list of what the cells of a box must be at the last time, row by row. Contracts see the demands.
///
/// A cell that must be dead takes no memory but a bit.
#[derive(Drop)]
pub struct EndDemands {
    numbers: SparseNumbers,
}

impl Model for EndDemands {
    ghost use Rattle.std.specs.Prelude.{List};
    ghost use Rattle.module_job.specs.declared.job.Demand.{Demand};

    ghost Value = { List Demand };

    ghost use Rattle.module_job.specs.CellLists.{AreDemandWires16Bit, demands_view};

    ghost view = { demands_view };

    ghost invariant = { AreDemandWires16Bit };
}

impl StartSignals {
    ghost use Rattle.module_job.specs.CellLists.{signal_from_number};

    // The signal of a number.
    fn decode_number(number: u64) -> Signal
        requires { number < 65538 }
        ensures { result ≡ signal_from_number number }
    {
        match number {
            0 => Signal::Zero,
            1 => Signal::One,
            _ => Signal::Wire((number - 2) as u16),
        }
    }

    /// Creates an empty list, with bits for the first cells.
    pub fn new(alloc: Global, room: usize) -> Result<StartSignals, AllocError>
        ensures { IfOk result (λ starts. starts ≡ []) }
    {
        Ok(StartSignals {
            numbers: SparseNumbers::new(alloc, room)?,
        })
    }

    /// Adds what one more cell carries.
    pub fn push(&mut self, start: Signal) -> Result<(), AllocError>
        ensures { OnOk result (self.new ≡ self.old ++ start ∷ []) }
    {
        self.numbers.push(signal_number(start))?;
        Ok(())
    }

    /// Adds cells that are dead.
    #[tactic(auto, using(crate::proofs::NumberedCells::dead_pushed))]
    pub fn push_dead(&mut self, count: usize) -> Result<(), AllocError>
        ensures { OnOk result (self.new ≡ self.old ++ replicate count Signal.Zero) }
    {
        self.numbers.push_zeros(count)?;
        Ok(())
    }

    /// Returns what the cell at a place carries, or `Zero` behind the last one.
    pub(crate) fn at(&self, place: usize) -> Signal
        ensures { result ≡ unwrap_or (slice_get self.now place) Signal.Zero }
    {
        StartSignals::decode_number(self.numbers.at(place))
    }

    /// Returns what `at` does. The cell is not sought if exactly `near` cells before it carry something else than
    /// `Zero`.
    #[inline(always)]
    pub(crate) fn at_near(&self, place: usize, near: usize) -> Signal
        ensures { result ≡ unwrap_or (slice_get self.now place) Signal.Zero }
    {
        StartSignals::decode_number(self.numbers.at_near(place, near))
    }

    /// Returns a place from `place` to `end`, such that all cells from `place` to before it carry `Zero`.
    pub(crate) fn skip_dead(&self, place: usize, end: usize) -> usize
        requires { (place ≤ end) × (end < 2 ^ 32) }
        ensures range { (place ≤ result) × (result ≤ end) }
        ensures passed_dead { (u : ℕ) → place ≤ u → u < result →
            unwrap_or (slice_get self.now u) Signal.Zero ≡ Signal.Zero }
    {
        self.numbers.skip_zeros(place, end)
    }

    /// Adds how many cells there are, the entries of what they carry, and a 0.
    #[tactic(auto, using(crate::proofs::NumberedCells::start_numbers))]
    pub(crate) fn push_numbers(&self, numbers: &mut Vec<u64>) -> Result<(), AllocError>
        ensures { OnOk result (numbers.new.items
            ≡ numbers.old.items ++ sparse_list_numbers signal_number self.now) }
    {
        self.numbers.push_entries(numbers)?;
        Ok(())
    }
}

impl PartialEq for StartSignals {
    ghost eq = { pointwise same_signal };

    ghost laws = { partial_equiv_from_equiv (lists_equiv signal_equivalence) };

    fn eq(&self, other: &StartSignals) -> bool {
        self.numbers == other.numbers
    }
}

impl EndDemands {
    ghost use Rattle.module_job.specs.CellLists.{demand_from_number};

    // The demand of a number.
    fn decode_number(number: u64) -> Demand
        requires { number < 65539 }
        ensures { result ≡ demand_from_number number }
    {
        match number {
            0 => Demand::Dead,
            1 => Demand::Live,
            2 => Demand::Any,
            _ => Demand::Wire((number - 3) as u16),
        }
    }

    /// Creates an empty list, with bits for the first cells.
    pub fn new(alloc: Global, room: usize) -> Result<EndDemands, AllocError>
        ensures { IfOk result (λ demands. demands ≡ []) }
    {
        Ok(EndDemands {
            numbers: SparseNumbers::new(alloc, room)?,
        })
    }

    /// Adds what one more cell must be.
    pub fn push(&mut self, demand: Demand) -> Result<(), AllocError>
        ensures { OnOk result (self.new ≡ self.old ++ demand ∷ []) }
    {
        self.numbers.push(demand_number(demand))?;
        Ok(())
    }

    /// Adds cells that must be dead.
    #[tactic(auto, using(crate::proofs::NumberedCells::dead_demands_pushed))]
    pub fn push_dead(&mut self, count: usize) -> Result<(), AllocError>
        ensures { OnOk result (self.new ≡ self.old ++ replicate count Demand.Dead) }
    {
        self.numbers.push_zeros(count)?;
        Ok(())
    }

    /// Returns what the cell at a place must be, or `Dead` behind the last one.
    pub(crate) fn at(&self, place: usize) -> Demand
        ensures { result ≡ unwrap_or (slice_get self.now place) Demand.Dead }
    {
        EndDemands::decode_number(self.numbers.at(place))
    }

    /// Returns what `at` does. The cell is not sought if exactly `near` cells before it must be something else than
    /// `Dead`.
    #[inline(always)]
    pub(crate) fn at_near(&self, place: usize, near: usize) -> Demand
        ensures { result ≡ unwrap_or (slice_get self.now place) Demand.Dead }
    {
        EndDemands::decode_number(self.numbers.at_near(place, near))
    }

    /// Returns whether the cell at a place must be dead, or the place is behind the last one.
    #[inline(always)]
    pub(crate) fn is_dead(&self, place: usize) -> bool
        ensures { (result ≡ true) ↔
            (unwrap_or (slice_get self.now place) Demand.Dead ≡ Demand.Dead) }
    {
        self.numbers.is_zero(place)
    }

    /// Returns a place from `place` to `end`, such that all cells from `place` to before it must be dead.
    pub(crate) fn skip_dead(&self, place: usize, end: usize) -> usize
        requires { (place ≤ end) × (end < 2 ^ 32) }
        ensures range { (place ≤ result) × (result ≤ end) }
        ensures passed_dead { (u : ℕ) → place ≤ u → u < result →
            unwrap_or (slice_get self.now u) Demand.Dead ≡ Demand.Dead }
    {
        self.numbers.skip_zeros(place, end)
    }

    /// Adds how many cells there are, the entries of what they must be, and a 0.
    #[tactic(auto, using(crate::proofs::NumberedCells::demand_numbers))]
    pub(crate) fn push_numbers(&self, numbers: &mut Vec<u64>) -> Result<(), AllocError>
        ensures { OnOk result (numbers.new.items
            ≡ numbers.old.items ++ sparse_list_numbers demand_number self.now) }
    {
        self.numbers.push_entries(numbers)?;
        Ok(())
    }
}

impl PartialEq for EndDemands {
    ghost eq = { pointwise same_demand };

    ghost laws = { partial_equiv_from_equiv (lists_equiv demand_equivalence) };

    fn eq(&self, other: &EndDemands) -> bool {
        self.numbers == other.numbers
    }
}
