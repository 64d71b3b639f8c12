//! The numbers of shapes, which differ for different shapes, and their keys.
ghost use Rattle.std.specs.Prelude.{◌≡◌, ◌^◌, ◌<◌, ◌++◌, [], ◌∷◌, length, IfOk, OnOk};
ghost use Rattle.std.specs.List.{All, flat_map};
ghost use Rattle.module_job.specs.Keys.{cell_numbers, sparse_list_numbers, demand_number, event_numbers, all_times_numbers, zigzag_number, compact_number_bytes, shape_digest, shape_numbers, signal_number, signals_numbers, stop_numbers};

use crate::job::{Demand, Stop};
use crate::shape::Shape;
use bbm_rule::Cell;
use module_box::{AllTimesSignal, Schedule, Signal, TimedSignal};
use sha2::{Digest, Sha256};
use std::alloc::{AllocError, Global};

/// Returns the number of a signal.
pub(crate) fn signal_number(signal: Signal) -> u64
    ensures number_is_exact { result ≡ signal_number signal }
    ensures below_65538 { result < 65538 }
{
    match signal {
        Signal::Zero => 0,
        Signal::One => 1,
        Signal::Wire(wire) => wire as u64 + 2,
    }
}

/// Returns the number of a demand.
pub(crate) fn demand_number(demand: Demand) -> u64
    ensures number_is_exact { result ≡ demand_number demand }
    ensures below_65539 { result < 65539 }
{
    match demand {
        Demand::Dead => 0,
        Demand::Live => 1,
        Demand::Any => 2,
        Demand::Wire(wire) => wire as u64 + 3,
    }
}

/// Returns the number of an integer: 0 for 0, 1 for -1, 2 for 1, 3 for -2 and so on.
pub(crate) fn zigzag_number(integer: i32) -> u64
    ensures { result ≡ zigzag_number integer }
{
    let size = integer.unsigned_abs() as u64;
    if integer < 0 {
        return 2 * size - 1;
    }
    2 * size
}

fn push_cell(numbers: &mut Vec<u64>, cell: Cell) -> Result<(), AllocError>
    ensures { OnOk result (numbers.new.items ≡ numbers.old.items ++ cell_numbers cell) }
{
    numbers.push(zigzag_number(cell.x))?;
    numbers.push(zigzag_number(cell.y))?;
    Ok(())
}

fn push_all_times(numbers: &mut Vec<u64>, all_times: AllTimesSignal) -> Result<(), AllocError>
    ensures { OnOk result (numbers.new.items ≡ numbers.old.items ++ all_times_numbers all_times) }
{
    push_cell(numbers, all_times.cell)?;
    numbers.push(signal_number(all_times.signal))?;
    Ok(())
}

fn push_event(numbers: &mut Vec<u64>, event: TimedSignal) -> Result<(), AllocError>
    ensures { OnOk result (numbers.new.items ≡ numbers.old.items ++ event_numbers event) }
{
    numbers.push(event.at.time as u64)?;
    push_cell(numbers, event.at.cell)?;
    numbers.push(signal_number(event.signal))?;
    Ok(())
}

fn push_stop(numbers: &mut Vec<u64>, stop: Stop) -> Result<(), AllocError>
    ensures { OnOk result (numbers.new.items ≡ numbers.old.items ++ stop_numbers stop) }
{
    numbers.push(stop.at.time as u64)?;
    push_cell(numbers, stop.at.cell)?;
    numbers.push(stop.wire as u64)?;
    Ok(())
}

fn push_all_times_list(
    numbers: &mut Vec<u64>,
    all_times_list: &[AllTimesSignal],
) -> Result<(), AllocError>
    ensures { OnOk result (numbers.new.items
        ≡ numbers.old.items ++ flat_map all_times_numbers all_times_list.now) }
{
    for all_times in all_times_list {
        push_all_times(numbers, *all_times)?;
    }
    Ok(())
}

fn push_events(numbers: &mut Vec<u64>, events: &[TimedSignal]) -> Result<(), AllocError>
    ensures { OnOk result (numbers.new.items
        ≡ numbers.old.items ++ flat_map event_numbers events.now) }
{
    for event in events {
        push_event(numbers, *event)?;
    }
    Ok(())
}

fn push_stops(numbers: &mut Vec<u64>, stops: &[Stop]) -> Result<(), AllocError>
    ensures { OnOk result (numbers.new.items
        ≡ numbers.old.items ++ flat_map stop_numbers stops.now) }
{
    for stop in stops {
        push_stop(numbers, *stop)?;
    }
    Ok(())
}

// Adds how many gates are kept, and then their places.
fn push_kept_places(numbers: &mut Vec<u64>, kept: &[u16]) -> Result<(), AllocError>
    ensures { OnOk result (numbers.new.items ≡ numbers.old.items ++ length kept.now ∷ kept.now) }
{
    numbers.push(kept.len() as u64)?;
    for place in kept {
        numbers.push(*place as u64)?;
    }
    Ok(())
}

fn push_schedule(numbers: &mut Vec<u64>, schedule: &Schedule) -> Result<(), AllocError>
    ensures { OnOk result (numbers.new.items ≡ numbers.old.items ++ signals_numbers schedule.now) }
{
    numbers.push(schedule.all_times().len() as u64)?;
    push_all_times_list(numbers, schedule.all_times())?;
    numbers.push(schedule.events().len() as u64)?;
    push_events(numbers, schedule.events())
}

fn push_sides_steps_and_cells(numbers: &mut Vec<u64>, shape: &Shape) -> Result<(), AllocError>
    ensures { OnOk result (numbers.new.items
        ≡ numbers.old.items ++ (shape.now.width ∷ shape.now.height ∷ shape.now.steps ∷ [])
        ++ sparse_list_numbers signal_number shape.now.starts
        ++ sparse_list_numbers demand_number shape.now.demands) }
{
    numbers.push(shape.width as u64)?;
    numbers.push(shape.height as u64)?;
    numbers.push(shape.steps as u64)?;
    shape.starts.push_numbers(numbers)?;
    shape.demands.push_numbers(numbers)
}

// The bytes of a number.
fn push_compact_number_bytes(bytes: &mut Vec<u8>, number: u64) -> Result<(), AllocError>
    ensures { OnOk result (bytes.new.items ≡ bytes.old.items ++ compact_number_bytes number) }
{
    if number < 254 {
        bytes.push(number as u8)?;
        return Ok(());
    }
    if number < 65536 {
        bytes.push(254)?;
        bytes.extend_from_slice(&(number as u16).to_le_bytes())?;
        return Ok(());
    }
    bytes.push(255)?;
    bytes.extend_from_slice(&number.to_le_bytes())?;
    Ok(())
}

// The bytes of the numbers.
fn bytes_of_numbers(alloc: Global, numbers: &[u64]) -> Result<Vec<u8>, AllocError>
    ensures bytes { IfOk result (λ bytes. bytes.items ≡ flat_map compact_number_bytes numbers.now) }
    ensures all_fit_u64 { All (λ n. n < 2 ^ 64) numbers.now }
{
    let mut bytes = Vec::with_capacity(alloc, numbers.len())?;
    for number in numbers {
        push_compact_number_bytes(&mut bytes, *number)?;
    }
    Ok(bytes)
}

impl Shape {
    // The numbers of all that it has.
    #[tactic(auto, unfolding(crate::specs::Keys::shape_numbers))]
    fn numbers(&self, alloc: Global) -> Result<Vec<u64>, AllocError>
        ensures { IfOk result (λ numbers. numbers.items ≡ shape_numbers self.now) }
    {
        let mut numbers = self.wiring.numbers(alloc)?;
        push_sides_steps_and_cells(&mut numbers, self)?;
        push_schedule(&mut numbers, &self.edges)?;
        push_schedule(&mut numbers, &self.halos)?;
        numbers.push(self.stops.len() as u64)?;
        push_stops(&mut numbers, &self.stops)?;
        push_kept_places(&mut numbers, &self.kept)?;
        Ok(numbers)
    }

    /// Returns the SHA-256 of the whole shape.
    ///
    /// Shapes that are the same have the same key. Shapes that differ have different numbers, and these different bytes
    /// (laws). One key for both would be a collision of SHA-256.
    pub fn key(&self, alloc: Global) -> Result<[u8; 32], AllocError>
        ensures key { IfOk result (λ key. key ≡ shape_digest self.now) }
        ensures all_fit_u64 { IfOk result (λ _. All (λ n. n < 2 ^ 64) (shape_numbers self.now)) }
    {
        let numbers = self.numbers(alloc)?;
        let bytes = bytes_of_numbers(alloc, &numbers)?;
        Ok(Sha256::digest(bytes.as_slice()))
    }
}
