//! When wires are seen by stops, and what that says of delays and of gates whose inputs are to meet.
ghost use Rattle.std.specs.Prelude.{◌≡◌, ◌<◌, ◌==◌, ◌++◌, ◌∷◌, [], List, None, IfOk, OnOk, length, map};
ghost use Rattle.std.specs.List.{All, list_all};
ghost use Rattle.circuit.specs.Bridge.{circuit_of, netlist_of};
ghost use Rattle.circuit.specs.Meaning.{Circuit as Meant, wires};
ghost use Rattle.circuit.specs.Wiring.{gate_of};
ghost use Rattle.certificate_lines.specs.StoredModules.{HasCircuitWires, IsCircuitWire, module_lines, stop_line};
ghost use Rattle.certificate.specs.Grammars.{modules_in};
ghost use Rattle.certificate.specs.Times.{common_time, all_stops, delay_line, gap_between, is_timing_obeyed, last_times, time_lines_of_gates, meet_line, first_wire_time, delay_and_meet_lines};
ghost use Rattle.certificate.specs.SeenTimes.{IsStopTimeTable, chosen_time, time_in_table};
ghost use Rattle.certificate_lines.specs.declared.certificate_line.StopLine.{StopLine as Line};

use crate::cert::Cert;
use certificate_lines::{StoredModule, StoredStop};
use circuit::{Circuit, GateKind, GateNo, GateWires, WireNo};
use std::alloc::{AllocError, Global};

/// The time from the last stop of the wire that a delay uses to the first stop of the one that it defines.
#[derive(Clone, Copy, Debug, PartialEq, Eq)]
pub enum StopGap {
    /// The number of steps.
    Steps(u32),
    /// One of the two wires has no stop.
    Missing,
    /// The first stop comes before the last one.
    Before,
}

/// A line on what stops say of a gate.
#[derive(Clone, Copy, Debug, PartialEq, Eq)]
pub enum TimeLine {
    /// The time that a delay takes, and the steps that it must take.
    Delay {
        gate: usize,
        wanted: u32,
        gap: StopGap,
    },
    /// The time at which all inputs of a gate that have stops are seen last, or `None` if these times differ. Two
    /// inputs or more have stops.
    Meet {
        gate: usize,
        at: Option<u32>,
    },
}

impl TimeLine {
    /// Returns whether the delay takes as many steps as it says, or the inputs meet.
    pub fn is_timing_obeyed(&self) -> bool
        ensures { result ≡ is_timing_obeyed self.now }
    {
        match self {
            TimeLine::Delay {
                gate: _,
                wanted,
                gap: StopGap::Steps(steps),
            } => steps == wanted,
            TimeLine::Delay { .. } => false,
            TimeLine::Meet { gate: _, at } => at.is_some(),
        }
    }
}

// Which time of a wire is kept.
#[derive(Clone, Copy)]
pub(crate) enum FirstOrLast {
    First,
    Last,
}

fn chosen_time(choice: FirstOrLast, before: Option<u32>, time: u32) -> Option<u32>
    ensures { result ≡ chosen_time choice before time }
{
    match (choice, before) {
        (_, None) => Some(time),
        (FirstOrLast::First, Some(least)) => Some(least.min(time)),
        (FirstOrLast::Last, Some(greatest)) => Some(greatest.max(time)),
    }
}

// Notes the time of a stop in a table of the wires.
fn note_stop(table: &mut [Option<u32>], choice: FirstOrLast, stop: &StoredStop)
    requires { stop.now.wire < length table.old }
    ensures table { (c : Meant) (ss : List Line) → IsCircuitWire c stop.now.wire →
        IsStopTimeTable choice c ss table.old →
        IsStopTimeTable choice c (ss ++ stop_line c stop.now ∷ []) table.new }
    ensures long { length table.new ≡ length table.old }
{
    let at = stop.wire as usize;
    table[at] = chosen_time(choice, table[at], stop.time);
}

// Notes the times of stops in a table of the wires.
fn note_times_of_stops(table: &mut [Option<u32>], choice: FirstOrLast, stops: &[StoredStop])
    requires { All (λ s. s.wire < length table.old) stops.now }
    ensures table { (c : Meant) (ss : List Line) → All (λ s. IsCircuitWire c s.wire) stops.now →
        IsStopTimeTable choice c ss table.old →
        IsStopTimeTable choice c (ss ++ map (stop_line c) stops.now) table.new }
    ensures long { length table.new ≡ length table.old }
{
    for stop in stops {
        note_stop(table, choice, stop);
    }
}

// The first or the last time of each wire, by the stops of the modules.
fn stop_time_table(
    alloc: Global,
    circuit: &Circuit,
    choice: FirstOrLast,
    modules: &[StoredModule],
) -> Result<Vec<Option<u32>>, AllocError>
    requires { All (HasCircuitWires (circuit_of circuit.now)) modules.now }
    ensures { IfOk result (λ table. IsStopTimeTable choice (circuit_of circuit.now)
        (all_stops (map (module_lines (circuit_of circuit.now)) modules.now)) table.items) }
{
    let mut table = vec![in alloc; None; circuit.wires()]?;
    for module in modules {
        note_times_of_stops(&mut table, choice, &module.stops);
    }
    Ok(table)
}

// The time of a wire, if it has one.
fn time_of(table: &[Option<u32>], wire: WireNo) -> Option<u32>
    ensures { result ≡ time_in_table table.now wire }
{
    table.get(wire.number() as usize).copied().flatten()
}

// The time of the first of some wires.
fn time_of_first_wire(table: &[Option<u32>], wires: &[WireNo]) -> Option<u32>
    ensures { result ≡ first_wire_time (time_in_table table.now) wires.now }
{
    match wires.first() {
        Some(wire) => time_of(table, *wire),
        None => None,
    }
}

fn gap_between(last: Option<u32>, first: Option<u32>) -> StopGap
    ensures { result ≡ gap_between last first }
{
    match (last, first) {
        (Some(last), Some(first)) if first < last => StopGap::Before,
        (Some(last), Some(first)) => StopGap::Steps(first - last),
        _ => StopGap::Missing,
    }
}

// Adds the line of a gate, if it is a delay.
fn push_delay_line(
    lines: &mut Vec<TimeLine>,
    number: usize,
    gate: &GateWires,
    firsts: &[Option<u32>],
    lasts: &[Option<u32>],
) -> Result<(), AllocError>
    ensures { OnOk result (lines.new.items
        ≡ lines.old.items ++ delay_line (time_in_table firsts.now) (time_in_table lasts.now) number
        (gate_of gate.now)) }
{
    let last = time_of_first_wire(lasts, gate.ins());
    let first = time_of_first_wire(firsts, gate.outs());
    if let GateKind::Delay(wanted) = gate.kind() {
        lines.push(TimeLine::Delay {
            gate: number,
            wanted,
            gap: gap_between(last, first),
        })?;
    }
    Ok(())
}

// The last times of those wires that have one.
fn last_times(
    alloc: Global,
    lasts: &[Option<u32>],
    wires: &[WireNo],
) -> Result<Vec<u32>, AllocError>
    ensures { IfOk result (λ times. times.items ≡ last_times (time_in_table lasts.now) wires.now) }
{
    let mut times = Vec::new(alloc);
    for wire in wires {
        if let Some(time) = time_of(lasts, *wire) {
            times.push(time)?;
        }
    }
    Ok(times)
}

fn are_all_equal_to(times: &[u32], time: u32) -> bool
    ensures { result ≡ list_all (λ u. u == time) times.now }
{
    times.iter().all(|other| *other == time)
}

// The time that all of them are.
fn common_time(times: &[u32]) -> Option<u32>
    ensures { result ≡ common_time times.now }
{
    let (first, others) = times.split_first()?;
    if are_all_equal_to(others, *first) {
        Some(*first)
    } else {
        None
    }
}

// Adds the line of a gate whose inputs are to meet, if it is one.
fn push_meet_line(
    alloc: Global,
    lines: &mut Vec<TimeLine>,
    number: usize,
    gate: &GateWires,
    lasts: &[Option<u32>],
) -> Result<(), AllocError>
    ensures { OnOk result (lines.new.items
        ≡ lines.old.items ++ meet_line (time_in_table lasts.now) number (gate_of gate.now)) }
{
    let times = last_times(alloc, lasts, gate.ins())?;
    if times.len() >= 2 {
        let at = common_time(&times);
        lines.push(TimeLine::Meet { gate: number, at })?;
    }
    Ok(())
}

// The lines by tables of the first and the last times.
fn time_lines_of_gates(
    alloc: Global,
    circuit: &Circuit,
    firsts: &[Option<u32>],
    lasts: &[Option<u32>],
) -> Result<Vec<TimeLine>, AllocError>
    ensures { IfOk result (λ lines. lines.items
        ≡ time_lines_of_gates (time_in_table firsts.now) (time_in_table lasts.now)
        (netlist_of circuit.now).gates) }
{
    let mut lines = Vec::new(alloc);
    let count = circuit.gates();
    for number in 0..count {
        let gate = circuit.gate(GateNo::of(number as u16));
        push_delay_line(&mut lines, number, &gate, firsts, lasts)?;
    }
    for number in 0..count {
        let gate = circuit.gate(GateNo::of(number as u16));
        push_meet_line(alloc, &mut lines, number, &gate, lasts)?;
    }
    Ok(lines)
}

// The lines by the stops of these modules.
fn timing_lines_of(
    alloc: Global,
    circuit: &Circuit,
    modules: &[StoredModule],
) -> Result<Vec<TimeLine>, AllocError>
    requires { All (HasCircuitWires (circuit_of circuit.now)) modules.now }
    ensures { IfOk result (λ lines. lines.items ≡ delay_and_meet_lines (circuit_of circuit.now)
        (map (module_lines (circuit_of circuit.now)) modules.now)) }
{
    let firsts = stop_time_table(alloc, circuit, FirstOrLast::First, modules)?;
    let lasts = stop_time_table(alloc, circuit, FirstOrLast::Last, modules)?;
    time_lines_of_gates(alloc, circuit, &firsts, &lasts)
}

impl<'a> Cert<'a> {
    /// Returns what the stops of all modules say of the circuit's gates.
    ///
    /// There is a line for each delay, in order of gates, and then a line for each gate of which two inputs or more
    /// have stops.
    pub fn times(&self, alloc: Global) -> Result<Vec<TimeLine>, AllocError>
        ensures { IfOk result (λ lines. lines.items
            ≡ delay_and_meet_lines (circuit_of self.now.circuit) (modules_in self.now)) }
    {
        timing_lines_of(alloc, self.circuit, &self.modules)
    }
}
