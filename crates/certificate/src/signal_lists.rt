//! The signals of a module's edge or halo lines, over the wires that the module knows.
ghost use Rattle.std.specs.Prelude.{◌≡◌, ◌++◌, IfOk, IfSome, IsTrue, OnOk};
ghost use Rattle.std.specs.List.{All};
ghost use Rattle.circuit.specs.Meaning.{wires};
ghost use Rattle.module_box.specs.Locals.{circuit_wire, is_among};
ghost use Rattle.certificate.specs.Jobs.{event_if_timed, signal_if_starred};
ghost use Rattle.module_job.specs.Signals.{IsSignalWireBelow, renumber_signal, renumber_signals};
ghost use Rattle.certificate.specs.Timetables.{AreBorderLinesRising, HasLocalWire, one_or_wire, stored_signals, unnamed_line};

use crate::layout_tables::local_wire_number;
use certificate_lines::StoredBorder;
use circuit::WireNo;
use module_box::{AllTimesSignal, Locals, Moment, Schedule, Signal, TimedSignal};
use std::alloc::{AllocError, Global};

// What the lines so far say: at all odd times, and at single ones.
#[derive(Drop)]
struct SignalLists {
    all_times: Vec<AllTimesSignal>,
    events: Vec<TimedSignal>,
}

// The signal of a wire, or the constant `1`.
#[inline(always)]
fn one_or_local_wire(locals: &Locals, wire: Option<u16>) -> Signal
    requires { IfSome wire (λ w. IsTrue (is_among locals.now.circuit_wires w)) }
    ensures same_signal { renumber_signal (circuit_wire locals.now) result ≡ one_or_wire wire }
    ensures own_wire { IsSignalWireBelow (wires locals.now.netlist) result }
{
    match wire {
        None => Signal::One,
        Some(number) => Signal::Wire(local_wire_number(locals, WireNo::of(number))),
    }
}

impl SignalLists {
    // Adds what an edge or halo line says. Inlined, since it runs for each line of each job.
    #[inline(always)]
    fn push(&mut self, border: &StoredBorder, signal: Signal) -> Result<(), AllocError>
        ensures all_times { OnOk result (self.new.all_times.items
            ≡ self.old.all_times.items
            ++ signal_if_starred (unnamed_line border.now) border.now.time signal) }
        ensures events { OnOk result (self.new.events.items
            ≡ self.old.events.items
            ++ event_if_timed (unnamed_line border.now) border.now.time signal) }
    {
        let cell = border.cell();
        match border.time {
            None => self.all_times.push(AllTimesSignal { cell, signal })?,
            Some(time) => self.events.push(TimedSignal {
                at: Moment { time, cell },
                signal,
            })?,
        }
        Ok(())
    }
}

/// Returns the signals of edge lines or of halo lines of a module.
pub(crate) fn signals_of(
    alloc: Global,
    locals: &Locals,
    lines: &[StoredBorder],
) -> Result<Schedule, AllocError>
    requires order { AreBorderLinesRising lines.now }
    requires local { All (HasLocalWire locals.now) lines.now }
    ensures same_signals { IfOk result (λ s. renumber_signals (circuit_wire locals.now) s
        ≡ stored_signals lines.now) }
    ensures all_times { IfOk result (λ s. All
        (λ h. IsSignalWireBelow (wires locals.now.netlist) h.signal) s.all_times) }
    ensures events { IfOk result (λ s. All
        (λ e. IsSignalWireBelow (wires locals.now.netlist) e.signal) s.events) }
{
    // Few lines have a star. For the others, room for each line costs less than a count: it is freed soon, and most is
    // never touched.
    let mut table = SignalLists {
        all_times: Vec::new(alloc),
        events: Vec::with_capacity(alloc, lines.len())?,
    };
    for line in lines {
        let signal = one_or_local_wire(locals, line.wire);
        table.push(line, signal)?;
    }
    Ok(Schedule::new(table.all_times, table.events))
}
