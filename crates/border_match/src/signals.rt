//! Signals of the cells of a module's ring and halo, as the module states them.
ghost use Rattle.std.specs.Prelude.{◌≡◌, [], false};
ghost use Rattle.circuit.specs.Meaning.{wires};
ghost use Rattle.module_box.specs.Locals.{circuit_wire};
ghost use Rattle.module_box.specs.Moves.{IsCellInShiftRange, moved_signals};
ghost use Rattle.module_job.specs.Shapes.{shift_to_origin};
ghost use Rattle.module_job.specs.Signals.{IsSignalWireBelow, renumber_signal};
ghost use Rattle.border_match.specs.Boards.{IsEventListed, job_signal, job_signals};

use bbm_rule::Cell;
use certificate::Job;
use module_box::{Schedule, Signal, TimedSignal};
use module_job::Shape;

/// The cells of a module on one side of the edge of its box.
#[derive(Clone, Copy)]
pub(crate) enum RingOrHalo {
    /// Those in the box: its ring.
    Ring,
    /// Those around the box: its halo.
    Halo,
}

// What a module says, by the wires of the circuit in place of its own.
fn circuit_signal(job: &Job, signal: Signal) -> Signal
    requires { IsSignalWireBelow (wires job.now.locals.netlist) signal }
    ensures { result ≡ renumber_signal (circuit_wire job.now.locals) signal }
{
    match signal {
        Signal::Zero => Signal::Zero,
        Signal::One => Signal::One,
        Signal::Wire(wire) => Signal::Wire(job.wire(wire).number()),
    }
}

/// Returns what the lines of a module say of these cells, counted from the corner of its box.
#[inline(always)]
pub(crate) fn schedule(job: &Job, border: RingOrHalo) -> &Schedule
    ensures { result.now ≡ moved_signals (shift_to_origin job.now.area.x)
        (shift_to_origin job.now.area.y) (job_signals border job.now) }
{
    let own: &Shape = job.shape();
    match border {
        RingOrHalo::Ring => own.edges(),
        RingOrHalo::Halo => own.halos(),
    }
}

/// Returns what a module says of one of these cells at a time.
#[inline(always)]
#[tactic(auto, using(module_job::proofs::OwnSignals::edge_below, module_job::proofs::OwnSignals::halo_below))]
pub(crate) fn signal_at(job: &Job, border: RingOrHalo, time: u32, cell: Cell) -> Signal
    requires { IsCellInShiftRange cell }
    ensures { result ≡ job_signal border job.now time cell.x cell.y }
{
    // A job names no wires but its own.
    job.prove_valid();
    match border {
        RingOrHalo::Ring => circuit_signal(job, job.edge(time, cell)),
        RingOrHalo::Halo => circuit_signal(job, job.halo(time, cell)),
    }
}

// Returns whether a line with a star, which speaks of all times, is for one of these cells.
#[inline(always)]
fn has_any_starred_line(job: &Job, border: RingOrHalo) -> bool
    ensures { result ≡ false → (job_signals border job.now).all_times ≡ [] }
{
    !schedule(job, border).all_times().is_empty()
}

/// Returns what a module says of the cell and the time of an event of these cells. If no line has a star, the event
/// itself says it: no two events are of one cell and time, since they rise.
#[inline(always)]
pub(crate) fn signal_at_event(job: &Job, border: RingOrHalo, event: TimedSignal) -> Signal
    requires cell_in_shift_range { IsCellInShiftRange event.at.cell }
    requires event_listed { IsEventListed (job_signals border job.now).events event }
    ensures { result ≡ job_signal border job.now event.at.time event.at.cell.x event.at.cell.y }
{
    if has_any_starred_line(job, border) {
        return signal_at(job, border, event.at.time, event.at.cell);
    }
    job.prove_valid();
    schedule(job, border).prove_rising();
    circuit_signal(job, event.signal)
}
