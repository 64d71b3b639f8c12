//! The job of a module.
ghost use Rattle.std.specs.Prelude.{◌≡◌, ◌<◌, ◌≤◌, pos, length, slice_get, Some};
ghost use Rattle.std.specs.Arc.{arc_value};
ghost use Rattle.circuit.specs.Meaning.{wires};
ghost use Rattle.module_box.specs.Locals.{circuit_gate, circuit_wire, is_among};
ghost use Rattle.module_box.specs.Moves.{IsCellInShiftRange, IsSmallShift};
ghost use Rattle.module_box.specs.Schedules.{signal_at};
ghost use Rattle.module_job.specs.Jobs.{IsJob, job_demand, job_start};
ghost use Rattle.module_job.specs.Shapes.{shift_to_origin, shape_of};
ghost use Rattle.lemmas.specs.Bounds.{max_side};

use crate::shape::Shape;
use crate::stops::moved_stop;
use bbm_rule::Cell;
use circuit::{GateNo, WireNo};
use module_box::{Box2, Moment, Signal, TimedSignal, Wiring, moved_cell, moved_event, place_in};
use std::marker::Model;
use std::sync::Arc;

/// The demand on a cell: what it must be at the last time. A wire is named by its number among the wires that its
/// module knows.
#[derive(Clone, Copy, Debug, PartialEq, Eq)]
pub enum Demand {
    /// Dead.
    Dead,
    /// Live.
    Live,
    /// Live exactly if the wire of this number is true.
    Wire(u16),
    /// Live or dead.
    Any,
}

/// A cell and a time at which it must be live exactly if a wire is true.
#[derive(Clone, Copy, Debug, PartialEq, Eq)]
pub struct Stop {
    pub at: Moment,
    pub wire: u16,
}

/// The data that the run of a module by itself needs. Contracts see it as a `JobView`.
///
/// - its box, the steps, and the wires and gates that it knows;
/// - what the cells of the box carry at time 0, and what they must be at the last time;
/// - what the cells of ring and halo carry at odd times;
/// - its stops, and the gates that it keeps.
///
/// Each wire that it names is one of its own.
// It is kept as the corner of its box, the circuit's numbers of its wires and gates, and its shape, in which the corner
// is (0, 0).
#[derive(Drop)]
pub struct Job {
    /// The column of the box's corner.
    pub x: u32,
    /// Its row.
    pub y: u32,
    /// The circuit's numbers of its wires.
    pub wires: Vec<u16>,
    /// The circuit's gates that are its own.
    pub gates: Vec<GateNo>,
    /// The job without its place.
    pub shape: Arc<Shape>,
}

impl Model for Job {
    ghost use Rattle.module_job.specs.Jobs.{JobView};

    ghost Value = { JobView };

    ghost use Rattle.module_job.specs.JobView.{job_view, AreJobFields};

    ghost view = { job_view };

    ghost invariant = { AreJobFields };
}

/// Returns how far to move the cells of a box with this corner so that its corner comes to (0, 0).
pub fn shift_to_origin(corner: u32) -> i32
    requires { corner ≤ max_side }
    ensures distance_is_exact { result ≡ shift_to_origin corner }
    ensures shift_small { IsSmallShift result }
{
    0 - corner as i32
}

// How far they are moved to come from there to the box.
fn shift_from_origin(corner: u32) -> i32
    requires { corner ≤ max_side }
    ensures distance_is_exact { result ≡ pos corner }
    ensures shift_small { IsSmallShift result }
{
    corner as i32
}

impl Job {
    /// Returns the box of the module.
    ///
    /// Its corner and sides are even, its sides 2 to 64, and it lies in a rectangle of 4096 by 4096 cells.
    pub fn area(&self) -> Box2
        ensures area { result ≡ self.now.area }
        ensures job_valid { IsJob self.now }
    {
        Box2 {
            x: self.x,
            y: self.y,
            w: self.shape.width(),
            h: self.shape.height(),
        }
    }

    /// Shows what holds of each job. It does nothing.
    #[inline(always)]
    pub fn prove_valid(&self)
        ensures { IsJob self.now }
    {
        let _ = &self.shape;
    }

    /// Returns the steps of the layout, at most 1,048,576.
    pub fn steps(&self) -> u32
        ensures { result ≡ self.now.steps }
    {
        self.shape.steps()
    }

    /// Returns the job without the place of its box, and without the numbers of its wires and gates in the circuit.
    pub fn shape(&self) -> &Arc<Shape>
        ensures { arc_value result.now ≡ shape_of self.now }
    {
        &self.shape
    }

    /// Returns the gates that the module knows, over wires of its own.
    pub fn wiring(&self) -> &Wiring
        ensures wiring { result.now ≡ self.now.locals.netlist }
        ensures wire_count { length self.now.locals.circuit_wires ≡ wires self.now.locals.netlist }
    {
        self.shape.wiring()
    }

    /// Returns the wire of the circuit that has this number among the module's own, below the count of those.
    pub fn wire(&self, number: u16) -> WireNo
        requires { number < wires self.now.locals.netlist }
        ensures { result ≡ circuit_wire self.now.locals number }
    {
        WireNo::of(self.wires[number as usize])
    }

    /// Returns the number in the circuit of the used gate at this place, for a place below the count of those, and else
    /// 0.
    pub fn circuit_gate_number(&self, place: usize) -> u16
        ensures { result ≡ circuit_gate self.now.locals place }
    {
        match self.gates.get(place) {
            Some(gate) => gate.number(),
            None => 0,
        }
    }

    /// Returns what a cell carries at time 0: `Zero` outside the box.
    #[tactic(auto, unfolding(crate::specs::Jobs::job_start))]
    pub fn start(&self, cell: Cell) -> Signal
        ensures { result ≡ job_start self.now cell.x cell.y }
    {
        let area = self.area();
        if !area.holds(cell) {
            return Signal::Zero;
        }
        self.shape.start(place_in(area, cell))
    }

    /// Returns what a cell of the box must be at the last time: `Dead` outside the box.
    #[tactic(auto, unfolding(crate::specs::Jobs::job_demand))]
    pub fn demand(&self, cell: Cell) -> Demand
        ensures { result ≡ job_demand self.now cell.x cell.y }
    {
        let area = self.area();
        if !area.holds(cell) {
            return Demand::Dead;
        }
        self.shape.demand(place_in(area, cell))
    }

    /// Returns what a cell of the ring carries at an odd time. Coordinates are from -8192 to 8191.
    #[tactic(auto, using(crate::proofs::ShapeParts::carried))]
    pub fn edge(&self, time: u32, cell: Cell) -> Signal
        requires { IsCellInShiftRange cell }
        ensures { result ≡ signal_at self.now.edges time cell.x cell.y }
    {
        let own = moved_cell(cell, shift_to_origin(self.x), shift_to_origin(self.y));
        self.shape.edges().at(time, own)
    }

    /// Returns what a cell of the halo carries at an odd time. Coordinates are from -8192 to 8191.
    #[tactic(auto, using(crate::proofs::ShapeParts::carried))]
    pub fn halo(&self, time: u32, cell: Cell) -> Signal
        requires { IsCellInShiftRange cell }
        ensures { result ≡ signal_at self.now.halos time cell.x cell.y }
    {
        let own = moved_cell(cell, shift_to_origin(self.x), shift_to_origin(self.y));
        self.shape.halos().at(time, own)
    }

    /// Returns one of the signals that cells of the ring have at single times, by its place in their order.
    pub fn edge_event(&self, place: usize) -> TimedSignal
        requires { place < length self.now.edges.events }
        ensures { slice_get self.now.edges.events place ≡ Some result }
    {
        let event = self.shape.edges().events()[place];
        moved_event(event, shift_from_origin(self.x), shift_from_origin(self.y))
    }

    /// Returns how many signals cells of the halo have at single times.
    pub fn halo_event_count(&self) -> usize
        ensures { result ≡ length self.now.halos.events }
    {
        self.shape.halos().events().len()
    }

    /// Returns one of these signals, by its place in their order.
    pub fn halo_event(&self, place: usize) -> TimedSignal
        requires { place < length self.now.halos.events }
        ensures { slice_get self.now.halos.events place ≡ Some result }
    {
        let event = self.shape.halos().events()[place];
        moved_event(event, shift_from_origin(self.x), shift_from_origin(self.y))
    }

    /// Returns how many stops there are.
    pub fn stops(&self) -> usize
        ensures { result ≡ length self.now.stops }
    {
        self.shape.stops().len()
    }

    /// Returns a stop by its place in the order of time, y and x.
    ///
    /// Each stop is at a time up to the last one, at a cell of the box.
    pub fn stop(&self, place: usize) -> Stop
        requires { place < length self.now.stops }
        ensures { slice_get self.now.stops place ≡ Some result }
    {
        let stop = self.shape.stops()[place];
        moved_stop(stop, shift_from_origin(self.x), shift_from_origin(self.y))
    }

    /// Returns whether the module keeps the gate at this place among those that it uses.
    pub fn keeps_gate(&self, place: u16) -> bool
        ensures { result ≡ is_among self.now.kept place }
    {
        self.shape.keeps_gate(place)
    }
}
