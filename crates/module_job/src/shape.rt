//! The shape of a job: the job without its place.
ghost use Rattle.std.specs.Prelude.{ℕ, ◌≡◌, ◌↔◌, true, ◌^◌, ◌<◌, ◌≤◌, slice_get, unwrap_or};
ghost use Rattle.module_box.specs.Locals.{is_among};

use crate::cell_lists::{EndDemands, StartSignals};
use crate::job::{Demand, Stop};
use module_box::{Schedule, Signal, Wiring};
use std::marker::Model;

/// A job without its place and without its names of wires. Contracts see it as a `ShapeView`.
///
/// It is all that the run of a module by itself needs, as if the box had its corner at (0, 0). The numbers of its wires
/// and gates in the circuit are left out. Modules that differ in nothing else have equal shapes.
#[derive(Drop)]
pub struct Shape {
    /// The width of the box.
    pub width: u32,
    /// Its height.
    pub height: u32,
    /// The steps of the layout.
    pub steps: u32,
    /// The gates, over wires of its own.
    pub wiring: Wiring,
    /// The signals of the cells at time 0, row by row.
    pub starts: StartSignals,
    /// The demands on the cells at the last time, row by row.
    pub demands: EndDemands,
    /// The signals of the cells of the ring at odd times.
    pub edges: Schedule,
    /// The signals of the cells of the halo at odd times.
    pub halos: Schedule,
    /// The stops, in their order.
    pub stops: Vec<Stop>,
    /// The gates that are kept, by their places among the used ones.
    pub kept: Vec<u16>,
}

impl Model for Shape {
    ghost use Rattle.module_job.specs.Shapes.{ShapeView};

    ghost Value = { ShapeView };

    ghost use Rattle.module_job.specs.ShapeView.{shape_view};

    ghost view = { shape_view };
}

impl Shape {
    /// Returns the width of the box.
    pub fn width(&self) -> u32
        ensures { result ≡ self.now.width }
    {
        self.width
    }

    /// Returns the height of the box.
    pub fn height(&self) -> u32
        ensures { result ≡ self.now.height }
    {
        self.height
    }

    /// Returns the steps of the layout.
    pub fn steps(&self) -> u32
        ensures { result ≡ self.now.steps }
    {
        self.steps
    }

    /// Returns the gates that the module knows, over wires of its own.
    pub fn wiring(&self) -> &Wiring
        ensures { result.now ≡ self.now.netlist }
    {
        &self.wiring
    }

    /// Returns what the cell at a place of the box, whose cells are counted row by row, carries at time 0.
    pub(crate) fn start(&self, place: usize) -> Signal
        ensures { result ≡ unwrap_or (slice_get self.now.starts place) Signal.Zero }
    {
        self.starts.at(place)
    }

    /// Returns what the cell at a place of the box must be at the last time.
    pub(crate) fn demand(&self, place: usize) -> Demand
        ensures { result ≡ unwrap_or (slice_get self.now.demands place) Demand.Dead }
    {
        self.demands.at(place)
    }

    /// Returns what the cell at a place of the box carries at time 0.
    ///
    /// The cell is not sought if exactly `near` cells before it carry something else than `Zero`.
    #[inline(always)]
    pub fn start_near(&self, place: usize, near: usize) -> Signal
        ensures { result ≡ unwrap_or (slice_get self.now.starts place) Signal.Zero }
    {
        self.starts.at_near(place, near)
    }

    /// Returns what the cell at a place of the box must be at the last time.
    ///
    /// The cell is not sought if exactly `near` cells before it must be something else than `Dead`.
    #[inline(always)]
    pub fn demand_near(&self, place: usize, near: usize) -> Demand
        ensures { result ≡ unwrap_or (slice_get self.now.demands place) Demand.Dead }
    {
        self.demands.at_near(place, near)
    }

    /// Returns whether the cell at a place of the box must be dead at the last time.
    #[inline(always)]
    pub fn must_be_dead(&self, place: usize) -> bool
        ensures { (result ≡ true) ↔
            (unwrap_or (slice_get self.now.demands place) Demand.Dead ≡ Demand.Dead) }
    {
        self.demands.is_dead(place)
    }

    /// Returns a place from `place` to `end`, such that all cells of the box from `place` to before it are dead at time
    /// 0.
    ///
    /// Contracts do not exclude that the cell at the result is dead too.
    pub fn skip_dead_starts(&self, place: usize, end: usize) -> usize
        requires { (place ≤ end) × (end < 2 ^ 32) }
        ensures range { (place ≤ result) × (result ≤ end) }
        ensures passed_dead { (u : ℕ) → place ≤ u → u < result →
            unwrap_or (slice_get self.now.starts u) Signal.Zero ≡ Signal.Zero }
    {
        self.starts.skip_dead(place, end)
    }

    /// Returns a place from `place` to `end`, such that all cells of the box from `place` to before it must be dead at
    /// the last time.
    ///
    /// Contracts do not exclude that the cell at the result must be dead too.
    pub fn skip_dead_demands(&self, place: usize, end: usize) -> usize
        requires { (place ≤ end) × (end < 2 ^ 32) }
        ensures range { (place ≤ result) × (result ≤ end) }
        ensures passed_dead { (u : ℕ) → place ≤ u → u < result →
            unwrap_or (slice_get self.now.demands u) Demand.Dead ≡ Demand.Dead }
    {
        self.demands.skip_dead(place, end)
    }

    /// Returns what the cells of the ring carry at odd times.
    pub fn edges(&self) -> &Schedule
        ensures { result.now ≡ self.now.edges }
    {
        &self.edges
    }

    /// Returns what the cells of the halo carry at odd times.
    pub fn halos(&self) -> &Schedule
        ensures { result.now ≡ self.now.halos }
    {
        &self.halos
    }

    /// Returns the stops, in the order of time, y and x.
    pub fn stops(&self) -> &[Stop]
        ensures { result.now ≡ self.now.stops }
    {
        self.stops.as_slice()
    }

    /// Returns whether the gate at this place is kept.
    pub fn keeps_gate(&self, place: u16) -> bool
        ensures { result ≡ is_among self.now.kept place }
    {
        self.kept.iter().any(|kept| *kept == place)
    }
}
