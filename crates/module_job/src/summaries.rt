//! Summaries of shapes: some of their numbers, which take few steps to find.
ghost use Rattle.std.specs.Prelude.{◌≡◌};
ghost use Rattle.module_job.specs.Summaries.{last_all_times, event_at_place, shape_summary};

use crate::keys::{signal_number, zigzag_number};
use crate::shape::Shape;
use bbm_rule::Cell;
use module_box::{AllTimesSignal, Moment, Signal, TimedSignal};

// The cell of a signal that a list does not have.
const CORNER: Cell = Cell { x: 0, y: 0 };

// The event at this place, or that the corner is dead at time 0 if there is none.
fn event_at_place(events: &[TimedSignal], place: usize) -> TimedSignal
    ensures { result ≡ event_at_place events.now place }
{
    match events.get(place) {
        Some(event) => *event,
        None => TimedSignal {
            at: Moment {
                time: 0,
                cell: CORNER,
            },
            signal: Signal::Zero,
        },
    }
}

// The last signal at all times, or that the corner is dead if there is none.
fn last_all_times(all_times: &[AllTimesSignal]) -> AllTimesSignal
    ensures { result ≡ last_all_times all_times.now }
{
    match all_times.last() {
        Some(last) => *last,
        None => AllTimesSignal {
            cell: CORNER,
            signal: Signal::Zero,
        },
    }
}

impl Shape {
    /// Returns some numbers of the shape, which differ for most shapes that differ.
    ///
    /// The time that it takes does not depend on the lengths of the lists.
    #[tactic(auto, unfolding(crate::specs::Summaries::shape_summary))]
    pub(crate) fn summary(&self) -> [u64; 23]
        ensures { result ≡ shape_summary self.now }
    {
        let edges = self.edges.events();
        let halos = self.halos.events();
        let edge = event_at_place(edges, edges.len().saturating_sub(1));
        let halo = event_at_place(halos, halos.len().saturating_sub(1));
        let third = event_at_place(halos, halos.len() / 3);
        let always = last_all_times(self.edges.all_times());
        [
            self.width as u64,
            self.height as u64,
            self.wiring.gates() as u64,
            self.stops.len() as u64,
            self.edges.all_times().len() as u64,
            edges.len() as u64,
            self.halos.all_times().len() as u64,
            halos.len() as u64,
            zigzag_number(always.cell.x),
            zigzag_number(always.cell.y),
            signal_number(always.signal),
            edge.at.time as u64,
            zigzag_number(edge.at.cell.x),
            zigzag_number(edge.at.cell.y),
            signal_number(edge.signal),
            halo.at.time as u64,
            zigzag_number(halo.at.cell.x),
            zigzag_number(halo.at.cell.y),
            signal_number(halo.signal),
            third.at.time as u64,
            zigzag_number(third.at.cell.x),
            zigzag_number(third.at.cell.y),
            signal_number(third.signal),
        ]
    }
}
