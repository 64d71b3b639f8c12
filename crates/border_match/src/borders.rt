//! The borders of one module.

ghost use Rattle.std.specs.Prelude.{◌+◌, ◌≡◌, ◌<◌, ◌↔◌, ◌&&◌, false, length, slice_get, slice_set, true, IsTrue, Some, IfSome, IfOk};
ghost use Rattle.bbm_rule.specs.Boxes.{in_box, in_halo};
ghost use Rattle.module_box.specs.Moves.{IsCellInShiftRange};
ghost use Rattle.module_box.specs.Tiling.{owner_of};
ghost use Rattle.border_match.specs.Boards.{AddsOnlyMarksOfEventsAt, AreHaloEventMarks, AreModuleNumbers, AreHaloOwnersListed, SignalsDifferAt, IsFaultOfSearchedJob, IsAtOwnersEdgeEvent, IsAtEdgeEventOf, IsAtEvent, IsEventListed, IsAtSomeEvent, IsEventPlaceOf, IsAtUnmarkedEvent, AreReadyBorders, IsAtComparedMoment, job_signal, jobs_of};
ghost use Rattle.border_match.specs.Candidates.{IsUpdatedCandidate, IsLeastCandidate};
ghost use Rattle.border_match.specs.Surroundings.{AreEdgeEventExtents, IsEdgeEventExtent};
ghost use Rattle.border_match.specs.declared.fault.BorderFault.{BorderFault};
ghost use Rattle.border_match.specs.declared.signals.RingOrHalo.TheVariants.{Halo};

use crate::fault::{BorderFault, is_less, lesser};
use crate::signals::{RingOrHalo, signal_at, signal_at_event};
use crate::surroundings::{
    EventWalk, LeapPlan, find_event_place, first_near_event_place, next_near_event_place,
};
use crate::window::Window;
use bbm_rule::Cell;
use certificate::Job;
use module_box::{Box2, Moment, Owners, Signal, TimedSignal, moved_cell};
use module_job::{Shape, shift_to_origin};
use std::alloc::{AllocError, Global};
use std::sync::Arc;

/// The borders of a module: the layout's rectangle, the number of the module that has each cell of it, the jobs of all
/// modules, and the job of this one.
#[derive(Clone, Copy)]
pub(crate) struct Borders<'a> {
    pub(crate) whole: Box2,
    pub(crate) owners: &'a Owners,
    pub(crate) jobs: &'a [Arc<Job>],
    pub(crate) job: &'a Job,
}

// Sets a mark.
fn mark(seen: &mut [bool], place: usize)
    requires { place < length seen.old }
    ensures { seen.new ≡ slice_set seen.old place true }
{
    seen[place] = true;
}

// Returns the fault that an event names, which may be none.
fn possible_fault_at(event: TimedSignal) -> BorderFault
    ensures time { result.time ≡ event.at.time }
    ensures cell { result.cell ≡ event.at.cell }
{
    BorderFault {
        time: event.at.time,
        cell: event.at.cell,
    }
}

impl<'a> Borders<'a> {
    // The job of the module that has a cell of the rectangle.
    fn owner(&self, cell: Cell) -> &'a Job
        requires borders_ready { AreReadyBorders self.now }
        requires cell_inside { IsTrue (in_box self.now.whole cell.x cell.y) }
        ensures { slice_get (jobs_of self.now) (owner_of self.now.owners.now cell.x cell.y)
            ≡ Some result.now }
    {
        &self.jobs[self.owners.owner(cell)]
    }

    /// Returns whether the cell is in the module's halo and in the rectangle.
    pub(crate) fn is_halo_cell_inside_layout(&self, cell: Cell) -> bool
        ensures { result
            ≡ (in_box self.now.whole cell.x cell.y && in_halo self.now.job.now.area cell.x cell.y) }
    {
        self.whole.holds(cell) & self.job.area().in_halo(cell)
    }

    /// Returns whether the module says another thing of a cell of the rectangle than the module that has it.
    pub(crate) fn differs_from_owner(&self, time: u32, cell: Cell) -> bool
        requires borders_ready { AreReadyBorders self.now }
        requires cell_inside { IsTrue (in_box self.now.whole cell.x cell.y) }
        ensures { IsTrue result ↔ SignalsDifferAt self.now time cell.x cell.y }
    {
        let owner = self.owner(cell);
        // The cell lies in the owner's box, and so not far away.
        owner.prove_valid();
        signal_at(self.job, RingOrHalo::Halo, time, cell)
            != signal_at(owner, RingOrHalo::Ring, time, cell)
    }

    // Returns whether the module says another thing of the cell and time of an event of its halo than the module that
    // has the cell. It needs one search less than for any cell.
    fn halo_event_differs(&self, event: TimedSignal) -> bool
        requires borders_ready { AreReadyBorders self.now }
        requires cell_inside { IsTrue (in_box self.now.whole event.at.cell.x event.at.cell.y) }
        requires event_listed { IsEventListed self.now.job.now.halos.events event }
        ensures { IsTrue result
            ↔ SignalsDifferAt self.now event.at.time event.at.cell.x event.at.cell.y }
    {
        let owner = self.owner(event.at.cell);
        owner.prove_valid();
        signal_at_event(self.job, RingOrHalo::Halo, event)
            != signal_at(owner, RingOrHalo::Ring, event.at.time, event.at.cell)
    }

    // Returns whether the module says another thing, `own`, of the cell and time of an event than the module whose ring
    // has the event.
    fn edge_event_differs(&self, owner: &Job, event: TimedSignal, own: Signal) -> bool
        requires borders_ready { AreReadyBorders self.now }
        requires cell_inside { IsTrue (in_box self.now.whole event.at.cell.x event.at.cell.y) }
        requires owner { slice_get (jobs_of self.now)
            (owner_of self.now.owners.now event.at.cell.x event.at.cell.y) ≡ Some owner.now }
        requires event_listed { IsEventListed owner.now.edges.events event }
        requires own_is_halo_signal { own
            ≡ job_signal Halo self.now.job.now event.at.time event.at.cell.x event.at.cell.y }
        ensures { IsTrue result
            ↔ SignalsDifferAt self.now event.at.time event.at.cell.x event.at.cell.y }
    {
        owner.prove_valid();
        own != signal_at_event(owner, RingOrHalo::Ring, event)
    }

    // Returns whether a border fault can be at this time and cell.
    fn is_at_compared_moment(&self, fault: BorderFault) -> bool
        ensures { IsTrue result ↔ IsAtComparedMoment self.now fault }
    {
        if fault.time % 2 != 1 {
            return false;
        }
        if fault.time >= self.job.steps() {
            return false;
        }
        self.is_halo_cell_inside_layout(fault.cell)
    }

    /// Returns whether this is a border fault of the module.
    pub(crate) fn is_fault(&self, fault: BorderFault) -> bool
        requires { AreReadyBorders self.now }
        ensures { IsTrue result ↔ IsFaultOfSearchedJob self.now fault }
    {
        self.is_at_compared_moment(fault) && self.differs_from_owner(fault.time, fault.cell)
    }

    // The lesser of the candidate and the fault that an event of the module's halo names.
    fn least_with_halo_event(
        &self,
        best: Option<BorderFault>,
        event: TimedSignal,
    ) -> Option<BorderFault>
        requires borders_ready { AreReadyBorders self.now }
        requires event_listed { IsEventListed self.now.job.now.halos.events event }
        ensures { IsUpdatedCandidate (IsFaultOfSearchedJob self.now) (IsAtEvent event) best result }
    {
        let fault = possible_fault_at(event);
        if is_less(fault, best)
            && self.is_at_compared_moment(fault)
            && self.halo_event_differs(event)
        {
            return lesser(best, fault);
        }
        best
    }

    // Returns the place of the event of the module's halo at this time and cell, or `None` if the search along the walk
    // meets none.
    #[inline(always)]
    fn halo_event_place(&self, at: Moment, walk: &mut EventWalk) -> Option<usize>
        requires { IsCellInShiftRange at.cell }
        ensures { IfSome result (IsEventPlaceOf self.now.job.now.halos.events at) }
    {
        let area = self.job.area();
        let shape: &Shape = self.job.shape();
        let local = Moment {
            time: at.time,
            cell: moved_cell(at.cell, shift_to_origin(area.x), shift_to_origin(area.y)),
        };
        find_event_place(shape.halos().events(), walk, local)
    }

    // Returns what the module says of this time and cell of its halo. If an event says it, that event gets its mark,
    // and the walk goes on behind it.
    #[inline(always)]
    fn read_and_mark_halo_event(
        &self,
        at: Moment,
        seen: &mut [bool],
        walk: &mut EventWalk,
    ) -> Signal
        requires cell_in_shift_range { IsCellInShiftRange at.cell }
        requires one_mark_per_event { length seen.old ≡ length self.now.job.now.halos.events }
        ensures signal { result ≡ job_signal Halo self.now.job.now at.time at.cell.x at.cell.y }
        ensures marks { AddsOnlyMarksOfEventsAt self.now.job.now.halos.events at seen.old seen.new }
    {
        match self.halo_event_place(at, walk) {
            Some(place) => {
                walk.pass(place);
                mark(seen, place);
                signal_at_event(self.job, RingOrHalo::Halo, self.job.halo_event(place))
            }
            None => signal_at(self.job, RingOrHalo::Halo, at.time, at.cell),
        }
    }

    // The lesser of the candidate and the fault that an event of the ring of the module that has the cell names.
    //
    // Most often the two modules say the same, so this test comes before all others.
    #[inline(always)]
    fn least_with_edge_event(
        &self,
        best: Option<BorderFault>,
        owner: &Job,
        event: TimedSignal,
        seen: &mut [bool],
        walk: &mut EventWalk,
    ) -> Option<BorderFault>
        requires borders_ready { AreReadyBorders self.now }
        requires cell_inside { IsTrue (in_box self.now.whole event.at.cell.x event.at.cell.y) }
        requires owner { slice_get (jobs_of self.now)
            (owner_of self.now.owners.now event.at.cell.x event.at.cell.y) ≡ Some owner.now }
        requires event_listed { IsEventListed owner.now.edges.events event }
        requires marked { AreHaloEventMarks self.now seen.old }
        ensures better { IsUpdatedCandidate (IsFaultOfSearchedJob self.now) (IsAtEvent event) best
            result }
        ensures marked { AreHaloEventMarks self.now seen.new }
    {
        owner.prove_valid();
        let own = self.read_and_mark_halo_event(event.at, seen, walk);
        if !self.edge_event_differs(owner, event, own) {
            return best;
        }
        let fault = possible_fault_at(event);
        if !self.is_at_compared_moment(fault) {
            return best;
        }
        lesser(best, fault)
    }

    // The least of the candidate and the faults that the events of the module's halo without a mark name.
    fn least_with_unmarked_halo_events(
        &self,
        best: Option<BorderFault>,
        seen: &[bool],
    ) -> Option<BorderFault>
        requires borders_ready { AreReadyBorders self.now }
        requires one_mark_per_event { length seen.now ≡ length self.now.job.now.halos.events }
        ensures { IsUpdatedCandidate (IsFaultOfSearchedJob self.now)
            (IsAtUnmarkedEvent seen.now self.now.job.now.halos.events) best result }
    {
        let mut least = best;
        for place in 0..self.job.halo_event_count() {
            if seen[place] {
                continue;
            }
            least = self.least_with_halo_event(least, self.job.halo_event(place));
        }
        least
    }

    // The least of the candidate and the faults that the events of a module's ring name.
    fn least_with_edge_events(
        &self,
        best: Option<BorderFault>,
        number: usize,
        other: &Job,
        extent: &Window,
        seen: &mut [bool],
    ) -> Option<BorderFault>
        requires borders_ready { AreReadyBorders self.now }
        requires extent { IsEdgeEventExtent other.now extent.now }
        requires numbered { slice_get (jobs_of self.now) number ≡ Some other.now }
        requires marked { AreHaloEventMarks self.now seen.old }
        ensures better { IsUpdatedCandidate (IsFaultOfSearchedJob self.now)
            (IsAtSomeEvent other.now.edges.events) best result }
        ensures marked { AreHaloEventMarks self.now seen.new }
    {
        let window = Window::around(self.job.area(), other.area());
        let shape: &Shape = other.shape();
        let events = shape.edges().events();
        let mut walk = EventWalk::new();
        let mut leaps = LeapPlan::new();
        let mut least = best;
        // Most events of a long side are far from this module, so this test comes before all others.
        let mut place = first_near_event_place(&window, extent, events, &mut leaps);
        while place < events.len() {
            let event = other.edge_event(place);
            // The events rise, so no fault of the rest is less either.
            if !is_less(possible_fault_at(event), least) {
                return least;
            }
            least = self.least_with_edge_event(least, other, event, seen, &mut walk);
            place = next_near_event_place(&window, events, place + 1, &mut leaps);
        }
        least
    }

    // The least of the candidate and the faults that the edges of one module name.
    fn least_with_edges_of_module(
        &self,
        best: Option<BorderFault>,
        number: usize,
        extents: &[Window],
        seen: &mut [bool],
    ) -> Option<BorderFault>
        requires borders_ready { AreReadyBorders self.now }
        requires extents { AreEdgeEventExtents (jobs_of self.now) extents.now }
        requires number { number < length self.now.jobs.now }
        requires marked { AreHaloEventMarks self.now seen.old }
        ensures better { IsUpdatedCandidate (IsFaultOfSearchedJob self.now)
            (IsAtEdgeEventOf number self.now) best result }
        ensures marked { AreHaloEventMarks self.now seen.new }
    {
        self.least_with_edge_events(best, number, &self.jobs[number], &extents[number], seen)
    }

    // The least of the candidate and the faults that the edges of the modules name, where these are the numbers of the
    // modules that have cells of the module's halo. An event of the halo gets its mark if an edge has its time and
    // cell.
    fn least_with_edges_of_modules(
        &self,
        best: Option<BorderFault>,
        near: &[usize],
        extents: &[Window],
        seen: &mut [bool],
    ) -> Option<BorderFault>
        requires borders_ready { AreReadyBorders self.now }
        requires extents { AreEdgeEventExtents (jobs_of self.now) extents.now }
        requires owners_listed { AreHaloOwnersListed self.now near.now }
        requires numbers_exist { AreModuleNumbers self.now near.now }
        requires marked { AreHaloEventMarks self.now seen.old }
        ensures better { IsUpdatedCandidate (IsFaultOfSearchedJob self.now)
            (IsAtOwnersEdgeEvent self.now) best result }
        ensures marked { AreHaloEventMarks self.now seen.new }
    {
        let mut least = best;
        for number in near {
            least = self.least_with_edges_of_module(least, *number, extents, seen);
        }
        least
    }

    // The module's least border fault, where `extents` are those of the jobs.
    pub(crate) fn least_fault(
        &self,
        alloc: Global,
        extents: &[Window],
    ) -> Result<Option<BorderFault>, AllocError>
        requires borders_ready { AreReadyBorders self.now }
        requires extents { AreEdgeEventExtents (jobs_of self.now) extents.now }
        ensures { IfOk result (IsLeastCandidate (IsFaultOfSearchedJob self.now)) }
    {
        let near = self.near_modules(alloc)?;
        let mut seen = vec![in alloc; false; self.job.halo_event_count()]?;
        let by_edges = self.least_with_edges_of_modules(None, &near, extents, &mut seen);
        let by_halo = self.least_with_unmarked_halo_events(by_edges, &seen);
        Ok(self.least_with_star_faults(by_halo, &near))
    }
}
