//! The faults at cells of which halo and ring say different things where no line names a time.

ghost use Rattle.std.specs.Prelude.{pos, ◌≤◌, ◌≡◌, ◌<◌, map, Some};
ghost use Rattle.module_box.specs.Moves.{moved_all_times};
ghost use Rattle.border_match.specs.Boards.{AreModuleNumbers, AreHaloOwnersListed, IsFaultOfSearchedJob, DiffersAtTimesWithoutEvent, DiffersAtCellWithoutEvent, AreReadyBorders, DiffersAtStar, job_signals};
ghost use Rattle.border_match.specs.Candidates.{IsUpdatedCandidate};
ghost use Rattle.border_match.specs.declared.fault.BorderFault.{BorderFault};
ghost use Rattle.border_match.specs.declared.signals.RingOrHalo.TheVariants.{Halo};
ghost use Rattle.lemmas.specs.Bounds.{max_side};

use crate::borders::Borders;
use crate::fault::{BorderFault, lesser};
use crate::signals::{RingOrHalo, schedule};
use crate::surroundings::plane_cell_if_near;
use bbm_rule::Cell;
use certificate::Job;
use module_box::{AllTimesSignal, Box2};

impl<'a> Borders<'a> {
    // The lesser of the candidate and the first fault of a cell.
    fn least_with_first_fault_of_cell(
        &self,
        best: Option<BorderFault>,
        cell: Cell,
    ) -> Option<BorderFault>
        requires { AreReadyBorders self.now }
        ensures { IsUpdatedCandidate (IsFaultOfSearchedJob self.now) (λ h. h.cell ≡ cell) best
            result }
    {
        for time in 0..self.job.steps() {
            let fault = BorderFault { time, cell };
            if self.is_fault(fault) {
                return lesser(best, fault);
            }
        }
        best
    }

    // The lesser of the candidate and the first fault of a cell, if halo and edge signal differ where no line names a
    // time. No line names time 0, so those signals are found there. The first fault is soon met, since only an even
    // time, or an odd one that a line names for the cell, is without one.
    fn least_with_star_fault_at(&self, best: Option<BorderFault>, cell: Cell) -> Option<BorderFault>
        requires { AreReadyBorders self.now }
        ensures { IsUpdatedCandidate (IsFaultOfSearchedJob self.now)
            (DiffersAtCellWithoutEvent self.now cell) best result }
    {
        if !self.is_halo_cell_inside_layout(cell) || !self.differs_from_owner(0, cell) {
            return best;
        }
        self.least_with_first_fault_of_cell(best, cell)
    }

    // The least of the candidate and the faults at those cells of these lines whose signals differ without an event.
    // The lines have a star, and count cells from a corner.
    fn least_with_faults_at_stars(
        &self,
        best: Option<BorderFault>,
        corner: Box2,
        stars: &[AllTimesSignal],
    ) -> Option<BorderFault>
        requires borders_ready { AreReadyBorders self.now }
        requires corner { (corner.x ≤ max_side) × (corner.y ≤ max_side) }
        ensures { IsUpdatedCandidate (IsFaultOfSearchedJob self.now)
            (DiffersAtStar self.now (map (moved_all_times (pos corner.x) (pos corner.y)) stars.now))
            best result }
    {
        let area = self.job.area();
        let mut least = best;
        for place in 0..stars.len() {
            let Some(cell) = plane_cell_if_near(area, corner, stars[place].cell) else {
                continue;
            };
            least = self.least_with_star_fault_at(least, cell);
        }
        least
    }

    // The least of the candidate and the faults of those cells of the lines of a module's ring or halo for which the
    // signals differ at times without an event.
    fn least_with_stars_of_module(
        &self,
        best: Option<BorderFault>,
        job: &Job,
        border: RingOrHalo,
    ) -> Option<BorderFault>
        requires borders_ready { AreReadyBorders self.now }
        ensures { IsUpdatedCandidate (IsFaultOfSearchedJob self.now)
            (DiffersAtStar self.now (job_signals border job.now).all_times) best result }
    {
        let corner = job.area();
        self.least_with_faults_at_stars(best, corner, schedule(job, border).all_times())
    }

    /// Returns the least of the candidate and the faults at those cells of the halo whose signals differ without an
    /// event.
    ///
    /// `near` lists the modules that have cells of the halo. A cell of which no line with a star speaks is `Zero` for
    /// both modules.
    pub(crate) fn least_with_star_faults(
        &self,
        best: Option<BorderFault>,
        near: &[usize],
    ) -> Option<BorderFault>
        requires borders_ready { AreReadyBorders self.now }
        requires owners_listed { AreHaloOwnersListed self.now near.now }
        requires numbers_exist { AreModuleNumbers self.now near.now }
        ensures { IsUpdatedCandidate (IsFaultOfSearchedJob self.now)
            (DiffersAtTimesWithoutEvent self.now) best result }
    {
        let mut least = self.least_with_stars_of_module(best, self.job, RingOrHalo::Halo);
        for number in near {
            least = self.least_with_stars_of_module(least, &self.jobs[*number], RingOrHalo::Ring);
        }
        least
    }
}
