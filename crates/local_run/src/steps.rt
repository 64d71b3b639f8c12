//! The start of a run over planes, and its steps.
ghost use Rattle.std.specs.Prelude.{ℕ, ◌≡◌, ◌+◌, ◌*◌, ◌/◌, ◌%◌, ◌<◌, false};
ghost use Rattle.module_job.specs.Jobs.{job_start};
ghost use Rattle.lanes.specs.Calm.{AreAllCellsDead};
ghost use Rattle.lanes.specs.Lanes.{HasWordsStrideRows, lane};
ghost use Rattle.lanes.specs.Settled.{AreCellsSameAtNumber, AreSettledBlocksUnchanged, IsBlockSettled};
ghost use Rattle.local_run.specs.Places.{box_coord};
ghost use Rattle.local_run.specs.Scans.{IsHaloAsSignals, IsRunReady, PutsSignalInCell, ShowsRunAt};

use crate::places::{cell_count, column_and_row_of_place, skip_dead_starts, start_signal_at};
use crate::values::Values;
use lanes::MarkedPlanes;
use module_box::Signal;
use module_job::Job;

// Sets a cell of the box, that is dead, to what it is at time 0. It is not sought if exactly `near` cells before it,
// row by row, carry something else than `Zero`.
#[tactic(auto, using(crate::proofs::Scans::row_from))]
fn put_start_cell(
    marked_planes: &mut MarkedPlanes,
    values: &Values,
    job: &Job,
    x: usize,
    y: usize,
    near: usize,
)
    requires job_ready { IsRunReady job.now values.now }
    requires size { HasWordsStrideRows values.now.words (job.now.area.w / 2 + 1)
        (job.now.area.h / 2 + 1) marked_planes.old.planes }
    requires place { (x < job.now.area.w) × (y < job.now.area.h) }
    requires cell_dead { (a : ℕ) → a < 64 * values.now.words →
        lane marked_planes.old.planes a (1 + x) (1 + y) ≡ false }
    ensures puts { PutsSignalInCell values.now (1 + x) (1 + y)
        (job_start job.now (box_coord job.now.area.x x) (box_coord job.now.area.y y))
        marked_planes.old.planes marked_planes.new.planes }
    ensures settled { AreSettledBlocksUnchanged marked_planes.old marked_planes.new }
{
    let signal = start_signal_at(job, x, y, near);
    if let Signal::Zero = signal {
        return;
    }
    values.put(marked_planes, 1 + x, 1 + y, signal);
}

/// Sets the cells of the box to those of time 0. All cells are dead before.
#[tactic(auto, using(crate::proofs::NextCells::dead_start, bbm_rule::proofs::BitLemmas::by_lt_or_le, crate::proofs::Stepping::run_start))]
pub fn put_start(marked_planes: &mut MarkedPlanes, values: &Values, job: &Job)
    requires job_ready { IsRunReady job.now values.now }
    requires size { HasWordsStrideRows values.now.words (job.now.area.w / 2 + 1)
        (job.now.area.h / 2 + 1) marked_planes.old.planes }
    requires all_cells_dead { AreAllCellsDead marked_planes.old.planes }
    ensures shows { ShowsRunAt job.now values.now 0 marked_planes.new.planes }
    ensures settled { AreSettledBlocksUnchanged marked_planes.old marked_planes.new }
{
    let cells = cell_count(job);
    let mut put = 0;
    let mut place = skip_dead_starts(job, 0);
    while place < cells {
        let (x, y) = column_and_row_of_place(job, place);
        put_start_cell(marked_planes, values, job, x, y, put);
        put += 1;
        place = skip_dead_starts(job, place + 1);
    }
}

/// Makes an odd step, on the box and its halo, whose cells are what their signals say. Returns whether a cell of the
/// box may have changed.
pub fn make_odd_step(
    marked_planes: &mut MarkedPlanes,
    values: &Values,
    job: &Job,
    time: u32,
) -> bool
    requires job_ready { IsRunReady job.now values.now }
    requires time_odd { time % 2 ≡ 1 }
    requires shows { ShowsRunAt job.now values.now time marked_planes.old.planes }
    requires halo { IsHaloAsSignals job.now values.now time marked_planes.old.planes }
    ensures next { ShowsRunAt job.now values.now (time + 1) marked_planes.new.planes }
    ensures stays { result ≡ false → ShowsRunAt job.now values.now time marked_planes.new.planes }
    ensures settled_are_same { (u : ℕ) →
        u < marked_planes.old.planes.stride * marked_planes.old.planes.rows →
        IsBlockSettled marked_planes.new u →
        AreCellsSameAtNumber u marked_planes.old.planes marked_planes.new.planes }
{
    marked_planes.odd_step()
}

/// Makes an even step, inside the box. Returns whether a cell of the box may have changed.
#[tactic(auto, using(crate::proofs::Stepping::inside_shows))]
pub fn make_even_step(
    marked_planes: &mut MarkedPlanes,
    values: &Values,
    job: &Job,
    time: u32,
) -> bool
    requires job_ready { IsRunReady job.now values.now }
    requires time_even { time % 2 ≡ 0 }
    requires shows { ShowsRunAt job.now values.now time marked_planes.old.planes }
    ensures next { ShowsRunAt job.now values.now (time + 1) marked_planes.new.planes }
    ensures stays { result ≡ false → ShowsRunAt job.now values.now time marked_planes.new.planes }
    ensures settled { AreSettledBlocksUnchanged marked_planes.old marked_planes.new }
{
    marked_planes.even_step()
}
