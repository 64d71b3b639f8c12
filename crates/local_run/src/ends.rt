//! A quick look at the cells at the last time.
ghost use Rattle.std.specs.Prelude.{ℕ, ◌≡◌, ◌+◌, ◌*◌, ◌/◌, ◌%◌, ◌<◌, ◌⊎◌, true, false};
ghost use Rattle.bbm_rule.specs.Bits.{bit};
ghost use Rattle.lanes.specs.Calm.{AreNumberedCellsDead};
ghost use Rattle.local_run.specs.Ends.{AreCorrectWhereDeadAtPlace, AreCorrectWhereDeadBetweenNumbers, IsCorrectAtEnd, IsCorrectIfDead, MustBeDead};
ghost use Rattle.local_run.specs.Scans.{HasNoFaultOfKind, IsRunReady, ShowsRunAt};

use crate::fault::Kind;
use crate::places::{
    cell_count, column_and_row_of_place, demand_at, must_be_dead, skip_dead_demands,
};
use crate::scan::first_end_fault_assignment;
use crate::values::Values;
use lanes::{MarkedPlanes, Planes, take_first_mark};
use module_box::Signal;
use module_job::Job;

// Whether the cells of the box that need not be dead are what they must be; only `true` is proved to be right.
fn are_demands_met(planes: &Planes, values: &Values, job: &Job) -> bool
    requires job_ready { IsRunReady job.now values.now }
    requires shows { ShowsRunAt job.now values.now job.now.steps planes.now }
    ensures { result ≡ true → (x y : ℕ) → x < job.now.area.w → y < job.now.area.h →
        MustBeDead job.now x y ⊎ IsCorrectAtEnd job.now values.now x y }
{
    let cells = cell_count(job);
    let mut met = 0;
    let mut place = skip_dead_demands(job, 0);
    while place < cells {
        let (x, y) = column_and_row_of_place(job, place);
        let demand = demand_at(job, x, y, met);
        if first_end_fault_assignment(planes, values, job, demand, x, y).is_some() {
            return false;
        }
        met += 1;
        place = skip_dead_demands(job, place + 1);
    }
    true
}

// Whether a cell, counted from the halo, is outside the box, need not be dead or is dead; only `true` is proved to be
// right.
#[inline(always)]
fn is_correct_if_dead(
    marked_planes: &MarkedPlanes,
    values: &Values,
    job: &Job,
    x: usize,
    y: usize,
) -> bool
    requires job_ready { IsRunReady job.now values.now }
    requires shows { ShowsRunAt job.now values.now job.now.steps marked_planes.now.planes }
    requires place { (x < job.now.area.w + 2) × (y < job.now.area.h + 2) }
    ensures { result ≡ true → IsCorrectIfDead job.now values.now x y }
{
    if !marked_planes.may_be_live(x, y) {
        return true;
    }
    let area = job.area();
    if x < 1 || area.w as usize <= x - 1 || y < 1 || area.h as usize <= y - 1 {
        return true;
    }
    if !must_be_dead(job, x - 1, y - 1) {
        return true;
    }
    values
        .first_difference_where_defined(marked_planes.planes(), x, y, Signal::Zero)
        .is_none()
}

// Whether `is_correct_if_dead` holds of the four cells in a column and row of the planes.
#[inline(always)]
fn are_correct_where_dead(
    marked_planes: &MarkedPlanes,
    values: &Values,
    job: &Job,
    column: usize,
    row: usize,
) -> bool
    requires job_ready { IsRunReady job.now values.now }
    requires shows { ShowsRunAt job.now values.now job.now.steps marked_planes.now.planes }
    requires place { (column < job.now.area.w / 2 + 1) × (row < job.now.area.h / 2 + 1) }
    ensures { result ≡ true → AreCorrectWhereDeadAtPlace job.now values.now column row }
{
    let x = 2 * column;
    let y = 2 * row;
    is_correct_if_dead(marked_planes, values, job, x, y)
        && is_correct_if_dead(marked_planes, values, job, x + 1, y)
        && is_correct_if_dead(marked_planes, values, job, x, y + 1)
        && is_correct_if_dead(marked_planes, values, job, x + 1, y + 1)
}

// Whether `is_correct_if_dead` holds of the cells with the 64 numbers from `first` on. The numbers without a mark in
// the word need no look.
fn are_marked_correct_where_dead(
    marked_planes: &MarkedPlanes,
    values: &Values,
    job: &Job,
    first: usize,
    word: u64,
) -> bool
    requires job_ready { IsRunReady job.now values.now }
    requires shows { ShowsRunAt job.now values.now job.now.steps marked_planes.now.planes }
    requires first { (first % 64 ≡ 0) × (first < marked_planes.now.planes.stride
        * marked_planes.now.planes.rows) }
    requires unset_are_dead { (u : ℕ) → u / 64 ≡ first / 64 → bit word (u % 64) ≡ false →
        u < marked_planes.now.planes.stride * marked_planes.now.planes.rows →
        AreNumberedCellsDead u marked_planes.now.planes }
    ensures { result ≡ true →
        AreCorrectWhereDeadBetweenNumbers job.now values.now first (first + 64) }
{
    let cells = marked_planes.planes().cells_per_plane();
    let mut rest = word;
    while rest != 0 {
        let (place, others) = take_first_mark(rest);
        let u = first + place;
        if u >= cells {
            return true;
        }
        rest = others;
        let (column, row) = marked_planes.planes().column_and_row(u);
        if !are_correct_where_dead(marked_planes, values, job, column, row) {
            return false;
        }
    }
    true
}

// Whether the cells of the box that must be dead are so; only `true` is proved to be right.
fn are_others_dead(marked_planes: &MarkedPlanes, values: &Values, job: &Job) -> bool
    requires job_ready { IsRunReady job.now values.now }
    requires shows { ShowsRunAt job.now values.now job.now.steps marked_planes.now.planes }
    ensures { result ≡ true → (x y : ℕ) → x < job.now.area.w → y < job.now.area.h →
        MustBeDead job.now x y → IsCorrectAtEnd job.now values.now x y }
{
    let cells = marked_planes.planes().cells_per_plane();
    for k in 0..cells.div_ceil(64) {
        let word = marked_planes.word_of_live_numbers(k);
        if !are_marked_correct_where_dead(marked_planes, values, job, 64 * k, word) {
            return false;
        }
    }
    true
}

/// Returns whether no cell has a fault at the last time. Only `true` is proved to be right.
///
/// It looks at the cells that may be live and at those that need not be dead, in no order.
pub fn is_end_correct(marked_planes: &MarkedPlanes, values: &Values, job: &Job) -> bool
    requires job_ready { IsRunReady job.now values.now }
    requires shows { ShowsRunAt job.now values.now job.now.steps marked_planes.now.planes }
    ensures { result ≡ true → HasNoFaultOfKind job.now values.now job.now.steps Kind.End }
{
    are_demands_met(marked_planes.planes(), values, job)
        && are_others_dead(marked_planes, values, job)
}
