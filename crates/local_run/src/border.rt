//! The cells of ring and halo at an odd time.
ghost use Rattle.std.specs.Prelude.{ℕ, ◌≡◌, ◌+◌, ◌*◌, ◌/◌, ◌%◌, ◌<◌, ◌≤◌, true, false};
ghost use Rattle.bbm_rule.specs.Bits.{bit};
ghost use Rattle.lanes.specs.Settled.{AreSettledBlocksUnchanged};
ghost use Rattle.circuit.specs.Meaning.{wires};
ghost use Rattle.module_box.specs.Schedules.{signal_at};
ghost use Rattle.module_job.specs.Jobs.{IsJob};
ghost use Rattle.module_job.specs.Signals.{IsSignalWireBelow};
ghost use Rattle.local_run.specs.Places.{halo_coord};
ghost use Rattle.local_run.specs.Quiet.{AreLineMarks};
ghost use Rattle.local_run.specs.Steady.{AreEventMarks, AreSignalsCorrectAtNumber, MatchesStarsWhereSettled};
ghost use Rattle.local_run.specs.Scans.{IsEdgeCorrectAt, AreEdgesCorrectBetweenNumbers, AreEdgesCorrectAtPlace, IsHaloAsSignals, IsHaloCellAsSignal, AreNumberedHaloCellsAsSignals, AreHaloCellsAsSignalsAtPlace, HasNoFaultOfKind, IsOutsideBoxFromHalo, IsRunReady, IsKindScannedAt, IsSameBeforeNumber, IsSameButAtPlace, IsSameButAtCell, ShowsRunAt};

use crate::fault::Kind;
use crate::line_marks::LineMarks;
use crate::places::{edge_signal_at, halo_signal_at};
use crate::values::Values;
use lanes::{MarkedPlanes, take_first_mark};
use module_box::Signal;
use module_job::Job;

// What a cell, counted from the halo, carries at an odd time, if it is in the halo. Where no line says something it is
// not sought.
fn halo_signal(
    marked_planes: &MarkedPlanes,
    job: &Job,
    lines: &LineMarks,
    x: usize,
    y: usize,
) -> Signal
    requires job { IsJob job.now }
    requires stride { marked_planes.now.planes.stride ≡ job.now.area.w / 2 + 1 }
    requires rows { marked_planes.now.planes.rows ≡ job.now.area.h / 2 + 1 }
    requires lines { AreLineMarks job.now lines.now.time lines.now.marks.items }
    requires place { (x < job.now.area.w + 2) × (y < job.now.area.h + 2) }
    ensures signal_is_exact { result
        ≡ signal_at job.now.halos lines.now.time (halo_coord job.now.area.x x)
        (halo_coord job.now.area.y y) }
    ensures wire_exists { IsSignalWireBelow (wires job.now.locals.netlist) result }
{
    if lines.may_have_line(marked_planes.planes(), x, y) {
        halo_signal_at(job, lines.time(), x, y, lines.places().halos)
    } else {
        Signal::Zero
    }
}

// What a cell of the box, counted from the halo, carries at an odd time, if it is in the ring. Where no line says
// something it is not sought.
#[tactic(auto, using(crate::proofs::Silence::inner_is_outer))]
fn edge_signal(
    marked_planes: &MarkedPlanes,
    job: &Job,
    lines: &LineMarks,
    x: usize,
    y: usize,
) -> Signal
    requires job { IsJob job.now }
    requires stride { marked_planes.now.planes.stride ≡ job.now.area.w / 2 + 1 }
    requires rows { marked_planes.now.planes.rows ≡ job.now.area.h / 2 + 1 }
    requires lines { AreLineMarks job.now lines.now.time lines.now.marks.items }
    requires column { (1 ≤ x) × (x ≤ job.now.area.w) }
    requires row { (1 ≤ y) × (y ≤ job.now.area.h) }
    ensures signal_is_exact { result
        ≡ signal_at job.now.edges lines.now.time (halo_coord job.now.area.x x)
        (halo_coord job.now.area.y y) }
    ensures wire_exists { IsSignalWireBelow (wires job.now.locals.netlist) result }
{
    if lines.may_have_line(marked_planes.planes(), x, y) {
        edge_signal_at(job, lines.time(), x - 1, y - 1, lines.places().edges)
    } else {
        Signal::Zero
    }
}

// Whether a cell of the box, counted from the halo, carries what its edge signal says, if it is in the ring; only
// `true` is proved to be right.
#[tactic(auto, using(crate::proofs::Scans::row_from, crate::proofs::Silence::between_edges))]
fn is_edge_correct(
    marked_planes: &MarkedPlanes,
    values: &Values,
    job: &Job,
    lines: &LineMarks,
    x: usize,
    y: usize,
) -> bool
    requires job_ready { IsRunReady job.now values.now }
    requires shows { ShowsRunAt job.now values.now lines.now.time marked_planes.now.planes }
    requires lines { AreLineMarks job.now lines.now.time lines.now.marks.items }
    requires column { (1 ≤ x) × (x ≤ job.now.area.w) }
    requires row { (1 ≤ y) × (y ≤ job.now.area.h) }
    ensures { result ≡ true → IsEdgeCorrectAt job.now values.now lines.now.time x y }
{
    let area = job.area();
    if 2 <= x && x < area.w as usize && 2 <= y && y < area.h as usize {
        return true;
    }
    let signal = edge_signal(marked_planes, job, lines, x, y);
    values
        .first_difference_where_defined(marked_planes.planes(), x, y, signal)
        .is_none()
}

// Sets a cell of the halo to what its signal says.
#[tactic(auto, using(crate::proofs::Scans::row_from))]
fn set_halo_cell(
    marked_planes: &mut MarkedPlanes,
    values: &Values,
    job: &Job,
    lines: &LineMarks,
    x: usize,
    y: usize,
)
    requires job_ready { IsRunReady job.now values.now }
    requires shows { ShowsRunAt job.now values.now lines.now.time marked_planes.old.planes }
    requires lines { AreLineMarks job.now lines.now.time lines.now.marks.items }
    requires place { (x < job.now.area.w + 2) × (y < job.now.area.h + 2) }
    requires halo_coord { IsOutsideBoxFromHalo job.now.area x y }
    ensures shows { ShowsRunAt job.now values.now lines.now.time marked_planes.new.planes }
    ensures is_set { IsHaloCellAsSignal job.now values.now lines.now.time marked_planes.new.planes x
        y }
    ensures rest { IsSameButAtCell job.now marked_planes.old.planes marked_planes.new.planes x y }
    ensures settled { AreSettledBlocksUnchanged marked_planes.old marked_planes.new }
{
    let signal = halo_signal(marked_planes, job, lines, x, y);
    if values.differs_from_signal(marked_planes.planes(), x, y, signal) {
        values.put(marked_planes, x, y, signal);
    }
}

// Sets a cell of box or halo, counted from the halo, to what its halo signal says, if it is in the halo. Returns
// whether it carries what its edge signal says, if it is in the ring; only `true` is proved to be right.
#[tactic(auto, using(crate::proofs::Silence::unsaid_halo, crate::proofs::Silence::outer_edge, crate::proofs::Silence::unsaid_edge, lanes::proofs::SettledLemmas::settled_once))]
#[inline(always)]
fn set_halo_or_is_edge_correct(
    marked_planes: &mut MarkedPlanes,
    values: &Values,
    job: &Job,
    lines: &LineMarks,
    x: usize,
    y: usize,
) -> bool
    requires job_ready { IsRunReady job.now values.now }
    requires shows { ShowsRunAt job.now values.now lines.now.time marked_planes.old.planes }
    requires lines { AreLineMarks job.now lines.now.time lines.now.marks.items }
    requires sought { IsKindScannedAt job.now lines.now.time Kind.Edge }
    requires place { (x < job.now.area.w + 2) × (y < job.now.area.h + 2) }
    ensures shows { ShowsRunAt job.now values.now lines.now.time marked_planes.new.planes }
    ensures edge { result ≡ true → IsEdgeCorrectAt job.now values.now lines.now.time x y }
    ensures halo { IsHaloCellAsSignal job.now values.now lines.now.time marked_planes.new.planes x
        y }
    ensures rest { IsSameButAtCell job.now marked_planes.old.planes marked_planes.new.planes x y }
    ensures settled { AreSettledBlocksUnchanged marked_planes.old marked_planes.new }
{
    let area = job.area();
    // Most cells have no line and are dead.
    if !lines.may_have_line(marked_planes.planes(), x, y) && !marked_planes.may_be_live(x, y) {
        return true;
    }
    if 1 <= x && x <= area.w as usize && 1 <= y && y <= area.h as usize {
        return is_edge_correct(marked_planes, values, job, lines, x, y);
    }
    set_halo_cell(marked_planes, values, job, lines, x, y);
    true
}

// Sets or tests the four cells in a column and row of the planes, each as `set_halo_or_is_edge_correct` does.
fn set_halo_cells_or_are_edges_correct(
    marked_planes: &mut MarkedPlanes,
    values: &Values,
    job: &Job,
    lines: &LineMarks,
    column: usize,
    row: usize,
) -> bool
    requires job_ready { IsRunReady job.now values.now }
    requires shows { ShowsRunAt job.now values.now lines.now.time marked_planes.old.planes }
    requires lines { AreLineMarks job.now lines.now.time lines.now.marks.items }
    requires sought { IsKindScannedAt job.now lines.now.time Kind.Edge }
    requires place { (column < job.now.area.w / 2 + 1) × (row < job.now.area.h / 2 + 1) }
    ensures shows { ShowsRunAt job.now values.now lines.now.time marked_planes.new.planes }
    ensures edges { result ≡ true →
        AreEdgesCorrectAtPlace job.now values.now lines.now.time column row }
    ensures halo { AreHaloCellsAsSignalsAtPlace job.now values.now lines.now.time
        marked_planes.new.planes column row }
    ensures rest { IsSameButAtPlace job.now marked_planes.old.planes marked_planes.new.planes column
        row }
    ensures settled { AreSettledBlocksUnchanged marked_planes.old marked_planes.new }
{
    let x = 2 * column;
    let y = 2 * row;
    let first = set_halo_or_is_edge_correct(marked_planes, values, job, lines, x, y);
    let second = set_halo_or_is_edge_correct(marked_planes, values, job, lines, x + 1, y);
    let third = set_halo_or_is_edge_correct(marked_planes, values, job, lines, x, y + 1);
    let fourth = set_halo_or_is_edge_correct(marked_planes, values, job, lines, x + 1, y + 1);
    first & second & third & fourth
}

// Sets the cells of the halo with the 64 numbers from `first` on to what their signals say, and returns whether the
// cells of the ring with these numbers carry what their edge signals say. Only `true` is proved to be right.
//
// The numbers without a mark in the word need no look. It was read before: a cell that is set changes marks of its own
// number alone.
#[tactic(auto, using(crate::proofs::QuietLemmas::number_below, lanes::proofs::FieldLemmas::past_all))]
fn set_halo_and_check_ring_at_marks(
    marked_planes: &mut MarkedPlanes,
    values: &Values,
    job: &Job,
    lines: &LineMarks,
    first: usize,
    word: u64,
) -> bool
    requires job_ready { IsRunReady job.now values.now }
    requires shows { ShowsRunAt job.now values.now lines.now.time marked_planes.old.planes }
    requires lines { AreLineMarks job.now lines.now.time lines.now.marks.items }
    requires sought { IsKindScannedAt job.now lines.now.time Kind.Edge }
    requires first { (first % 64 ≡ 0) × (first < marked_planes.old.planes.stride
        * marked_planes.old.planes.rows) }
    requires unset_are_correct { (u : ℕ) → u / 64 ≡ first / 64 → bit word (u % 64) ≡ false →
        AreSignalsCorrectAtNumber job.now values.now lines.now.time marked_planes.old.planes u }
    ensures shows { ShowsRunAt job.now values.now lines.now.time marked_planes.new.planes }
    ensures halo { AreNumberedHaloCellsAsSignals job.now values.now lines.now.time first
        (first + 64) marked_planes.new.planes }
    ensures edges { result ≡ true →
        AreEdgesCorrectBetweenNumbers job.now values.now lines.now.time first (first + 64) }
    ensures rest { IsSameBeforeNumber job.now marked_planes.old.planes marked_planes.new.planes
        first }
    ensures settled { AreSettledBlocksUnchanged marked_planes.old marked_planes.new }
{
    let cells = marked_planes.planes().cells_per_plane();
    let mut is_right = true;
    let mut rest = word;
    while rest != 0 {
        let (place, others) = take_first_mark(rest);
        let u = first + place;
        if u >= cells {
            return is_right;
        }
        rest = others;
        let (column, row) = marked_planes.planes().column_and_row(u);
        is_right &= set_halo_cells_or_are_edges_correct(
            marked_planes,
            values,
            job,
            lines,
            column,
            row,
        );
    }
    is_right
}

/// Sets the cells of the halo to what their signals say, and returns whether the cells of the ring carry what their
/// edge signals say. Only `true` is proved to be right.
///
/// Cells that carried their signals at all times at the last look and have not changed need a look only if a line says
/// something of this time alone.
pub fn set_halo_and_check_ring(
    marked_planes: &mut MarkedPlanes,
    values: &Values,
    job: &Job,
    lines: &LineMarks,
) -> bool
    requires job_ready { IsRunReady job.now values.now }
    requires shows { ShowsRunAt job.now values.now lines.now.time marked_planes.old.planes }
    requires lines { AreLineMarks job.now lines.now.time lines.now.marks.items }
    requires sought { IsKindScannedAt job.now lines.now.time Kind.Edge }
    requires events { AreEventMarks job.now lines.now.time lines.now.events.items }
    requires steady { MatchesStarsWhereSettled job.now values.now marked_planes.old
        lines.now.last_event_marks.items }
    ensures shows { ShowsRunAt job.now values.now lines.now.time marked_planes.new.planes }
    ensures halo { IsHaloAsSignals job.now values.now lines.now.time marked_planes.new.planes }
    ensures edges { result ≡ true → HasNoFaultOfKind job.now values.now lines.now.time Kind.Edge }
{
    job.prove_valid();
    let cells = marked_planes.planes().cells_per_plane();
    let mut is_right = true;
    for k in 0..cells.div_ceil(64) {
        let word = marked_planes.border_marks_to_check(
            lines.marks(),
            lines.events(),
            lines.last_event_marks(),
            k,
        );
        if word == 0 {
            continue;
        }
        is_right &= set_halo_and_check_ring_at_marks(
            marked_planes,
            values,
            job,
            lines,
            64 * k,
            word,
        );
    }
    is_right
}
