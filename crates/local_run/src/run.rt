//! The run of a job, and its finding.
ghost use Rattle.std.specs.Prelude.{ℕ, ◌≡◌, ◌+◌, ◌*◌, ◌%◌, ◌<◌, IfOk, MatchOption, false};
ghost use Rattle.std.specs.Arc.{arc_value};
ghost use Rattle.module_job.specs.Shapes.{shape_of};
ghost use Rattle.lanes.specs.Settled.{AreCellsSameAtNumber, AreSettledBlocksUnchanged, IsBlockSettled};
ghost use Rattle.local_run.specs.Quiet.{AreStarredCellMarks};
ghost use Rattle.local_run.specs.Steady.{AreEventMarks, MatchesStarsWhereSettled};
ghost use Rattle.local_run.specs.Faults.{IsLeastFault, IsLeastKeepFault};
ghost use Rattle.local_run.specs.Scans.{IsHaloAsSignals, IsFirstFaultOfKind, IsFirstFaultAt, HasNoFaultOfKind, IsNextStop, IsTimeWithoutFault, IsRunReady, IsKindScannedAt, ShowsRunAt};
ghost use Rattle.local_run.specs.Shown.{digest_of, number_of, job_of, fault_of, keep_fault_of};

use crate::border::set_halo_and_check_ring;
use crate::ends::is_end_correct;
use crate::fault::{Fault, KeepFault, Kind};
use crate::finding::Finding;
use crate::keep::find_least_keep_fault;
use crate::leaps::next_time;
use crate::line_marks::LineMarks;
use crate::lines::EventPlaces;
use crate::scan::{SoughtFaults, first_fault_of_kind, first_stop_fault};
use crate::steps::{make_even_step, make_odd_step, put_start};
use crate::values::Values;
use lanes::MarkedPlanes;
use module_job::Job;
use std::alloc::{AllocError, Global};
use std::sync::Arc;

// The first fault of an edge at an odd time before the last. The cells of the halo become what their signals say.
fn set_halo_and_find_edge_fault(
    marked_planes: &mut MarkedPlanes,
    lines: &mut LineMarks,
    values: &Values,
    job: &Job,
    time: u32,
) -> Option<Fault>
    requires job_ready { IsRunReady job.now values.now }
    requires lines { AreStarredCellMarks (shape_of job.now) lines.old.all_times.items }
    requires sought { IsKindScannedAt job.now time Kind.Edge }
    requires shows { ShowsRunAt job.now values.now time marked_planes.old.planes }
    requires steady { MatchesStarsWhereSettled job.now values.now marked_planes.old
        lines.old.events.items }
    ensures shows { ShowsRunAt job.now values.now time marked_planes.new.planes }
    ensures halo { IsHaloAsSignals job.now values.now time marked_planes.new.planes }
    ensures lines { lines.new.all_times ≡ lines.old.all_times }
    ensures events { AreEventMarks job.now time lines.new.events.items }
    ensures fault { MatchOption result (HasNoFaultOfKind job.now values.now time Kind.Edge)
        (λ f. IsFirstFaultOfKind job.now values.now time Kind.Edge f) }
{
    marked_planes.count_down_word_reads();
    lines.mark_lines_at(job, time);
    if set_halo_and_check_ring(marked_planes, values, job, lines) {
        return None;
    }
    let search = SoughtFaults {
        kind: Kind::Edge,
        time,
        near: lines.places().edges,
    };
    first_fault_of_kind(marked_planes, values, job, search)
}

// The first fault of a time before the last, where `next` is the place of the first stop that is not earlier. If there
// is none, `next` is then the place of the first later stop. At an odd time the cells of the halo become what their
// signals say.
fn fault_at_time(
    marked_planes: &mut MarkedPlanes,
    lines: &mut LineMarks,
    values: &Values,
    job: &Job,
    time: u32,
    next: &mut usize,
) -> Option<Fault>
    requires job_ready { IsRunReady job.now values.now }
    requires lines { AreStarredCellMarks (shape_of job.now) lines.old.all_times.items }
    requires time_before_end { time < job.now.steps }
    requires shows { ShowsRunAt job.now values.now time marked_planes.old.planes }
    requires next { IsNextStop job.now time next.old }
    requires steady { MatchesStarsWhereSettled job.now values.now marked_planes.old
        lines.old.events.items }
    ensures shows { ShowsRunAt job.now values.now time marked_planes.new.planes }
    ensures halo { time % 2 ≡ 1 → IsHaloAsSignals job.now values.now time marked_planes.new.planes }
    ensures lines { lines.new.all_times ≡ lines.old.all_times }
    ensures events { time % 2 ≡ 1 → AreEventMarks job.now time lines.new.events.items }
    ensures even_unchanged { time % 2 ≡ 0 →
        (marked_planes.new ≡ marked_planes.old) × (lines.new ≡ lines.old) }
    ensures fault { MatchOption result (IsTimeWithoutFault job.now values.now time next.new)
        (λ f. IsFirstFaultAt job.now values.now time f) }
{
    if time % 2 == 1 {
        if let Some(fault) = set_halo_and_find_edge_fault(marked_planes, lines, values, job, time) {
            return Some(fault);
        }
    }
    first_stop_fault(marked_planes, values, job, time, next)
}

// One step. Tells whether a cell of the box may have changed.
fn one_step(marked_planes: &mut MarkedPlanes, values: &Values, job: &Job, time: u32) -> bool
    requires job_ready { IsRunReady job.now values.now }
    requires shows { ShowsRunAt job.now values.now time marked_planes.old.planes }
    requires halo { time % 2 ≡ 1 →
        IsHaloAsSignals job.now values.now time marked_planes.old.planes }
    ensures next { ShowsRunAt job.now values.now (time + 1) marked_planes.new.planes }
    ensures stays { result ≡ false → ShowsRunAt job.now values.now time marked_planes.new.planes }
    ensures settled_if_even { time % 2 ≡ 0 →
        AreSettledBlocksUnchanged marked_planes.old marked_planes.new }
    ensures settled_if_odd { time % 2 ≡ 1 → (u : ℕ) →
        u < marked_planes.old.planes.stride * marked_planes.old.planes.rows →
        IsBlockSettled marked_planes.new u →
        AreCellsSameAtNumber u marked_planes.old.planes marked_planes.new.planes }
{
    if time % 2 == 0 {
        make_even_step(marked_planes, values, job, time)
    } else {
        make_odd_step(marked_planes, values, job, time)
    }
}

// The least fault of the job, by a run under all assignments at once. Where an odd step and the even one after it
// change nothing, nothing changes before the next time at which a line of ring or halo begins or ends, and the times up
// to it or to the next stop are leapt over.
#[tactic(auto, using(crate::proofs::Steady::steady_at_start))]
fn least_fault(alloc: Global, values: &Values, job: &Job) -> Result<Option<Fault>, AllocError>
    requires { IsRunReady job.now values.now }
    ensures { IfOk result (λ o. IsLeastFault job.now o) }
{
    let area = job.area();
    let mut marked_planes = MarkedPlanes::new(
        alloc,
        area.w as usize,
        area.h as usize,
        values.words(),
    )?;
    let mut lines = LineMarks::new(alloc, job)?;
    put_start(&mut marked_planes, values, job);
    let steps = job.steps();
    let mut next = 0;
    let mut time = 0;
    let mut changed = true;
    while time < steps {
        if let Some(fault) = fault_at_time(
            &mut marked_planes,
            &mut lines,
            values,
            job,
            time,
            &mut next,
        ) {
            return Ok(Some(fault));
        }
        let before = changed;
        changed = one_step(&mut marked_planes, values, job, time);
        time = next_time(job, time, steps, before | changed, next);
    }
    if let Some(fault) = first_stop_fault(&marked_planes, values, job, steps, &mut next) {
        return Ok(Some(fault));
    }
    if is_end_correct(&marked_planes, values, job) {
        return Ok(None);
    }
    let search = SoughtFaults {
        kind: Kind::End,
        time: steps,
        near: EventPlaces::NO_PLACES,
    };
    Ok(first_fault_of_kind(&marked_planes, values, job, search))
}

// The least fault of the job. If a used gate lacks a row under every assignment, the job has no fault and is not run.
#[tactic(auto, using(crate::proofs::Leasts::none_undefined))]
fn least_fault_if_defined(
    alloc: Global,
    values: &Values,
    job: &Job,
) -> Result<Option<Fault>, AllocError>
    requires { IsRunReady job.now values.now }
    ensures { IfOk result (λ o. IsLeastFault job.now o) }
{
    if values.has_defined_assignment() {
        least_fault(alloc, values, job)
    } else {
        Ok(None)
    }
}

// The least fault of the job, and its least keep fault.
fn least_fault_and_keep_fault(
    alloc: Global,
    job: &Job,
) -> Result<(Option<Fault>, Option<KeepFault>), AllocError>
    ensures fault { IfOk result (λ o. IsLeastFault job.now o.0) }
    ensures keep { IfOk result (λ o. IsLeastKeepFault job.now o.1) }
{
    job.prove_valid();
    let values = Values::of(alloc, job)?;
    let fault = least_fault_if_defined(alloc, &values, job)?;
    let keep = find_least_keep_fault(&values, job);
    Ok((fault, keep))
}

/// Runs a job under all assignments of its cuts, for a module of this number of the certificate with this digest.
///
/// Findings are made by this function, and by [`Finding::for_job`] and [`Finding::for_same_shape`] from other findings.
///
/// # Errors
///
/// Out of memory. Nothing else prevents a finding.
pub fn run_job(
    alloc: Global,
    digest: [u8; 32],
    number: usize,
    job: Arc<Job>,
) -> Result<Finding, AllocError>
    ensures digest { IfOk result (λ f. digest_of f ≡ digest) }
    ensures number { IfOk result (λ f. number_of f ≡ number) }
    ensures job { IfOk result (λ f. job_of f ≡ arc_value job) }
    ensures least_fault { IfOk result (λ f. IsLeastFault (arc_value job) (fault_of f)) }
    ensures least_keep_fault { IfOk result (λ f. IsLeastKeepFault (arc_value job)
        (keep_fault_of f)) }
{
    let (fault, keep) = least_fault_and_keep_fault(alloc, &job)?;
    Ok(Finding::new(digest, number, job, fault, keep))
}
