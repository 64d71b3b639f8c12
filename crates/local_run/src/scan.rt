//! The first fault of a kind at a time.
ghost use Rattle.std.specs.Prelude.{◌≡◌, ◌+◌, ◌*◌, ◌<◌, ◌≤◌, IsTrue, MatchOption};
ghost use Rattle.circuit.specs.Meaning.{wires};
ghost use Rattle.bbm_rule.specs.Boxes.{in_box};
ghost use Rattle.local_run.specs.Faults.{assignments};
ghost use Rattle.local_run.specs.Places.{box_coord};
ghost use Rattle.module_job.specs.Jobs.{job_demand};
ghost use Rattle.module_job.specs.Signals.{IsDemandWireBelow};
ghost use Rattle.local_run.specs.Scans.{IsFirstFaultOfKind, IsDefinedAndHasFault, HasNoFaultOfKind, IsLeastBelow, IsStopMissed, IsNextStop, IsRunReady, IsKindScannedAt, IsScanStride, ShowsRunAt};

use crate::fault::{Fault, Kind};
use crate::lines::EventPlaces;
use crate::places::{box_cell_at, column_and_row_of, demand_at, edge_signal_at, is_in_ring};
use crate::values::Values;
use lanes::{MarkedPlanes, Planes};
use module_box::Signal;
use module_job::{Demand, Job, Stop};

/// The kind and the time of the faults that are sought.
#[derive(Clone, Copy)]
pub struct SoughtFaults {
    pub kind: Kind,
    pub time: u32,
    /// The places at which edge lines of the time are looked for first.
    pub near: EventPlaces,
}

/// Returns the least assignment under which the cell at a column and row of the box is not, at the last time, what it
/// must be.
#[tactic(auto, using(crate::proofs::Firsts::end_least, crate::proofs::Firsts::inner_in_box, crate::proofs::Scans::row_from))]
pub fn first_end_fault_assignment(
    planes: &Planes,
    values: &Values,
    job: &Job,
    demand: Demand,
    x: usize,
    y: usize,
) -> Option<u32>
    requires job_ready { IsRunReady job.now values.now }
    requires shows { ShowsRunAt job.now values.now job.now.steps planes.now }
    requires place { (x < job.now.area.w) × (y < job.now.area.h) }
    requires demand { demand
        ≡ job_demand job.now (box_coord job.now.area.x x) (box_coord job.now.area.y y) }
    requires wire_exists { IsDemandWireBelow (wires job.now.locals.netlist) demand }
    ensures { IsLeastBelow (assignments job.now)
        (λ a. IsDefinedAndHasFault job.now values.now a job.now.steps Kind.End
        (box_coord job.now.area.x x) (box_coord job.now.area.y y)) result }
{
    let signal = match demand {
        Demand::Dead => Signal::Zero,
        Demand::Live => Signal::One,
        Demand::Wire(wire) => Signal::Wire(wire),
        Demand::Any => return None,
    };
    values.first_difference_where_defined(planes, 1 + x, 1 + y, signal)
}

/// Returns the least assignment under which the cell at a column and row of the box has a fault of the kind.
#[tactic(auto, using(crate::proofs::Firsts::end_least, crate::proofs::Firsts::inner_in_box, crate::proofs::Firsts::edge_not_found, crate::proofs::Scans::row_from))]
pub fn first_cell_fault_assignment(
    marked_planes: &MarkedPlanes,
    values: &Values,
    job: &Job,
    search: SoughtFaults,
    x: usize,
    y: usize,
) -> Option<u32>
    requires job_ready { IsRunReady job.now values.now }
    requires shows { ShowsRunAt job.now values.now search.time marked_planes.now.planes }
    requires sought { IsKindScannedAt job.now search.time search.kind }
    requires place { (x < job.now.area.w) × (y < job.now.area.h) }
    ensures { IsLeastBelow (assignments job.now)
        (λ a. IsDefinedAndHasFault job.now values.now a search.time search.kind
        (box_coord job.now.area.x x) (box_coord job.now.area.y y)) result }
{
    let planes = marked_planes.planes();
    match search.kind {
        Kind::Edge => {
            if !is_in_ring(job, x, y) {
                return None;
            }
            let signal = edge_signal_at(job, search.time, x, y, search.near);
            values.first_difference_where_defined(planes, 1 + x, 1 + y, signal)
        }
        Kind::Stop => None,
        Kind::End => {
            let demand = demand_at(job, x, y, 0);
            first_end_fault_assignment(planes, values, job, demand, x, y)
        }
    }
}

// How far apart the cells of row y are that can have a fault of the kind. Only cells of the ring have edge faults: of
// the rows between the first and the last one these are the first and the last cell.
fn scan_stride(kind: Kind, width: usize, height: usize, y: usize) -> usize
    requires { (2 ≤ width) × (width ≤ 64) × (y < height) × (height ≤ 64) }
    ensures { IsScanStride kind width height y result }
{
    match kind {
        Kind::Edge if 0 < y && y + 1 < height => width - 1,
        _ => 1,
    }
}

/// Returns the first fault of the kind at the time, by row, column and assignment, if there is one.
#[tactic(auto, using(crate::proofs::Firsts::free_from))]
pub fn first_fault_of_kind(
    marked_planes: &MarkedPlanes,
    values: &Values,
    job: &Job,
    search: SoughtFaults,
) -> Option<Fault>
    requires job_ready { IsRunReady job.now values.now }
    requires shows { ShowsRunAt job.now values.now search.time marked_planes.now.planes }
    requires sought { IsKindScannedAt job.now search.time search.kind }
    ensures { MatchOption result (HasNoFaultOfKind job.now values.now search.time search.kind)
        (λ f. IsFirstFaultOfKind job.now values.now search.time search.kind f) }
{
    let SoughtFaults { kind, time, .. } = search;
    let area = job.area();
    let width = area.w as usize;
    let height = area.h as usize;
    'rows: for y in 0..height {
        let stride = scan_stride(kind, width, height, y);
        let mut x = 0;
        'cells: while x < width {
            if let Some(assignment) = first_cell_fault_assignment(
                marked_planes,
                values,
                job,
                search,
                x,
                y,
            ) {
                let cell = box_cell_at(area, x, y);
                return Some(Fault {
                    time,
                    kind,
                    cell,
                    assignment,
                });
            }
            x += stride;
        }
    }
    None
}

// The least assignment under which the cell of a stop is not as its wire, at the stop's time.
fn first_stop_fault_assignment(
    marked_planes: &MarkedPlanes,
    values: &Values,
    job: &Job,
    stop: Stop,
) -> Option<u32>
    requires job_ready { IsRunReady job.now values.now }
    requires shows { ShowsRunAt job.now values.now stop.at.time marked_planes.now.planes }
    requires cell_in_box { IsTrue (in_box job.now.area stop.at.cell.x stop.at.cell.y) }
    requires own_wire { stop.wire < wires job.now.locals.netlist }
    ensures { IsLeastBelow (assignments job.now) (λ a. IsStopMissed job.now values.now a stop)
        result }
{
    let (x, y) = column_and_row_of(job, stop.at.cell);
    values.first_difference_where_defined(
        marked_planes.planes(),
        1 + x,
        1 + y,
        Signal::Wire(stop.wire),
    )
}

/// Returns the first fault of a stop at the time, if there is one.
///
/// `next` is the place of the first stop that is not earlier. If there is no fault, `next` is then the place of the
/// first later stop.
#[tactic(auto, using(crate::proofs::StopScans::one_more))]
pub fn first_stop_fault(
    marked_planes: &MarkedPlanes,
    values: &Values,
    job: &Job,
    time: u32,
    next: &mut usize,
) -> Option<Fault>
    requires job_ready { IsRunReady job.now values.now }
    requires shows { ShowsRunAt job.now values.now time marked_planes.now.planes }
    requires next { IsNextStop job.now time next.old }
    ensures { MatchOption result
        (HasNoFaultOfKind job.now values.now time Kind.Stop
        × IsNextStop job.now (time + 1) next.new)
        (λ f. IsFirstFaultOfKind job.now values.now time Kind.Stop f) }
{
    let mut place = *next;
    'stops: while place < job.stops() {
        let stop = job.stop(place);
        if stop.at.time != time {
            break;
        }
        if let Some(assignment) = first_stop_fault_assignment(marked_planes, values, job, stop) {
            return Some(Fault {
                time,
                kind: Kind::Stop,
                cell: stop.at.cell,
                assignment,
            });
        }
        place += 1;
    }
    *next = place;
    None
}
