//! `certificate`, `local_run` and `border_match`.
ghost use Rattle.std.specs.Prelude.{◌≡◌, ◌<◌, true, length, map};
ghost use Rattle.std.specs.Arc.{arc_value};
ghost use Rattle.certificate_lines.specs.Entries.{modules_of};
ghost use Rattle.module_job.specs.Groups.{AreKeys};

use bbm_rule::Cell;
use border_match::{BorderFault, match_borders};
use certificate::{
    Cert, Counts, Demand, Job, Shape, StopGap, TimeLine, print_certificate, read_certificate,
    shape_groups,
};
use circuit::Circuit;
use local_run::{Fault, Finding, KeepFault, Kind, run_job};
use pattern::Layout;
use section_text::{Feed, ReadFault};
use std::alloc::{AllocError, Global};
use std::sync::Arc;

/// Reads a certificate, and prints it.
pub fn read_and_print(
    alloc: Global,
    feed: &mut Feed,
    circuit: &Circuit,
    layout: &Layout,
) -> Result<Vec<u8>, ReadFault>
    requires { feed.old.closed ≡ true }
{
    let cert: Cert<'_> = read_certificate(alloc, feed, circuit, layout)?;
    match print_certificate(alloc, &cert) {
        Ok(text) => Ok(text),
        Err(_) => Err(ReadFault::Memory),
    }
}

/// Asks a certificate for what it says of module `number`.
pub fn ask_certificate(
    alloc: Global,
    cert: &Cert<'_>,
    number: usize,
) -> Result<(usize, [u8; 32], Counts), AllocError>
    requires { number < length (modules_of cert.now.entries) }
{
    let digest: [u8; 32] = cert.digest(alloc)?;
    let counts = cert.counts(number);
    let Counts {
        area,
        cuts,
        gates,
        edges,
        halos,
        stops,
    } = counts;
    let _ = (area.w, [cuts, gates, edges, halos, stops]);
    Ok((cert.modules(), digest, counts))
}

/// Asks a certificate for its groups, and for the times of its gates.
pub fn ask_groups(
    alloc: Global,
    cert: &Cert<'_>,
) -> Result<(Vec<usize>, Vec<TimeLine>), AllocError> {
    Ok((cert.groups(alloc)?, cert.times(alloc)?))
}

/// Returns the number of a line's gate, and its steps or its time.
pub fn gate_and_time(line: TimeLine) -> (usize, Option<u32>) {
    match line {
        TimeLine::Delay {
            gate,
            wanted: _,
            gap,
        } => match gap {
            StopGap::Steps(steps) => (gate, Some(steps)),
            StopGap::Missing | StopGap::Before => (gate, None),
        },
        TimeLine::Meet { gate, at } => (gate, at),
    }
}

/// Returns the groups of shapes by their keys.
pub fn group_shapes(
    alloc: Global,
    shapes: &[Arc<Shape>],
    keys: &[[u8; 32]],
) -> Result<Vec<usize>, AllocError>
    requires { AreKeys (map arc_value shapes.now) keys.now }
{
    shape_groups(alloc, shapes, keys)
}

/// Runs the jobs of a certificate and matches its borders.
pub fn run_and_match(
    alloc: Global,
    cert: &Cert<'_>,
) -> Result<(Vec<Finding>, Vec<Option<BorderFault>>), AllocError> {
    let jobs: Vec<Arc<Job>> = cert.jobs(alloc)?;
    let digest = cert.digest(alloc)?;
    let borders = match_borders(alloc, cert, &jobs)?;
    let mut findings = Vec::new(alloc);
    for number in 0..jobs.len() {
        findings.push(run_job(alloc, digest, number, jobs[number].clone()?)?)?;
    }
    Ok((findings, borders))
}

/// Asks a finding for all that it holds, and makes one of another job of the same shape.
pub fn ask_finding(finding: &Finding, job: Arc<Job>) -> Option<Finding> {
    let _: ([u8; 32], usize) = (finding.digest(), finding.number());
    let _: &Arc<Job> = finding.job();
    let _: (Option<Fault>, Option<KeepFault>) = (finding.fault(), finding.keep());
    finding.for_job(finding.number(), job)
}

/// Returns when and where a fault is, by its kind.
pub fn time_and_cell(fault: Fault) -> (u32, Cell, u32, bool) {
    let Fault {
        time,
        kind,
        cell,
        assignment,
    } = fault;
    let is_at_border = match kind {
        Kind::Edge => true,
        Kind::Stop | Kind::End => false,
    };
    (time, cell, assignment, is_at_border)
}

/// Returns the gate of a keep fault, and the time and the cell of a border fault.
pub fn gate_and_place(keep: KeepFault, border: BorderFault) -> (usize, u32, u32, Cell) {
    let KeepFault { gate, assignment } = keep;
    let BorderFault { time, cell } = border;
    (gate, assignment, time, cell)
}

/// Returns the wire of a demand.
pub fn wire_of_demand(demand: Demand) -> Option<u16> {
    match demand {
        Demand::Dead | Demand::Live | Demand::Any => None,
        Demand::Wire(wire) => Some(wire),
    }
}
