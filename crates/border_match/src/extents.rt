//! The columns and rows that the events of a module's ring take up.
//!
//! Most events are far from most neighbours of a module. A neighbour that these columns and rows do not touch need not
//! look at any of them.
ghost use Rattle.std.specs.Prelude.{map, IfOk};
ghost use Rattle.std.specs.Arc.{arc_value};
ghost use Rattle.border_match.specs.Surroundings.{AreEdgeEventExtents, IsExtentOfEvents, IsEdgeEventExtent};

use crate::window::Window;
use certificate::Job;
use module_box::TimedSignal;
use module_job::Shape;
use std::alloc::{AllocError, Global};
use std::sync::Arc;

// Returns columns and rows that hold the cells of all these events.
fn extent_of_events(events: &[TimedSignal]) -> Window
    ensures { IsExtentOfEvents events.now result }
{
    let mut extent = Window::EMPTY;
    for event in events {
        extent.include(event.at.cell);
    }
    extent
}

// Returns columns and rows that hold the cells of the events of a job's ring, counted from the corner of its box.
fn edge_event_extent(job: &Job) -> Window
    ensures { IsEdgeEventExtent job.now result }
{
    let shape: &Shape = job.shape();
    extent_of_events(shape.edges().events())
}

/// Returns, for each job, columns and rows that hold the cells of the events of its ring, counted from the corner of
/// its box.
pub(crate) fn edge_event_extents(
    alloc: Global,
    jobs: &[Arc<Job>],
) -> Result<Vec<Window>, AllocError>
    ensures { IfOk result (λ extents. AreEdgeEventExtents (map arc_value jobs.now) extents.items) }
{
    let mut extents = Vec::with_capacity(alloc, jobs.len())?;
    for job in jobs {
        extents.push(edge_event_extent(job))?;
    }
    Ok(extents)
}
