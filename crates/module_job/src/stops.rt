//! Stops at cells that lie further.
ghost use Rattle.std.specs.Prelude.{◌≡◌, IfOk, map};
ghost use Rattle.std.specs.List.{All};
ghost use Rattle.module_box.specs.Moves.{IsCellInShiftRange, IsSmallShift};
ghost use Rattle.module_job.specs.Shapes.{moved_stop};

use crate::job::Stop;
use module_box::{Moment, moved_cell};
use std::alloc::{AllocError, Global};

/// Returns the stop at the cell that lies `dx` columns and `dy` rows further. All these numbers are from -8192 to 8191.
pub(crate) fn moved_stop(stop: Stop, dx: i32, dy: i32) -> Stop
    requires cell { IsCellInShiftRange stop.at.cell }
    requires small_shift { IsSmallShift dx × IsSmallShift dy }
    ensures { result ≡ moved_stop dx dy stop }
{
    Stop {
        at: Moment {
            time: stop.at.time,
            cell: moved_cell(stop.at.cell, dx, dy),
        },
        wire: stop.wire,
    }
}

/// Returns the same stops at the cells that lie `dx` columns and `dy` rows further.
pub fn moved_stops(alloc: Global, stops: &[Stop], dx: i32, dy: i32) -> Result<Vec<Stop>, AllocError>
    requires cells { All (λ s. IsCellInShiftRange s.at.cell) stops.now }
    requires small_shift { IsSmallShift dx × IsSmallShift dy }
    ensures { IfOk result (λ v. v.items ≡ map (moved_stop dx dy) stops.now) }
{
    let mut moved = Vec::with_capacity(alloc, stops.len())?;
    for stop in stops {
        moved.push(moved_stop(*stop, dx, dy))?;
    }
    Ok(moved)
}
