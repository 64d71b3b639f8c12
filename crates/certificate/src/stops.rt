//! The stops of a module, over the wires that the module knows.
ghost use Rattle.std.specs.Prelude.{◌<◌, ◌≡◌, map, IfOk, IsTrue};
ghost use Rattle.std.specs.List.{All};
ghost use Rattle.circuit.specs.Meaning.{wires};
ghost use Rattle.module_box.specs.Locals.{circuit_wire, is_among};
ghost use Rattle.module_job.specs.Signals.{renumber_stop};
ghost use Rattle.certificate.specs.StopLists.{stored_stop};

use crate::layout_tables::local_wire_number;
use certificate_lines::StoredStop;
use circuit::WireNo;
use module_box::{Locals, Moment};
use module_job::Stop;
use std::alloc::{AllocError, Global};

// A stop over the wires that the module knows.
fn local_stop(locals: &Locals, stop: &StoredStop) -> Stop
    requires { IsTrue (is_among locals.now.circuit_wires stop.now.wire) }
    ensures same_stop { renumber_stop (circuit_wire locals.now) result ≡ stored_stop stop.now }
    ensures own_wire { result.wire < wires locals.now.netlist }
{
    Stop {
        at: Moment {
            time: stop.time,
            cell: stop.cell(),
        },
        wire: local_wire_number(locals, WireNo::of(stop.wire)),
    }
}

/// Returns the stops of a module.
pub(crate) fn stops_of(
    alloc: Global,
    locals: &Locals,
    stops: &[StoredStop],
) -> Result<Vec<Stop>, AllocError>
    requires { All (λ s. IsTrue (is_among locals.now.circuit_wires s.wire)) stops.now }
    ensures same_stops { IfOk result (λ local. map (renumber_stop (circuit_wire locals.now))
        local.items ≡ map stored_stop stops.now) }
    ensures own_wires { IfOk result (λ local. All (λ s. s.wire < wires locals.now.netlist)
        local.items) }
{
    let mut local = Vec::with_capacity(alloc, stops.len())?;
    for stop in stops {
        local.push(local_stop(locals, stop))?;
    }
    Ok(local)
}
