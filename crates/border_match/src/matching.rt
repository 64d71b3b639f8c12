//! The border faults of the modules of a certificate.
ghost use Rattle.std.specs.Prelude.{◌≡◌, IfOk, None, map, replicate};
ghost use Rattle.std.specs.Arc.{arc_value};
ghost use Rattle.circuit.specs.Bridge.{circuit_of};
ghost use Rattle.certificate.specs.Grammars.{modules_in};
ghost use Rattle.certificate_lines.specs.Settings.{setting_of};
ghost use Rattle.certificate.specs.Jobs.{AreJobsOf};
ghost use Rattle.border_match.specs.BorderFaults.{AreBorderFaultsOf};

use crate::borders::Borders;
use crate::extents::edge_event_extents;
use crate::fault::BorderFault;
use certificate::{Cert, Job};
use module_box::Box2;
use std::alloc::{AllocError, Global};
use std::sync::Arc;

// No fault for each of `count` modules.
fn no_border_fault_for_each(
    alloc: Global,
    count: usize,
) -> Result<Vec<Option<BorderFault>>, AllocError>
    ensures { IfOk result (λ faults. faults.items ≡ replicate count None) }
{
    vec![in alloc; None; count]
}

/// Returns the least border fault of each module of the certificate, by time, then y, then x, or `None` if it has none.
///
/// There is one entry for each module, in their order. `specs/BorderFaults.antt` defines border faults. In version 2 no
/// module has one. The jobs are the certificate's, as [`Cert::jobs`](certificate::Cert::jobs) makes them.
///
/// It takes memory for the columns and rows of each module's edge lines, and the answer. For one module at a time it
/// takes memory for the numbers of the modules near it, and for a mark for each halo line.
pub fn match_borders(
    alloc: Global,
    cert: &Cert,
    jobs: &[Arc<Job>],
) -> Result<Vec<Option<BorderFault>>, AllocError>
    requires { AreJobsOf (circuit_of cert.now.circuit) cert.now.layout (modules_in cert.now)
        (map arc_value jobs.now) }
    ensures { IfOk result (λ faults. AreBorderFaultsOf (setting_of cert.now.circuit cert.now.layout)
        (modules_in cert.now) faults.items) }
{
    let count = cert.modules();
    if cert.is_haloless() {
        return no_border_fault_for_each(alloc, count);
    }
    let size = cert.size();
    let whole = Box2 {
        x: 0,
        y: 0,
        w: size.w,
        h: size.h,
    };
    let owners = cert.owners();
    let extents = edge_event_extents(alloc, jobs)?;
    let mut faults = Vec::new(alloc);
    for job in jobs {
        let borders = Borders {
            whole,
            owners,
            jobs,
            job,
        };
        faults.push(borders.least_fault(alloc, &extents)?)?;
    }
    Ok(faults)
}
