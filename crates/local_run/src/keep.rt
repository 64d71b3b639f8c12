//! The gates that a module keeps, and the assignments under which they have no row.
ghost use Rattle.local_run.specs.Faults.{IsLeastKeepFault};
ghost use Rattle.local_run.specs.Scans.{IsRunReady};

use crate::fault::KeepFault;
use crate::values::Values;
use module_job::Job;

/// Returns the least keep fault of a job, by gate and assignment, if there is one.
///
/// Each assignment counts, also one under which an earlier gate has no row and the run looks for no faults.
#[tactic(auto, using(crate::proofs::Leasts::keep_free_more))]
pub fn find_least_keep_fault(values: &Values, job: &Job) -> Option<KeepFault>
    requires { IsRunReady job.now values.now }
    ensures { IsLeastKeepFault job.now result }
{
    let gates = job.wiring().gates();
    for gate in 0..gates {
        if job.keeps_gate(gate as u16) {
            if let Some(assignment) = values.first_undefined_assignment(gate) {
                return Some(KeepFault { gate, assignment });
            }
        }
    }
    None
}
