//! The answer to a text that is refused.
ghost use Rattle.std.specs.Prelude.{IfOk};
ghost use Rattle.answers.specs.BundleReading.{TellsRefusal};

use crate::outcome::{Answered, Outcome};
use report::refusal_text;
use section_text::ReadFault;
use std::alloc::{AllocError, Global};

/// Returns the line for a refusal.
///
/// # Errors
///
/// Out of memory, also if that is the fault.
pub fn refusal_answer(alloc: Global, fault: ReadFault) -> Result<Answered, AllocError>
    ensures refusal_told { IfOk result (λ answered. TellsRefusal fault answered.output.items
        answered.outcome) }
{
    match fault {
        ReadFault::Memory => Err(AllocError),
        ReadFault::Refused(refusal) => Ok(Answered {
            outcome: Outcome::Refused,
            output: refusal_text(alloc, refusal)?,
        }),
    }
}
