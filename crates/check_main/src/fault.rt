//! Why a call over a reader and a writer gave no outcome.

use std::alloc::AllocError;
use thiserror::Error;

/// The fault of a command that did not end. `Display` shows it as the program's message.
#[derive(Clone, Copy, Debug, PartialEq, Eq, Drop, Error)]
#[error("{}", self.text())]
pub enum CheckFault {
    /// The reader failed.
    Read,
    /// The writer failed, or took no byte.
    Write,
    /// The reader gave more than 16 MiB, or 256 MiB behind the line `limits 2`.
    TooLong,
    /// There was no memory.
    Memory,
}

impl CheckFault {
    ghost use Rattle.std.specs.Prelude.{◌≡◌};
    ghost use Rattle.check_main.specs.Status.{fault_text};

    // What the program says of it.
    pub(crate) fn text(self) -> &'static str
        ensures { result.now ≡ fault_text self }
    {
        match self {
            CheckFault::Read => "read fault",
            CheckFault::Write => "write fault",
            CheckFault::TooLong => "text too long",
            CheckFault::Memory => "out of memory",
        }
    }
}

impl From<AllocError> for CheckFault {
    ghost use Rattle.std.specs.Prelude.{◌≡◌};
    ghost use Rattle.check_main.specs.declared.fault.CheckFault.TheVariants.{Memory};

    ghost from_gives = { λ _ fault. fault ≡ Memory };

    fn from(_: AllocError) -> CheckFault {
        CheckFault::Memory
    }
}
