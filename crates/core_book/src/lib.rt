//! The book of a certificate, which holds for each module the finding of its run, and what a verdict is.
//!
//! A book holds a finding only if the finding is for the book's certificate, for one of its numbers and for the book's
//! job of that number. It holds at most one finding for a number. `specs/Book.antt` defines books, the reply to a
//! finding, and the book after a filing. The history replays to the book, by `specs/Replay.antt`.
//!
//! The core is the machine of one thread whose steps the threads of a check make: seats claim numbers, findings are
//! filed, and numbers are lost. `specs/Core.antt` has its steps, and `specs/Claims.antt` the answers to claims.
//!
//! `specs/Verdicts.antt` defines the verdict on a certificate. The crate `audit_core` concludes it.
#![tactic(auto)]

mod book;
mod claim;
mod filling;
pub mod laws;
mod log_entry;
mod machine;
mod reply;
mod verdict;

pub use book::{BookState, NotFiled};
pub use claim::Claim;
pub use filling::{fill, fill_open_book};
pub use log_entry::{Filing, LogEntry};
pub use machine::{Answer, Core, Event, NotApplied};
pub use reply::{Mismatch, Reply};
pub use verdict::{LeastFaults, ReportLine, Unfinished, Verdict};
