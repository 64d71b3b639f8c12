//! The verdict on a certificate, from what a book holds.
//!
//! There is a verdict only if a finding is held for each module's own job. It is yes if
//!
//! - no job has a fault or a keep fault,
//! - no border has a fault,
//! - a module keeps each inverse gate,
//! - and the rules on delays and meetings are kept.
//!
//! Else it is no, with the least faults in the order of the modules, the inverse gates that no module keeps, and all
//! delays and meetings. `core_book/specs/Verdicts.antt` has the definitions. The crate `soundness` proves what a yes
//! means for the whole plane, and the contract of [`conclude`] says it.
#![tactic(auto)]

mod concluding;
pub mod laws;

pub use concluding::{conclude, conclude_from_full_book};
pub use core_book::{
    Answer, BookState, Claim, Core, Event, Filing, LeastFaults, LogEntry, Mismatch, NotApplied,
    NotFiled, Reply, ReportLine, Unfinished, Verdict, fill, fill_open_book,
};
