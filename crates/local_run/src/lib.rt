//! Runs of modules by themselves, under all assignments of their cuts, and their findings.
//!
//! A module's run begins with the cells of its box that are live at time 0. An even step is made inside the box. An odd
//! step is made on the box together with the live cells of its halo, and cut back to the box. A fault is a cell that is
//! not as the module says: at an odd time a cell of the ring, at the time of a stop its cell, at the last time any cell
//! of the box. `specs/Runs.antt` and `specs/Faults.antt` have these definitions, over whole numbers, cells of the plane
//! and valuations.
//!
//! All assignments are run at once, by the steps of the crate `lanes`. The search goes through faults in their order,
//! so the first one that it finds is the least.
//!
//! A run skips:
//!
//! - a cell of ring or halo that is dead and has no line;
//! - the times up to the next line or stop, if two steps changed nothing;
//! - the search at the last time, if a look in no order finds no fault: at the cells that may be live, and at those
//!   that need not be dead.
#![tactic(auto)]

mod border;
mod ends;
mod fault;
mod finding;
mod keep;
pub mod laws;
mod leaps;
mod line_marks;
mod lines;
mod places;
mod run;
mod scan;
mod steps;
mod values;

pub use fault::{Fault, KeepFault, Kind};
pub use finding::Finding;
pub use run::run_job;
