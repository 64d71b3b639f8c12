//! The desk that hands out the numbers of jobs to threads, and the workers that run the jobs and file their findings.
//!
//! A desk is one word, the next number, and a claim is one atomic step on it: it neither waits nor takes memory. The
//! view of a seat has what the seat knows of the word. `specs/Rule.antt` has the desk rule, which holds of the word and
//! all views at each moment. `specs/Seats.antt` says what a seat learns from a claim, by the core's own definition of a
//! claim.
//!
//! `work` gives each share of a book to a worker with a seat of its own. A worker files the findings of all members of
//! each group whose first number it drew. By the desk rule each number is drawn once. So if there was memory, as many
//! findings were filed as there are jobs.
#![tactic(auto)]

mod close;
mod desk;
mod gate;
mod links;
mod pool;
mod rule;
mod worker;

pub use close::{CloseFault, Closed};
pub use desk::{Desk, DeskSeat};
pub use gate::{Gate, OpenGate};
pub use pool::{WorkEnd, work};
