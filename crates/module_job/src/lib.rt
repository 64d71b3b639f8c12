//! The job of a module: the data that the run of a module by itself needs.
//!
//! A job is kept as the corner of its box, its wires and gates of the circuit, and a shape, which other jobs may share.
//! `specs/Jobs.antt` defines jobs, and `specs/Shapes.antt` the job that a shape becomes when it is placed.
#![tactic(auto)]

mod cell_lists;
mod equality;
mod groups;
mod job;
mod keys;
pub mod laws;
mod shape;
mod sparse_numbers;
mod stops;
mod summaries;

pub use cell_lists::{EndDemands, StartSignals};
pub use groups::{job_groups, shape_groups};
pub use job::{Demand, Job, Stop, shift_to_origin};
pub use shape::Shape;
pub use stops::moved_stops;
