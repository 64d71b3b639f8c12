//! Each public type and call of the specification, by the crate and the name given there.
//!
//! A change that loses one of them, or asks more of its caller, is refused when this crate is proved. Nothing here is
//! run.
//!
//! These differ. The fields of `Layout` are read by methods. A `CircuitFault` has a `RefusalCode`, which has a number.
//! The steps of a delay in a `TimeLine` or a `ReportLine` are called `wanted`. `Cert::groups` and `Cert::times`
//! allocate and return a list of their own. `work` takes the groups of the jobs, and no digest. `local_values` is a
//! call of the wiring that `Locals::into_parts` gives.
#![tactic(auto)]

pub mod commands;
pub mod designs;
pub mod jobs;
pub mod planes;
pub mod texts;
pub mod verdicts;
pub mod workers;
