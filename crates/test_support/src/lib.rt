//! The part that the test crates share: a worked bundle, and readers of texts. The contracts of the readers say only
//! what the next call asks for.
#![tactic(auto)]

mod bundles;
mod readings;

pub use bundles::{BAD_BUNDLE, GOOD_BUNDLE};
pub use readings::{Work, circuit_of, closed_feed, layout_of, read_circuit_and_layout, work_of};
