//! Readers and writers that know whether they have failed.
#![tactic(auto)]

mod over;
mod prompting;
mod retrying;
mod streams;

pub use over::Over;
pub use prompting::Prompting;
pub use retrying::Retrying;
pub use streams::{Sink, Source};
