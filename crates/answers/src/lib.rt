//! The answer of each command to a text that was read whole.
#![tactic(auto)]

mod asking;
mod bundle;
mod design;
mod migration;
mod modules;
mod outcome;
mod refusing;
mod run;
mod value;

pub use bundle::{migrate_text, modules_text};
pub use design::{Design, read_design};
pub use outcome::{Answered, Outcome};
pub use refusing::refusal_answer;
pub use run::run_text;
pub use value::value_text;
