//! The commands and the whole program, over any reader and any writer.
#![tactic(auto)]

mod auditing;
mod bundle;
mod check;
mod digesting;
mod fault;
mod front;
pub mod laws;
mod preparing;
mod stream;

pub use answers::{Answered, Outcome};
pub use auditing::{Audited, audit};
pub use bundle::check_text;
pub use fault::CheckFault;
pub use front::{Streams, WORDS_REFUSED, program, write_fault_and_get_status};
pub use job_pool::{Gate, OpenGate};
pub use section_text::{Feed, PushFault};
pub use stream::{check_stream, migrate_stream, modules_stream, run_stream, value_stream};
pub use streams::{Over, Prompting, Retrying, Sink, Source};
