//! Texts of sections: lines, words, numbers and names, and the refusals of their readers.
#![tactic(auto)]

mod code;
mod fault;
mod feed;
mod hints;
mod keyword;
pub mod laws;
mod limits;
mod name;
mod names;
mod number;
mod ports;
mod reader;
mod section;
mod seed;
mod spelling;
mod words;

pub use code::RefusalCode;
pub use fault::{PushFault, ReadFault, Refusal};
pub use feed::{Feed, Line};
pub use hints::NameHints;
pub use keyword::is_keyword;
pub use limits::{Limits, MAX_GATES, MAX_MODULES, MAX_SIDE, MAX_STEPS, MAX_TEXT_BYTES, MAX_WIRES};
pub use name::Name;
pub use names::Names;
pub use number::{read_number, take_number};
pub use ports::PortNames;
pub use reader::{Section, read_section};
pub use section::{Form, LineFault};
pub use seed::Seed;
pub use spelling::{print_number, print_word};
pub use words::{FiveWords, FourWords, ThreeWords};
