//! How a command ends whose text was read.

/// The end of a command whose answer was written.
#[derive(Clone, Copy, Debug, PartialEq, Eq)]
pub enum Outcome {
    /// The verdict is yes, or another command is done.
    Yes,
    /// The verdict is no, a ball left the rectangle, or a gate has no row for its inputs.
    No,
    /// The text was refused.
    Refused,
}

/// The answer of a command to a text.
#[derive(Drop)]
pub struct Answered {
    pub outcome: Outcome,
    /// The bytes to be written.
    pub output: Vec<u8>,
}
