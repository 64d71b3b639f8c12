//! The history of a book.

use crate::reply::Reply;

/// A filing in the history.
#[derive(Clone, Copy, Debug, PartialEq, Eq)]
pub struct Filing {
    /// The digest that the finding was made for.
    pub digest: [u8; 32],
    /// The number that it was made for.
    pub number: usize,
    /// Whether its job is the book's job of that number.
    pub same: bool,
    /// The answer to it.
    pub reply: Reply,
}

/// An entry of a history.
#[derive(Clone, Copy, Debug, PartialEq, Eq)]
pub enum LogEntry {
    /// A finding was filed, and answered.
    Filed(Filing),
    /// The book was closed.
    Closing,
}
