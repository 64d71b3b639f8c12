//! A book that threads share under a lock, and the shares by which they file into it.
//!
//! Whenever a thread takes the lock, the history of the book replays to it and has no closing entry. The digest and the
//! jobs of the book are those that its ledger of filings names. The type of the value under the lock has this
//! (`src/locked.rt`). Each share counts its replies. Two ledgers tie these counts to the history, so that `gather` can
//! check that no share is missing.
#![tactic(auto)]

mod book;
mod filings;
mod gathering;
mod locked;
mod share;

pub use book::Book;
pub use filings::Filings;
pub use gathering::{Gathered, NotAll, gather};
pub use share::Share;
