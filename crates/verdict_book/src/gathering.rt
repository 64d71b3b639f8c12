//! The end of a locked book.
ghost use Rattle.std.specs.Prelude.{◌≡◌, ◌<◌, ◌↔◌, false, length, sum_by, vec_len, IfErr, IfOk, IsErr};
ghost use Rattle.core_book.specs.Book.{IsHistoryReplayed, held_finding_count};
ghost use Rattle.core_book.specs.Replay.{has_closing};

use crate::book::Book;
use crate::filings::Filings;
use crate::share::Share;
use core_book::BookState;
use std::sync::ledger::Ledger;

/// The book out of its lock, and what all its shares counted.
#[derive(Drop)]
pub struct Gathered {
    pub state: BookState,
    /// How many replies were given.
    pub filed: u64,
    /// How many of them were `Accepted`.
    pub accepted: u64,
}

/// The book and the shares that are there, since one is missing.
#[derive(Drop)]
pub struct NotAll<F: Filings, A: Ledger> {
    pub book: Book<F, A>,
    pub shares: Vec<Share<F, A>>,
}

/// Takes a book out of its lock, and adds up what all its shares counted. It takes no memory.
///
/// # Errors
///
/// `NotAll` if a share is missing. This is tested before any is joined, and all that was given comes back.
pub fn gather<F: Filings, A: Ledger>(
    book: Book<F, A>,
    shares: Vec<Share<F, A>>,
) -> Result<Gathered, NotAll<F, A>>
    ensures missing { IsErr result ↔ (vec_len shares < book) }
    ensures returned { IfErr result (λ e. (e.book ≡ book) × (e.shares ≡ shares)) }
    ensures ledger_names_book { IfOk result (λ g. (g.state.digest ≡ F.digest)
        × (g.state.jobs ≡ F.jobs)) }
    ensures replays { IfOk result (λ g. IsHistoryReplayed g.state) }
    ensures no_closing { IfOk result (λ g. has_closing g.state.history ≡ false) }
    ensures still_open { IfOk result (λ g. g.state.closed ≡ false) }
    ensures filed { IfOk result (λ g. g.filed ≡ length g.state.history) }
    ensures all_filed { IfOk result (λ g. g.filed ≡ sum_by (λ s. s.filed) shares.items) }
    ensures accepted { IfOk result (λ g. g.accepted ≡ held_finding_count g.state) }
    ensures all_accepted { IfOk result (λ g. g.accepted ≡ sum_by (λ s. s.accepted) shares.items) }
{
    if shares.len() < book.shares {
        return Err(NotAll { book, shares });
    }
    let Book { locked, .. } = book;
    Ok(locked.into_inner().total(shares))
}
