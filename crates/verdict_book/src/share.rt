//! The shares of a book.
ghost use Rattle.std.specs.Prelude.{◌≡◌};
ghost use Rattle.verdict_book.specs.Counts.{no_counts};

use std::marker::Model;
use std::sync::ledger;
use std::sync::ledger::Ledger;

/// A part of a book's two ledgers. Contracts see it as its `Counts`.
///
/// It counts the replies to what was filed by it, and those of them that were `Accepted`.
#[derive(Drop)]
pub struct Share<F: Ledger, A: Ledger> {
    pub(crate) filed: u64,
    pub(crate) accepted: u64,
    pub(crate) filings: ledger::Share<F>,
    pub(crate) acceptances: ledger::Share<A>,
}

impl<F: Ledger, A: Ledger> Model for Share<F, A> {
    ghost use Rattle.std.specs.Prelude.{◌≡◌};
    ghost use Rattle.verdict_book.specs.Counts.{Counts};

    ghost Value = { Counts };

    ghost view = { λ s. record { filed = s.filed; accepted = s.accepted } };

    ghost invariant = { λ s. (s.filings.parts ≡ 1) × (s.filings.amount ≡ s.filed) × (s.acceptances.parts ≡ 1) × (s.acceptances.amount ≡ s.accepted) };
}

impl<F: Ledger, A: Ledger> Share<F, A> {
    /// Creates a share that counted nothing.
    pub(crate) fn new(filings: ledger::Share<F>, acceptances: ledger::Share<A>) -> Share<F, A>
        requires filings { (filings.parts ≡ 1) × (filings.amount ≡ 0) }
        requires acceptances { (acceptances.parts ≡ 1) × (acceptances.amount ≡ 0) }
        ensures { result ≡ no_counts }
    {
        Share {
            filed: 0,
            accepted: 0,
            filings,
            acceptances,
        }
    }

    /// Returns how many replies the share was given.
    pub fn filed(&self) -> u64
        ensures { result ≡ self.now.filed }
    {
        self.filed
    }

    /// Returns how many of the replies were `Accepted`.
    pub fn accepted(&self) -> u64
        ensures { result ≡ self.now.accepted }
    {
        self.accepted
    }
}
