//! The locked book.
ghost use Rattle.std.specs.Prelude.{◌≡◌, ◌≢◌, ◌≤◌, ◌<◌, ℕ, [], replicate, IfErr, IfOk, OnErr};
ghost use Rattle.local_run.specs.Shown.{digest_of, job_of, number_of};
ghost use Rattle.core_book.specs.declared.reply.Reply.TheVariants.{Closed};
ghost use Rattle.verdict_book.specs.Counts.{counts_after_reply, no_counts};
ghost use Rattle.verdict_book.specs.Replies.{IsReplyOf};

use crate::filings::Filings;
use crate::locked::LockedBook;
use crate::share::Share;
use core_book::{BookState, NotFiled, Reply};
use local_run::Finding;
use std::alloc::{AllocError, Global};
use std::marker::Model;
use std::sync::ledger::{Blank, Ledger};
use std::sync::{Mutex, Wait};

/// A book that threads share, over a ledger `F` of filings and a ledger `A` of acceptances. Contracts see it as the
/// number of its shares.
///
/// Its shares name both ledgers, so a share of another book does not fit. `F` has the digest and the jobs of the book.
#[derive(Drop)]
pub struct Book<F: Filings, A: Ledger> {
    pub(crate) locked: Mutex<LockedBook<F, A>>,
    pub(crate) shares: usize,
    pub(crate) digest: [u8; 32],
}

impl<F: Filings, A: Ledger> Model for Book<F, A> {
    ghost Value = { ℕ };

    ghost view = { λ b. b.shares };

    ghost invariant = { λ b. (b.shares ≡ F.parts) × (b.shares ≡ A.parts) × (0 < b.shares) × (b.digest ≡ F.digest) };
}

impl<F: Filings, A: Ledger> Book<F, A> {
    /// Puts a state without history under a lock, with 1 to 64 shares, of which none has counted anything.
    ///
    /// Each blank is its ledger's, and has as many parts as there are shares. The digest and the jobs are those that
    /// `F` names.
    ///
    /// # Errors
    ///
    /// Out of memory. All that was given is dropped.
    pub fn open(
        alloc: Global,
        f: Blank,
        a: Blank,
        state: BookState,
        shares: usize,
    ) -> Result<(Book<F, A>, Vec<Share<F, A>>), AllocError>
        requires filings { (f.name ≡ F.name) × (f.parts ≡ F.parts) × (f.parts ≡ shares) }
        requires acceptances { (a.name ≡ A.name) × (a.parts ≡ A.parts) × (a.parts ≡ shares) }
        requires count { (0 < shares) × (shares ≤ 64) }
        requires ledger_names_book { (state.digest ≡ F.digest) × (state.jobs ≡ F.jobs) }
        requires history_empty { state.history ≡ [] }
        ensures book { IfOk result (λ r. r.0 ≡ shares) }
        ensures shares { IfOk result (λ r. r.1.items ≡ replicate shares no_counts) }
    {
        let (filings, mut all_filings) = f.open::<F>();
        let (acceptances, mut all_acceptances) = a.open::<A>();
        let mut parts = Vec::with_capacity(alloc, shares)?;
        for _share in 0..shares {
            let share = Share::new(all_filings.split_off(1, 0), all_acceptances.split_off(1, 0));
            parts.push(share)?;
        }
        let digest = state.digest();
        let locked = Mutex::new(LockedBook::new(state, filings, acceptances));
        let book = Book {
            locked,
            shares,
            digest,
        };
        Ok((book, parts))
    }

    /// Returns the digest that the book is for.
    pub fn digest(&self) -> [u8; 32]
        ensures { result ≡ F.digest }
    {
        self.digest
    }

    /// Files a finding, in one turn under the lock, for which it may wait. The share counts the reply.
    ///
    /// The reply compares the finding's digest, number and job with those of the book. If all agree, it is `Accepted`
    /// or `Double` of its number.
    ///
    /// # Errors
    ///
    /// `NotFiled` if the book is out of memory. The finding then comes back, and the share is as before.
    pub fn file<R: Wait>(
        &self,
        rt: &R,
        mine: &mut Share<F, A>,
        finding: Finding,
    ) -> Result<Reply, NotFiled>
        ensures reply { IfOk result (IsReplyOf F.digest F.jobs (digest_of finding)
            (number_of finding) (job_of finding)) }
        ensures not_closed { IfOk result (λ r. r ≢ Closed) }
        ensures counted { IfOk result (λ r. mine.new ≡ counts_after_reply mine.old r) }
        ensures unchanged { OnErr result (mine.new ≡ mine.old) }
        ensures returned { IfErr result (λ e. e.finding ≡ finding) }
    {
        self.locked.lock(rt).file(mine, finding)
    }
}
