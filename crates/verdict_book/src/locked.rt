//! The value under the lock.
ghost use Rattle.std.specs.Prelude.{◌≡◌, ◌≢◌, ◌<◌, ◌≤◌, false, [], length, sum_by, vec_len, IfErr, IfOk, OnErr, OnOk};
ghost use Rattle.core_book.specs.Book.{IsHistoryReplayed, after_filing, held_finding_count, reply_to};
ghost use Rattle.core_book.specs.Replay.{has_closing};
ghost use Rattle.local_run.specs.Shown.{digest_of, job_of, number_of};

use crate::filings::Filings;
use crate::gathering::Gathered;
use crate::share::Share;
use core_book::{BookState, NotFiled, Reply};
use local_run::Finding;
use std::sync::ledger;
use std::sync::ledger::Ledger;

/// An open book, and its two ledgers.
///
/// One ledger has the length of the book's history for its total. The other has how many findings the book holds. By
/// the type of the book its history replays to it, and each finding that it holds is honest. By this type the history
/// has no closing entry.
#[derive(Drop)]
pub struct LockedBook<F: Filings, A: Ledger> {
    pub(crate) state: BookState,
    pub(crate) filings: ledger::Book<F>,
    pub(crate) acceptances: ledger::Book<A>,
    ghost own_digest: { state.digest ≡ F.digest },
    ghost own_jobs: { state.jobs ≡ F.jobs },
    ghost open_book: { state.closed ≡ false },
    ghost no_closing: { has_closing state.history ≡ false },
    ghost filed: { length state.history ≡ filings.total },
    ghost accepted: { held_finding_count state ≡ acceptances.total },
    ghost few: { held_finding_count state ≤ length state.history },
}

impl<F: Filings, A: Ledger> LockedBook<F, A> {
    ghost use Rattle.core_book.specs.declared.reply.Reply.TheVariants.{Closed};
    ghost use Rattle.verdict_book.specs.Counts.{counts_after_reply};
    ghost use Rattle.verdict_book.specs.Replies.{IsReplyOf};

    pub(crate) fn new(
        state: BookState,
        filings: ledger::Book<F>,
        acceptances: ledger::Book<A>,
    ) -> LockedBook<F, A>
        requires ledger_names_book { (state.digest ≡ F.digest) × (state.jobs ≡ F.jobs) }
        requires history_empty { state.history ≡ [] }
        requires totals { (filings.total ≡ 0) × (acceptances.total ≡ 0) }
    {
        state.prove_replays();
        LockedBook {
            state,
            filings,
            acceptances,
        }
    }

    /// Files a finding, in one turn under the lock.
    pub(crate) fn file(
        &mut self,
        mine: &mut Share<F, A>,
        finding: Finding,
    ) -> Result<Reply, NotFiled>
        ensures reply { IfOk result (λ r. r ≡ reply_to self.old.state finding) }
        ensures after { OnOk result (self.new.state ≡ after_filing self.old.state finding) }
        ensures of_book { IfOk result (IsReplyOf F.digest F.jobs (digest_of finding)
            (number_of finding) (job_of finding)) }
        ensures not_closed { IfOk result (λ r. r ≢ Closed) }
        ensures counted { IfOk result (λ r. mine.new ≡ counts_after_reply mine.old r) }
        ensures unchanged { OnErr result ((self.new.state ≡ self.old.state)
            × (mine.new ≡ mine.old)) }
        ensures returned { IfErr result (λ e. e.finding ≡ finding) }
    {
        let LockedBook {
            state,
            filings,
            acceptances,
        } = self;
        let Share {
            filed,
            accepted,
            filings: share,
            acceptances: accepted_share,
        } = mine;
        filings.audit(share);
        acceptances.audit(accepted_share);
        let reply = state.file(finding)?;
        filings.add(share, 1);
        *filed += 1;
        if let Reply::Accepted = reply {
            acceptances.add(accepted_share, 1);
            *accepted += 1;
            return Ok(reply);
        }
        Ok(reply)
    }

    /// Returns what all shares counted, with the book.
    pub(crate) fn total(self, mut shares: Vec<Share<F, A>>) -> Gathered
        requires filings { (0 < F.parts) × (F.parts ≤ vec_len shares) }
        requires acceptances { (0 < A.parts) × (A.parts ≤ vec_len shares) }
        ensures state { result.state ≡ self.state }
        ensures replays { IsHistoryReplayed result.state }
        ensures filed { result.filed ≡ length self.state.history }
        ensures all_filed { result.filed ≡ sum_by (λ s. s.filed) shares.items }
        ensures accepted { result.accepted ≡ held_finding_count self.state }
        ensures all_accepted { result.accepted ≡ sum_by (λ s. s.accepted) shares.items }
    {
        let LockedBook {
            state,
            mut filings,
            mut acceptances,
        } = self;
        let most = state.history().len();
        let first = shares.pop().unwrap();
        let Share {
            mut filed,
            mut accepted,
            filings: mut all_filings,
            acceptances: mut all_acceptances,
        } = first;
        while let Some(share) = shares.pop() {
            let Share {
                filed: more,
                accepted: more_accepted,
                filings: part,
                acceptances: accepted_part,
            } = share;
            all_filings.merge(part);
            all_acceptances.merge(accepted_part);
            filings.audit(&mut all_filings);
            acceptances.audit(&mut all_acceptances);
            filed += more;
            accepted += more_accepted;
        }
        filings.audit(&mut all_filings);
        acceptances.audit(&mut all_acceptances);
        prove!(filed as usize <= most);
        Gathered {
            state,
            filed,
            accepted,
        }
    }
}
