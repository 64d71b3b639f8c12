//! The state of a book.
ghost use Rattle.std.specs.Prelude.{◌≡◌, ◌<◌, ◌≤◌, ◌^◌, true, length, map, IfOk, IfErr, IfNone, IfSome, OnErr, OnOk, replicate, None, Some, option_copied};
ghost use Rattle.std.specs.Arc.{arc_value};

use crate::log_entry::{Filing, LogEntry};
use crate::reply::{Mismatch, Reply};
use certificate::Job;
use local_run::Finding;
use std::alloc::{AllocError, Global};
use std::marker::Model;
use std::sync::Arc;

/// A book: the jobs of a certificate, under its digest, the findings that it holds, and their history. Contracts see it
/// as a `BookView`.
///
/// It holds at most one finding for each number of a job. The history has an entry for each filing so far.
///
/// By its type each finding that is held was made for the book's digest, for the number that it is held for, and for
/// the book's job of that number. The history replays to what the book holds and to whether it is closed.
#[derive(Drop)]
pub struct BookState {
    digest: [u8; 32],
    jobs: Vec<Arc<Job>>,
    found: Vec<Option<Finding>>,
    accepted: usize,
    closed: bool,
    history: Vec<LogEntry>,
}

impl Model for BookState {
    ghost use Rattle.core_book.specs.Book.{BookView};

    ghost Value = { BookView };

    ghost use Rattle.local_run.specs.contracts.finding.Finding as finding;
    ghost use Rattle.std.specs.Coded.{codes};

    ghost coded = { Prim.hlevel (codes, finding.the_row.coded) };

    ghost use Rattle.core_book.specs.BookView.{AreBookFields, book_view};

    ghost view = { book_view };

    ghost invariant = { AreBookFields };
}

/// The finding that could not be filed, since the book was out of memory.
#[derive(Drop)]
pub struct NotFiled {
    pub finding: Finding,
}

impl BookState {
    ghost use Rattle.local_run.specs.Shown.{job_of, number_of};
    ghost use Rattle.core_book.specs.Verdicts.{IsFindingHeld};
    ghost use Rattle.core_book.specs.Book.{IsBook, BelongsToBook, IsHistoryReplayed, held_finding_count, after_closing, after_filing, accepted_count_after, filing_of, held_finding, is_job_of, new_book, reply_to};

    /// Creates an open book of these jobs, numbered from 0 in their order, without findings and without history.
    pub fn new(
        alloc: Global,
        digest: [u8; 32],
        jobs: Vec<Arc<Job>>,
    ) -> Result<BookState, AllocError>
        ensures { IfOk result (λ b. b ≡ new_book digest (map arc_value jobs.items)) }
    {
        let found = no_findings(alloc, jobs.len())?;
        Ok(BookState {
            digest,
            jobs,
            found,
            accepted: 0,
            closed: false,
            history: Vec::new(alloc),
        })
    }

    /// Files a finding.
    ///
    /// If the reply is `Accepted`, the book holds the finding from now on. Otherwise it drops the finding and keeps
    /// what it holds. The history gets an entry whatever the reply is.
    ///
    /// # Errors
    ///
    /// `NotFiled` if the book is out of memory. The book is then as before, and the finding comes back.
    pub fn file(&mut self, finding: Finding) -> Result<Reply, NotFiled>
        ensures reply { IfOk result (λ r. r ≡ reply_to self.old finding) }
        ensures after { IfOk result (λ _. self.new ≡ after_filing self.old finding) }
        ensures counted { IfOk result (λ r. held_finding_count self.new
            ≡ accepted_count_after (held_finding_count self.old) r) }
        ensures history_fits { OnOk result (length self.new.history < 2 ^ 64) }
        ensures unchanged { OnErr result (self.new ≡ self.old) }
        ensures returned { IfErr result (λ e. e.finding ≡ finding) }
    {
        let filing = self.filing_of(&finding);
        if self.history.reserve(1).is_err() {
            return Err(NotFiled { finding });
        }
        self.history.push_reserved(LogEntry::Filed(filing));
        let Reply::Accepted = filing.reply else {
            return Ok(filing.reply);
        };
        self.accepted += 1;
        self.found[filing.number] = Some(finding);
        Ok(filing.reply)
    }

    // The entry that the finding gets.
    fn filing_of(&self, finding: &Finding) -> Filing
        ensures { result ≡ filing_of self.now finding.now }
    {
        let number = finding.number();
        let same = self.has_job(number, finding.job());
        Filing {
            digest: finding.digest(),
            number,
            same,
            reply: self.reply_to(finding, same),
        }
    }

    // Whether this is the job of that number.
    fn has_job(&self, number: usize, job: &Job) -> bool
        ensures { result ≡ is_job_of self.now.jobs number job.now }
    {
        match self.jobs.get(number) {
            Some(own) => **own == *job,
            None => false,
        }
    }

    // The reply that the finding gets. `same`: its job is the book's of its number.
    fn reply_to(&self, finding: &Finding, same: bool) -> Reply
        requires { same ≡ is_job_of self.now.jobs (number_of finding.now) (job_of finding.now) }
        ensures { result ≡ reply_to self.now finding.now }
    {
        if self.closed {
            return Reply::Closed;
        }
        if finding.digest() != self.digest {
            return Reply::Stranger(Mismatch::Digest);
        }
        let number = finding.number();
        if number >= self.jobs.len() {
            return Reply::Stranger(Mismatch::Number);
        }
        if !same {
            return Reply::Stranger(Mismatch::Content);
        }
        match self.found(number) {
            Some(_) => Reply::Double(number),
            None => Reply::Accepted,
        }
    }

    /// Closes the book, with an entry that says so: from now on it answers `Closed` to each finding.
    ///
    /// # Errors
    ///
    /// Out of memory. The book is then as before.
    pub fn close(&mut self) -> Result<(), AllocError>
        ensures after { OnOk result (self.new ≡ after_closing self.old) }
        ensures unchanged { OnErr result (self.new ≡ self.old) }
    {
        self.history.push(LogEntry::Closing)?;
        self.closed = true;
        Ok(())
    }

    /// Returns whether the book is closed.
    pub fn is_closed(&self) -> bool
        ensures { result ≡ self.now.closed }
    {
        self.closed
    }

    /// Returns the filings and closings so far, in this order.
    ///
    /// They replay to what the book holds and to whether it is closed.
    pub fn history(&self) -> &[LogEntry]
        ensures entries { result.now ≡ self.now.history }
        ensures replays { IsHistoryReplayed self.now }
    {
        let history = &self.history;
        history.as_slice()
    }

    /// Shows that the history replays to the state. It does nothing.
    #[inline(always)]
    pub fn prove_replays(&self)
        ensures { IsHistoryReplayed self.now }
    {
        let _ = &self.history;
    }

    /// Returns the finding that is held for a number, or `None` if none is held, as for a number past the last job.
    ///
    /// It was made for the book's digest, for this number and for the book's job of it.
    pub fn found(&self, number: usize) -> Option<&Finding>
        ensures held { option_copied result ≡ held_finding self.now number }
        ensures finding_is_own { IfSome result (λ f. BelongsToBook self.now number f.now) }
    {
        match self.found.get(number) {
            Some(held) => held.as_ref(),
            None => None,
        }
    }

    /// Returns the finding that is held for a number, if it is of this job.
    pub fn held_finding_of_job(&self, number: usize, job: &Job) -> Option<&Finding>
        ensures finding_held { IfSome result (λ f. (held_finding self.now number ≡ Some f.now)
            × (job_of f.now ≡ job.now)) }
        ensures missing { IfNone result (¬ IsFindingHeld self.now number job.now) }
    {
        match self.found(number) {
            Some(finding) => {
                if **finding.job() == *job {
                    return Some(finding);
                }
                None
            }
            None => None,
        }
    }

    /// Returns for how many numbers a finding is held: at most as many as there are jobs.
    pub fn accepted(&self) -> usize
        ensures count { result ≡ held_finding_count self.now }
        ensures at_most { result ≤ length self.now.jobs }
    {
        self.accepted
    }

    // Whether a finding is held for each number.
    pub(crate) fn is_full(&self) -> bool
        ensures book { IsBook self.now }
        ensures full { result ≡ true → held_finding_count self.now ≡ length self.now.jobs }
    {
        self.accepted == self.jobs.len()
    }

    /// Returns the digest of the certificate that the book is for.
    pub fn digest(&self) -> [u8; 32]
        ensures { result ≡ self.now.digest }
    {
        self.digest
    }

    /// Returns the jobs, in the order of their numbers.
    pub fn jobs(&self) -> &[Arc<Job>]
        ensures { map arc_value result.now ≡ self.now.jobs }
    {
        let jobs = &self.jobs;
        jobs.as_slice()
    }
}

// As many places without a finding.
fn no_findings(alloc: Global, count: usize) -> Result<Vec<Option<Finding>>, AllocError>
    ensures { IfOk result (λ v. v.items ≡ replicate count None) }
{
    let mut found = Vec::with_capacity(alloc, count)?;
    for _place in 0..count {
        found.push(None)?;
    }
    Ok(found)
}
