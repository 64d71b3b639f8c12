//! `audit_core` and `report`.
ghost use Rattle.std.specs.Prelude.{◌≤◌, map, vec_len};
ghost use Rattle.std.specs.Arc.{arc_value};
ghost use Rattle.core_book.specs.Concluding.{AreJobsOfCertificate, modules, setting};
ghost use Rattle.border_match.specs.BorderFaults.{AreBorderFaultsOf};
ghost use Rattle.lemmas.specs.Bounds.{max_modules};

use audit_core::{
    Answer, BookState, Core, Event, Filing, LogEntry, Mismatch, NotApplied, NotFiled, Reply,
    ReportLine, Unfinished, Verdict, conclude, fill,
};
use border_match::BorderFault;
use certificate::{Cert, Job};
use local_run::Finding;
use report::{refusal_text, report_text};
use section_text::Refusal;
use std::alloc::{AllocError, Global};
use std::sync::Arc;

/// Makes a book, files a finding, closes the book, and asks it.
pub fn file_and_close(
    alloc: Global,
    digest: [u8; 32],
    jobs: Vec<Arc<Job>>,
    finding: Finding,
) -> Result<(Reply, usize, usize), AllocError> {
    let mut state = BookState::new(alloc, digest, jobs)?;
    let number = finding.number();
    let reply = match state.file(finding) {
        Ok(reply) => reply,
        Err(NotFiled { finding: _ }) => Reply::Closed,
    };
    state.close()?;
    let history: &[LogEntry] = state.history();
    let found: Option<&Finding> = state.found(number);
    let count = history.len() + if found.is_some() { 1 } else { 0 };
    Ok((
        reply,
        state.accepted(),
        if state.is_closed() { count } else { 0 },
    ))
}

/// Returns the number that a reply names.
pub fn number_of_reply(reply: Reply) -> Option<usize> {
    match reply {
        Reply::Closed | Reply::Accepted => None,
        Reply::Stranger(Mismatch::Digest | Mismatch::Number | Mismatch::Content) => None,
        Reply::Double(number) => Some(number),
    }
}

/// Returns what a history's entry says of a filing.
pub fn number_of_entry(entry: LogEntry) -> Option<(usize, bool, Reply)> {
    match entry {
        LogEntry::Filed(
            Filing {
                digest: _,
                number,
                same,
                reply,
            },
        ) => Some((number, same, reply)),
        LogEntry::Closing => None,
    }
}

/// Makes a core of two seats.
pub fn new_core(alloc: Global, digest: [u8; 32], jobs: Vec<Arc<Job>>) -> Result<Core, AllocError>
    requires { vec_len jobs ≤ max_modules }
{
    Core::new(alloc, digest, jobs, 2)
}

/// Applies an event of each kind to a core.
pub fn apply_to_core(core: &mut Core, finding: Finding) -> Option<(usize, usize, usize)> {
    if core.seats() == 0 {
        return None;
    }
    let claimed = core.apply(Event::Claim(0)).is_ok();
    let filed = core.apply(Event::File(finding)).is_ok();
    let lost = core.apply(Event::Lose(0)).is_ok();
    if core.seats() == 0 || !claimed || !filed || !lost {
        return None;
    }
    Some((core.next(), core.draws(0).len(), core.book().accepted()))
}

/// Returns the number that an answer names.
pub fn number_of_answer(answer: Result<Answer, NotApplied>) -> Option<usize> {
    match answer {
        Ok(Answer::Number(number)) => Some(number),
        Ok(Answer::Reply(reply)) => number_of_reply(reply),
        Ok(Answer::Empty | Answer::Lost) => None,
        Err(NotApplied { event: _ }) => None,
    }
}

/// Fills a book, and concludes.
pub fn fill_and_conclude(
    alloc: Global,
    cert: &Cert<'_>,
    jobs: &[Arc<Job>],
    borders: &[Option<BorderFault>],
    state: &mut BookState,
) -> Result<Verdict, Unfinished>
    requires own_jobs { AreJobsOfCertificate cert.now (map arc_value jobs.now) }
    requires borders { AreBorderFaultsOf (setting cert.now) (modules cert.now) borders.now }
{
    fill(alloc, state, cert.digest(alloc)?, jobs)?;
    conclude(alloc, cert, jobs, borders, state)
}

/// Returns the number without a finding.
pub fn number_missing(unfinished: Unfinished) -> Option<usize> {
    match unfinished {
        Unfinished::Missing(number) => Some(number),
        Unfinished::Memory => None,
    }
}

/// Prints a report, or a refusal.
pub fn print_answer(
    alloc: Global,
    cert: &Cert<'_>,
    verdict: &Verdict,
    refusal: Refusal,
) -> Result<[Vec<u8>; 2], AllocError> {
    Ok([
        report_text(alloc, cert, verdict)?,
        refusal_text(alloc, refusal)?,
    ])
}

/// Returns the module or the gate that a verdict's first line names.
pub fn first_number(verdict: &Verdict) -> Option<usize> {
    let Verdict::No(lines) = verdict else {
        return None;
    };
    match lines.first()? {
        ReportLine::Local { module, fault: _ }
        | ReportLine::Keep { module, fault: _ }
        | ReportLine::Border { module, fault: _ } => Some(*module),
        ReportLine::Unkept { gate } => Some(*gate),
        ReportLine::Delay {
            gate,
            wanted: _,
            gap: _,
        } => Some(*gate),
        ReportLine::Meet { gate, at: _ } => Some(*gate),
    }
}
