//! Checks a certificate: has its modules run by workers, and reports what was found.
ghost use Rattle.std.specs.Prelude.{◌≡◌, ◌<◌, ◌≤◌, IfOk};
ghost use Rattle.answers.specs.BundleReading.{bundle_of_certificate};
ghost use Rattle.answers.specs.CheckText.{IsVerdictOn, SaysReport, verdict_outcome};
ghost use Rattle.border_match.specs.BorderFaults.{AreBorderFaultsOf};
ghost use Rattle.core_book.specs.Concluding.{modules, setting};
ghost use Rattle.check_main.specs.Audits.{IsAuditOf};
ghost use Rattle.check_main.specs.Preparing.{IsPreparedFor};

use crate::auditing::audit_new_book;
use crate::preparing::Prepared;
use answers::{Answered, Outcome};
use audit_core::conclude_from_full_book;
use border_match::BorderFault;
use certificate::Cert;
use core_book::{BookState, Verdict};
use job_pool::Gate;
use report::report_with_digest;
use std::alloc::{AllocError, Global};
use std::sync::Wait;
use std::thread::Threads;

/// Returns the report on a certificate, whose modules `workers` workers run.
pub(crate) fn report_on<G: Gate + Sync, R: Threads + Wait + Sync>(
    rt: &R,
    alloc: Global,
    cert: &Cert<'_>,
    prepared: Prepared,
    workers: usize,
    gate: &G,
) -> Result<Answered, AllocError>
    requires workers { (0 < workers) × (workers ≤ 64) }
    requires prepared { IsPreparedFor cert.now prepared }
    ensures says { IfOk result (λ answered. SaysReport (bundle_of_certificate cert.now)
        answered.output.items answered.outcome) }
{
    let Prepared { state, borders } = prepared;
    let audited = audit_new_book(rt, alloc, cert, state, workers, gate)?;
    let verdict = verdict_from(alloc, cert, &borders, &audited.state)?;
    let output = report_with_digest(alloc, cert, audited.state.digest(), &verdict)?;
    Ok(Answered {
        outcome: outcome_of(&verdict),
        output,
    })
}

// The verdict on a certificate, from the faults of its borders and the book of its audit, which lacks no finding.
fn verdict_from(
    alloc: Global,
    cert: &Cert<'_>,
    borders: &[Option<BorderFault>],
    state: &BookState,
) -> Result<Verdict, AllocError>
    requires borders { AreBorderFaultsOf (setting cert.now) (modules cert.now) borders.now }
    requires audit { IsAuditOf cert.now state.now }
    ensures { IfOk result (IsVerdictOn cert.now) }
{
    cert.prove_valid();
    conclude_from_full_book(alloc, cert, borders, state)
}

fn outcome_of(verdict: &Verdict) -> Outcome
    ensures { result ≡ verdict_outcome verdict.now }
{
    match verdict {
        Verdict::Yes => Outcome::Yes,
        Verdict::No(_) => Outcome::No,
    }
}
