//! From what a book holds to the verdict.
ghost use Rattle.std.specs.Prelude.{◌≡◌, ◌++◌, ℕ, IfOk, OnOk, Ok, Err, Some, length, map};
ghost use Rattle.std.specs.Arc.{arc_value};
ghost use Rattle.std.specs.Option.{option_to_list};
ghost use Rattle.circuit.specs.Bridge.{circuit_of};
ghost use Rattle.pattern.specs.Layout.{parts_of};
ghost use Rattle.pattern.specs.Lines.{ArePortsNamed};
ghost use Rattle.border_match.specs.BorderFaults.{AreBorderFaultsOf};
ghost use Rattle.certificate.specs.Times.{are_all_timings_obeyed};
ghost use Rattle.core_book.specs.Concluding.{AreJobsOfCertificate, modules, port_names_of, setting};
ghost use Rattle.meaning.specs.Implements.{IsCorrect};
ghost use Rattle.soundness.specs.OnTime.{AreStopsTrueAndOnTime};
ghost use Rattle.core_book.specs.Verdicts.{AreFindingsHeldBelow, AreLeastFaults, IsFirstMissingFinding, AreLeastFaultsOfJob, IsVerdict, border_line, keep_line, report_lines_from, local_line, timing_report_line};
ghost use Rattle.local_run.specs.Shown.{job_of};
ghost use Rattle.core_book.specs.declared.verdict.ReportLine.TheVariants.{Unkept};
ghost use Rattle.core_book.specs.declared.verdict.Unfinished.TheVariants.{Missing};
ghost use Rattle.core_book.specs.declared.verdict.Verdict.TheVariants.{Yes};

use border_match::BorderFault;
use certificate::{Cert, Job, TimeLine};
use core_book::{BookState, LeastFaults, ReportLine, Unfinished, Verdict};
use local_run::{Fault, Finding, KeepFault};
use std::alloc::{AllocError, Global};
use std::sync::Arc;

/// Concludes the verdict on a certificate for its circuit and its layout.
///
/// It uses the certificate's jobs, the least border fault of each of its modules, and what a book holds.
///
/// If the verdict is `Yes`, and the layout was read with the names of the circuit's ports,
///
/// - the whole layout computes the circuit, for all values of the inputs,
/// - nothing leaves its rectangle,
/// - each stop holds on the whole layout, and the rules on delays and meetings are kept.
///
/// `meaning/specs/Implements.antt` and `soundness/specs/OnTime.antt` define this.
///
/// # Errors
///
/// `Missing` names the first module for whose job the book holds no finding, whatever the book's own digest and jobs
/// are. `Memory` is out of memory.
pub fn conclude(
    alloc: Global,
    cert: &Cert<'_>,
    jobs: &[Arc<Job>],
    borders: &[Option<BorderFault>],
    book: &BookState,
) -> Result<Verdict, Unfinished>
    requires own_jobs { AreJobsOfCertificate cert.now (map arc_value jobs.now) }
    requires borders { AreBorderFaultsOf (setting cert.now) (modules cert.now) borders.now }
    ensures findings_held { OnOk result (AreFindingsHeldBelow book.now (map arc_value jobs.now)
        (length jobs.now)) }
    ensures verdict { IfOk result (λ v. IsVerdict (setting cert.now) (modules cert.now)
        (map arc_value jobs.now) v) }
    ensures missing { (number : ℕ) → result ≡ Err (Missing number) →
        IsFirstMissingFinding book.now (map arc_value jobs.now) number }
    ensures correct { result ≡ Ok Yes →
        ArePortsNamed (Some (port_names_of cert.now.circuit)) (parts_of cert.now.layout) →
        IsCorrect cert.now.circuit cert.now.layout }
    ensures on_time { result ≡ Ok Yes →
        ArePortsNamed (Some (port_names_of cert.now.circuit)) (parts_of cert.now.layout) →
        AreStopsTrueAndOnTime (circuit_of cert.now.circuit) cert.now.layout (modules cert.now) }
{
    let faults = faults_of_held_findings(alloc, jobs, book)?;
    Ok(verdict_of(alloc, cert, jobs, &faults, borders)?)
}

/// Concludes the verdict as [`conclude`] does, from a book of the certificate's own jobs that holds a finding for each.
///
/// It compares no jobs: each finding that a book holds is for the book's job of its number.
pub fn conclude_from_full_book(
    alloc: Global,
    cert: &Cert<'_>,
    borders: &[Option<BorderFault>],
    book: &BookState,
) -> Result<Verdict, AllocError>
    requires own_jobs { AreJobsOfCertificate cert.now book.now.jobs }
    requires findings_held { AreFindingsHeldBelow book.now book.now.jobs (length book.now.jobs) }
    requires borders { AreBorderFaultsOf (setting cert.now) (modules cert.now) borders.now }
    ensures verdict { IfOk result (λ v. IsVerdict (setting cert.now) (modules cert.now)
        book.now.jobs v) }
    ensures correct { result ≡ Ok Yes →
        ArePortsNamed (Some (port_names_of cert.now.circuit)) (parts_of cert.now.layout) →
        IsCorrect cert.now.circuit cert.now.layout }
    ensures on_time { result ≡ Ok Yes →
        ArePortsNamed (Some (port_names_of cert.now.circuit)) (parts_of cert.now.layout) →
        AreStopsTrueAndOnTime (circuit_of cert.now.circuit) cert.now.layout (modules cert.now) }
{
    let faults = faults_in_full_book(alloc, book)?;
    verdict_of(alloc, cert, book.jobs(), &faults, borders)
}

// The verdict by the least faults of the certificate's jobs and borders.
fn verdict_of(
    alloc: Global,
    cert: &Cert<'_>,
    jobs: &[Arc<Job>],
    faults: &[LeastFaults],
    borders: &[Option<BorderFault>],
) -> Result<Verdict, AllocError>
    requires own_jobs { AreJobsOfCertificate cert.now (map arc_value jobs.now) }
    requires least { AreLeastFaults (map arc_value jobs.now) faults.now }
    requires borders { AreBorderFaultsOf (setting cert.now) (modules cert.now) borders.now }
    ensures verdict { IfOk result (λ v. IsVerdict (setting cert.now) (modules cert.now)
        (map arc_value jobs.now) v) }
    ensures correct { result ≡ Ok Yes →
        ArePortsNamed (Some (port_names_of cert.now.circuit)) (parts_of cert.now.layout) →
        IsCorrect cert.now.circuit cert.now.layout }
    ensures on_time { result ≡ Ok Yes →
        ArePortsNamed (Some (port_names_of cert.now.circuit)) (parts_of cert.now.layout) →
        AreStopsTrueAndOnTime (circuit_of cert.now.circuit) cert.now.layout (modules cert.now) }
{
    cert.prove_valid();
    let unkept = cert.unkept(alloc)?;
    let times = cert.times(alloc)?;
    let mut lines = report_lines(alloc, faults, borders, &unkept)?;
    let obeyed = are_all_timings_obeyed(&times);
    if obeyed & lines.is_empty() {
        return Ok(Verdict::Yes);
    }
    push_timing_report_lines(&mut lines, &times)?;
    Ok(Verdict::No(lines))
}

// Whether all delays take as many steps as they say, and all inputs meet.
fn are_all_timings_obeyed(times: &[TimeLine]) -> bool
    ensures { result ≡ are_all_timings_obeyed times.now }
{
    times.iter().all(|line| line.is_timing_obeyed())
}

// What stops say of a gate, as a line of the report.
fn timing_report_line(line: &TimeLine) -> ReportLine
    ensures { result ≡ timing_report_line line.now }
{
    match *line {
        TimeLine::Delay { gate, wanted, gap } => ReportLine::Delay { gate, wanted, gap },
        TimeLine::Meet { gate, at } => ReportLine::Meet { gate, at },
    }
}

// Adds what stops say of all gates.
fn push_timing_report_lines(
    lines: &mut Vec<ReportLine>,
    times: &[TimeLine],
) -> Result<(), AllocError>
    ensures { OnOk result (lines.new.items ≡ lines.old.items ++ map timing_report_line times.now) }
{
    for line in times {
        lines.push(timing_report_line(line))?;
    }
    Ok(())
}

// The least faults of the jobs, by the findings that the book holds for them.
fn faults_of_held_findings(
    alloc: Global,
    jobs: &[Arc<Job>],
    book: &BookState,
) -> Result<Vec<LeastFaults>, Unfinished>
    ensures findings_held { OnOk result (AreFindingsHeldBelow book.now (map arc_value jobs.now)
        (length jobs.now)) }
    ensures least { IfOk result (λ fs. AreLeastFaults (map arc_value jobs.now) fs.items) }
    ensures missing { (number : ℕ) → result ≡ Err (Missing number) →
        IsFirstMissingFinding book.now (map arc_value jobs.now) number }
{
    let mut faults = Vec::with_capacity(alloc, jobs.len())?;
    for (number, job) in jobs.iter().enumerate() {
        let Some(finding) = book.held_finding_of_job(number, job) else {
            return Err(Unfinished::Missing(number));
        };
        faults.push(least_faults_of(finding))?;
    }
    Ok(faults)
}

// The least faults of a book's jobs, by the findings that it holds for each of them.
fn faults_in_full_book(alloc: Global, book: &BookState) -> Result<Vec<LeastFaults>, AllocError>
    requires { AreFindingsHeldBelow book.now book.now.jobs (length book.now.jobs) }
    ensures { IfOk result (λ fs. AreLeastFaults book.now.jobs fs.items) }
{
    let count = book.jobs().len();
    let mut faults = Vec::with_capacity(alloc, count)?;
    for number in 0..count {
        match book.found(number) {
            Some(finding) => faults.push(least_faults_of(finding))?,
            None => unreachable!(),
        }
    }
    Ok(faults)
}

// What a finding tells of its job.
fn least_faults_of(finding: &Finding) -> LeastFaults
    ensures { AreLeastFaultsOfJob (job_of finding.now) result }
{
    let keep = match finding.keep() {
        Some(keep) => Some(KeepFault {
            gate: finding.job().circuit_gate_number(keep.gate) as usize,
            assignment: keep.assignment,
        }),
        None => None,
    };
    LeastFaults {
        fault: finding.fault(),
        keep,
    }
}

// The lines on the modules, one after the other.
fn report_lines_on_modules(
    alloc: Global,
    faults: &[LeastFaults],
    borders: &[Option<BorderFault>],
) -> Result<Vec<ReportLine>, AllocError>
    requires { length faults.now ≡ length borders.now }
    ensures { IfOk result (λ lines. lines.items ≡ report_lines_from 0 faults.now borders.now) }
{
    let mut lines = Vec::new(alloc);
    for (number, reasons) in faults.iter().enumerate() {
        push_line_if_some(&mut lines, local_line(number, reasons.fault))?;
        push_line_if_some(&mut lines, keep_line(number, reasons.keep))?;
        push_line_if_some(&mut lines, border_line(number, borders[number]))?;
    }
    Ok(lines)
}

// The lines of the report: those on the modules, and then the gates that are not kept.
fn report_lines(
    alloc: Global,
    faults: &[LeastFaults],
    borders: &[Option<BorderFault>],
    unkept: &[usize],
) -> Result<Vec<ReportLine>, AllocError>
    requires { length faults.now ≡ length borders.now }
    ensures { IfOk result (λ lines. lines.items
        ≡ report_lines_from 0 faults.now borders.now ++ map (λ n. Unkept n) unkept.now) }
{
    let mut lines = report_lines_on_modules(alloc, faults, borders)?;
    for gate in unkept {
        lines.push(ReportLine::Unkept { gate: *gate })?;
    }
    Ok(lines)
}

fn local_line(number: usize, fault: Option<Fault>) -> Option<ReportLine>
    ensures { result ≡ local_line number fault }
{
    fault.map(|fault| ReportLine::Local {
        module: number,
        fault,
    })
}

fn keep_line(number: usize, fault: Option<KeepFault>) -> Option<ReportLine>
    ensures { result ≡ keep_line number fault }
{
    fault.map(|fault| ReportLine::Keep {
        module: number,
        fault,
    })
}

fn border_line(number: usize, fault: Option<BorderFault>) -> Option<ReportLine>
    ensures { result ≡ border_line number fault }
{
    fault.map(|fault| ReportLine::Border {
        module: number,
        fault,
    })
}

fn push_line_if_some(
    lines: &mut Vec<ReportLine>,
    line: Option<ReportLine>,
) -> Result<(), AllocError>
    ensures { OnOk result (lines.new.items ≡ lines.old.items ++ option_to_list line) }
{
    if let Some(line) = line {
        lines.push(line)?;
    }
    Ok(())
}
