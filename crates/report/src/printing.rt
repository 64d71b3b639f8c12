//! Prints reports and refusals.
ghost use Rattle.std.specs.Prelude.{◌≡◌, ◌++◌, IfOk, OnOk};
ghost use Rattle.std.specs.List.{flat_map};
ghost use Rattle.std.specs.String.{string_bytes};
ghost use Rattle.sha2.specs.Sha256.{sha256};
ghost use Rattle.core_book.specs.declared.verdict.ReportLine.TheVariants.{Border, Delay, Keep, Local, Meet, Unkept};
ghost use Rattle.core_book.specs.Verdicts.{timing_report_line};
ghost use Rattle.certificate.specs.Text.{certificate_text};
ghost use Rattle.certificate.specs.Times.{delay_and_meet_lines};
ghost use Rattle.certificate.specs.Grammars.{modules_in};
ghost use Rattle.circuit.specs.Bridge.{circuit_of};
ghost use Rattle.report.specs.ReportText.{report_line_text, fault_kind_word, lines_before_verdict, refusal_line, report_text, verdict_lines};

use border_match::BorderFault;
use certificate::{Cert, StopGap, TimeLine};
use core_book::{ReportLine, Verdict};
use local_run::{Fault, KeepFault, Kind};
use section_text::Refusal;
use std::alloc::{AllocError, Global};

/// Returns the line for a refusal: `refused`, the number of the refused line and the code, each behind a space, and a
/// line feed.
pub fn refusal_text(alloc: Global, refusal: Refusal) -> Result<Vec<u8>, AllocError>
    ensures { IfOk result (λ text. text.items ≡ refusal_line refusal) }
{
    let line = format!(in alloc; "refused {} {}\n", refusal.line, refusal.code)?;
    Ok(line.into_bytes())
}

/// Returns the report on a certificate with this verdict.
///
/// It has the version of reports, the certificate's SHA-256 as 64 digits in lower case, how many modules the
/// certificate has, and the verdict. After a no the verdict's lines follow, in their order. After a yes the lines on
/// delays and meetings follow, from the certificate's stops.
pub fn report_text(alloc: Global, cert: &Cert<'_>, verdict: &Verdict) -> Result<Vec<u8>, AllocError>
    ensures { IfOk result (λ text. text.items ≡ report_text cert.now verdict.now) }
{
    let digest = cert.digest(alloc)?;
    report_with_digest(alloc, cert, digest, verdict)
}

/// Returns the report for a caller that has the certificate's digest already, by [`Cert::digest`].
#[tactic(auto, unfolding(crate::specs::ReportText::report_text))]
pub fn report_with_digest(
    alloc: Global,
    cert: &Cert<'_>,
    digest: [u8; 32],
    verdict: &Verdict,
) -> Result<Vec<u8>, AllocError>
    requires { digest ≡ sha256 (certificate_text cert.now) }
    ensures { IfOk result (λ text. text.items ≡ report_text cert.now verdict.now) }
{
    let mut text = text_before_verdict(alloc, digest, cert.modules())?;
    print_verdict(alloc, &mut text, cert, verdict)?;
    Ok(text)
}

// The lines before the verdict.
fn text_before_verdict(
    alloc: Global,
    digest: [u8; 32],
    modules: usize,
) -> Result<Vec<u8>, AllocError>
    ensures { IfOk result (λ text. text.items ≡ lines_before_verdict digest modules) }
{
    let digits = hex::encode(alloc, digest)?;
    let lines = format!(in alloc; "bbmcheck 1\ncertificate {digits}\nmodules {modules}\n")?;
    Ok(lines.into_bytes())
}

fn print_verdict(
    alloc: Global,
    text: &mut Vec<u8>,
    cert: &Cert<'_>,
    verdict: &Verdict,
) -> Result<(), AllocError>
    ensures { OnOk result (text.new.items
        ≡ text.old.items ++ verdict_lines
        (delay_and_meet_lines (circuit_of cert.now.circuit) (modules_in cert.now)) verdict.now) }
{
    match verdict {
        Verdict::Yes => {
            text.extend_from_slice(b"verdict yes\n")?;
            let times = cert.times(alloc)?;
            print_timing_lines(alloc, text, &times)
        }
        Verdict::No(lines) => {
            text.extend_from_slice(b"verdict no\n")?;
            print_lines(alloc, text, lines)
        }
    }
}

fn print_lines(alloc: Global, text: &mut Vec<u8>, lines: &[ReportLine]) -> Result<(), AllocError>
    ensures { OnOk result (text.new.items ≡ text.old.items ++ flat_map report_line_text lines.now) }
{
    for line in lines {
        print_line(alloc, text, *line)?;
    }
    Ok(())
}

fn print_timing_lines(
    alloc: Global,
    text: &mut Vec<u8>,
    times: &[TimeLine],
) -> Result<(), AllocError>
    ensures { OnOk result (text.new.items
        ≡ text.old.items ++ flat_map (λ t. report_line_text (timing_report_line t)) times.now) }
{
    for line in times {
        print_timing_line(alloc, text, *line)?;
    }
    Ok(())
}

fn print_timing_line(alloc: Global, text: &mut Vec<u8>, line: TimeLine) -> Result<(), AllocError>
    ensures { OnOk result (text.new.items
        ≡ text.old.items ++ report_line_text (timing_report_line line)) }
{
    match line {
        TimeLine::Delay { gate, wanted, gap } => {
            print_line(alloc, text, ReportLine::Delay { gate, wanted, gap })
        }
        TimeLine::Meet { gate, at } => print_line(alloc, text, ReportLine::Meet { gate, at }),
    }
}

fn print_line(alloc: Global, text: &mut Vec<u8>, line: ReportLine) -> Result<(), AllocError>
    ensures { OnOk result (text.new.items ≡ text.old.items ++ report_line_text line) }
{
    let printed = match line {
        ReportLine::Local { module, fault } => local_line(alloc, module, fault)?,
        ReportLine::Keep { module, fault } => keep_line(alloc, module, fault)?,
        ReportLine::Border { module, fault } => border_line(alloc, module, fault)?,
        ReportLine::Unkept { gate } => unkept_line(alloc, gate)?,
        ReportLine::Delay { gate, wanted, gap } => delay_line(alloc, gate, wanted, gap)?,
        ReportLine::Meet { gate, at } => meet_line(alloc, gate, at)?,
    };
    text.extend_from_slice(printed.as_bytes())?;
    Ok(())
}

fn local_line(alloc: Global, number: usize, fault: Fault) -> Result<String, AllocError>
    ensures { IfOk result (λ line. string_bytes line ≡ report_line_text (Local number fault)) }
{
    let kind = fault_kind_word(fault.kind);
    let line = format!(in alloc;
        "local {number} {kind} {} {} {} {}\n",
        fault.time, fault.cell.x, fault.cell.y, fault.assignment
    )?;
    Ok(line)
}

fn keep_line(alloc: Global, number: usize, fault: KeepFault) -> Result<String, AllocError>
    ensures { IfOk result (λ line. string_bytes line ≡ report_line_text (Keep number fault)) }
{
    let line = format!(in alloc; "keep {number} {} {}\n", fault.gate, fault.assignment)?;
    Ok(line)
}

fn unkept_line(alloc: Global, gate: usize) -> Result<String, AllocError>
    ensures { IfOk result (λ line. string_bytes line ≡ report_line_text (Unkept gate)) }
{
    let line = format!(in alloc; "unkept {gate}\n")?;
    Ok(line)
}

fn border_line(alloc: Global, number: usize, fault: BorderFault) -> Result<String, AllocError>
    ensures { IfOk result (λ line. string_bytes line ≡ report_line_text (Border number fault)) }
{
    let line = format!(in alloc;
        "border {number} {} {} {}\n",
        fault.time, fault.cell.x, fault.cell.y
    )?;
    Ok(line)
}

fn delay_line(alloc: Global, number: usize, wanted: u32, gap: StopGap) -> Result<String, AllocError>
    ensures { IfOk result (λ line. string_bytes line ≡ report_line_text (Delay number wanted gap)) }
{
    let line = match gap {
        StopGap::Steps(steps) => format!(in alloc; "delay {number} {wanted} {steps}\n")?,
        StopGap::Missing => format!(in alloc; "delay {number} {wanted} missing\n")?,
        StopGap::Before => format!(in alloc; "delay {number} {wanted} before\n")?,
    };
    Ok(line)
}

fn meet_line(alloc: Global, number: usize, at: Option<u32>) -> Result<String, AllocError>
    ensures { IfOk result (λ line. string_bytes line ≡ report_line_text (Meet number at)) }
{
    let line = match at {
        Some(time) => format!(in alloc; "meet {number} {time}\n")?,
        None => format!(in alloc; "meet {number} differ\n")?,
    };
    Ok(line)
}

fn fault_kind_word(kind: Kind) -> &'static str
    ensures { result.now ≡ fault_kind_word kind }
{
    match kind {
        Kind::Edge => "edge",
        Kind::Stop => "stop",
        Kind::End => "end",
    }
}
