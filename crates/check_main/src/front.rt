//! The whole program, over the words and the streams that it is given.
ghost use Rattle.std.specs.Prelude.{◌≡◌, ◌<◌, ◌≤◌, ◌⊎◌, false, true, IfErr, OnOk, Ok};
ghost use Rattle.clap.specs.Walk.{texts};
ghost use Rattle.clap.specs.Words.{kind_of};
ghost use Rattle.command_line.specs.CommandLine.{IsAccepted, asked_by};
ghost use Rattle.meaning.specs.Streams.{HoldsOfKnownInput};
ghost use Rattle.headline.specs.RightInFull.{IsRightInFull};
ghost use Rattle.headline.specs.Plain.{IsWrongIfPlain};
ghost use Rattle.headline.specs.SmallDesigns.{IsNoSmallDesignText};
ghost use Rattle.headline.specs.ReportLines.{LinesHaveMeaning, RelatesReadToWritten};
ghost use Rattle.check_main.specs.Commands.{IsAnswerTo};
ghost use Rattle.check_main.specs.Program.{AsksForCheck, ExplainedWords, ExplainsWords, IsHelpOrVersion, RanCommand, YesPromises};
ghost use Rattle.check_main.specs.Status.{status_for, WritesFaultLine};
ghost use Rattle.check_main.specs.Stream.{ServesCommand};

use crate::CheckFault;
use crate::stream::{
    check_stream, migrate_stream, modules_stream, run_stream, value_stream, write_whole,
};
use answers::Outcome;
use clap::Error;
use clap::error::ErrorKind;
use command_line::{Asked, Request, read_words};
use job_pool::Gate;
use std::alloc::Global;
use std::random::RandomSource;
use std::sync::Wait;
use std::thread::Threads;
use streams::{Sink, Source};

// Statuses.
const DONE: u8 = 0;

const NO: u8 = 1;

/// The exit status of words that are refused.
pub const WORDS_REFUSED: u8 = 2;

const TEXT_REFUSED: u8 = 3;

const DEVICE_FAULT: u8 = 4;

const NOT_DECIDED: u8 = 5;

/// The streams that a command reads from and writes to.
#[derive(Drop)]
pub struct Streams<R, W, E> {
    /// The source of the text.
    pub reader: R,
    /// The sink of the answer.
    pub writer: W,
    /// The sink of what is wrong with the words, and of a line for a status of 4 or 5.
    pub errors: E,
}

/// Runs the command that the words ask for, and returns the exit status. The words have no program's name.
///
/// - 0: the command is done, or help or the version was asked for and written
/// - 1: the verdict is no, a ball left the rectangle, or a gate has no row for its inputs
/// - 2: the words were refused
/// - 3: the text was refused, and `writer` has the line and the code
/// - 4: `reader` or `writer` failed, or the text is longer than 16 MiB, or than 256 MiB if it begins with the line
///   `limits 2`
/// - 5: memory ran out
///
/// `errors` gets what is wrong with the words, and a line for a status of 4 or 5. A write to it that fails changes
/// nothing. The workers of `check` report each module that they draw to the gate. The program's gate is `OpenGate`.
pub fn program<'a, T, R, W, E, G>(
    rt: &T,
    alloc: Global,
    words: &'a [&'a str],
    streams: &mut Streams<R, W, E>,
    gate: &G,
) -> u8
where
    T: Threads + Wait + RandomSource + Sync,
    R: Source,
    W: Sink,
    E: Sink,
    G: Gate + Sync,
    requires reader_works { R.has_failed streams.old.reader ≡ false }
    requires writer_works { W.has_failed streams.old.writer ≡ false }

    // The command that the words ask for ran, or the words were explained.
    ensures ran { IsAccepted (texts words.entry.now) → RanCommand R.Source W.Sink E.Sink
        (asked_by (texts words.entry.now)) streams.old streams.new result }
    ensures explained { ¬ IsAccepted (texts words.entry.now) → ExplainedWords W.Sink E.Sink
        (texts words.entry.now) streams.old streams.new result }

    // A yes of `check`: the layout computes the circuit (field `right`), the stops hold (`stops`), and more.
    ensures in_full { AsksForCheck (texts words.entry.now) → YesPromises IsRightInFull (result ≡ 0)
        (R.left streams.old.reader) (W.written_bytes streams.old.writer)
        (W.written_bytes streams.new.writer) }

    // A no of `check`: if the certificate is plain, the text is wrong. The lines of the report have a meaning.
    ensures wrong { AsksForCheck (texts words.entry.now) → result ≡ 1 →
        HoldsOfKnownInput IsWrongIfPlain (R.left streams.old.reader) }
    ensures lines { AsksForCheck (texts words.entry.now) → result ≡ 1 →
        RelatesReadToWritten LinesHaveMeaning (R.left streams.old.reader)
        (W.written_bytes streams.old.writer) (W.written_bytes streams.new.writer) }

    // A refusal of `check`: the text is not the plain text of a small design.
    ensures refused_not_small { AsksForCheck (texts words.entry.now) → result ≡ 3 →
        HoldsOfKnownInput IsNoSmallDesignText (R.left streams.old.reader) }
{
    match read_words(alloc, words) {
        Ok(asked) => {
            let ended = run_request(
                rt,
                alloc,
                asked,
                &mut streams.reader,
                &mut streams.writer,
                gate,
            );
            write_fault_and_get_status(ended, &mut streams.errors)
        }
        Err(error) => write_help_or_fault(alloc, &error, &mut streams.writer, &mut streams.errors),
    }
}

// Each command is a call over the two streams.
fn run_request<T, R, W, G>(
    rt: &T,
    alloc: Global,
    asked: Asked,
    reader: &mut R,
    writer: &mut W,
    gate: &G,
) -> Result<Outcome, CheckFault>
where
    T: Threads + Wait + RandomSource + Sync,
    R: Source,
    W: Sink,
    G: Gate + Sync,
    requires workers { (0 < asked.workers) × (asked.workers ≤ 64) }
    requires reader_works { R.has_failed reader.old ≡ false }
    requires writer_works { W.has_failed writer.old ≡ false }
    ensures serves { ServesCommand (IsAnswerTo asked.request) R.Source W.Sink reader.old reader.new
        writer.old writer.new result }
    ensures in_full { asked.request ≡ Request.Check →
        YesPromises IsRightInFull (result ≡ Ok Outcome.Yes) (R.left reader.old)
        (W.written_bytes writer.old) (W.written_bytes writer.new) }
    ensures wrong { asked.request ≡ Request.Check → result ≡ Ok Outcome.No →
        HoldsOfKnownInput IsWrongIfPlain (R.left reader.old) }
    ensures lines { asked.request ≡ Request.Check → result ≡ Ok Outcome.No →
        RelatesReadToWritten LinesHaveMeaning (R.left reader.old) (W.written_bytes writer.old)
        (W.written_bytes writer.new) }
    ensures refused_not_small { asked.request ≡ Request.Check → result ≡ Ok Outcome.Refused →
        HoldsOfKnownInput IsNoSmallDesignText (R.left reader.old) }
{
    match asked.request {
        Request::Check => check_stream(rt, alloc, reader, writer, asked.workers, gate),
        Request::Run => run_stream(rt, alloc, reader, writer),
        Request::Value => value_stream(rt, alloc, reader, writer),
        Request::Modules => modules_stream(rt, alloc, reader, writer),
        Request::Migrate => migrate_stream(rt, alloc, reader, writer),
    }
}

/// Returns the status for the end of a command, and writes its fault to `errors`.
pub fn write_fault_and_get_status<E: Sink>(ended: Result<Outcome, CheckFault>, errors: &mut E) -> u8
    ensures status { result ≡ status_for ended }
    ensures errors_unchanged { OnOk ended (errors.new ≡ errors.old) }
    ensures fault_line_written { IfErr ended (WritesFaultLine E.Sink errors.old errors.new) }
{
    match ended {
        Ok(Outcome::Yes) => DONE,
        Ok(Outcome::No) => NO,
        Ok(Outcome::Refused) => TEXT_REFUSED,
        Err(fault) => {
            write_fault_line(errors, fault);
            match fault {
                CheckFault::Read | CheckFault::Write | CheckFault::TooLong => DEVICE_FAULT,
                CheckFault::Memory => NOT_DECIDED,
            }
        }
    }
}

// Help goes to the writer, and what is wrong with the words to `errors`.
fn write_help_or_fault<W: Sink, E: Sink>(
    alloc: Global,
    error: &Error,
    writer: &mut W,
    errors: &mut E,
) -> u8
    requires { W.has_failed writer.old ≡ false }
    ensures explains { ExplainsWords W.Sink E.Sink (IsHelpOrVersion (kind_of error.now))
        (IsHelpOrVersion (kind_of error.now)) writer.old writer.new errors.old errors.new result }
    ensures memory { kind_of error.now ≡ ErrorKind.OutOfMemory → result ≡ 5 }
{
    if matches!(error.kind(), ErrorKind::OutOfMemory) {
        write_fault_line(errors, CheckFault::Memory);
        return NOT_DECIDED;
    }
    let Ok(text) = error.to_string(alloc) else {
        write_fault_line(errors, CheckFault::Memory);
        return NOT_DECIDED;
    };
    match error.kind() {
        ErrorKind::DisplayHelp | ErrorKind::DisplayVersion => write_help(&text, writer, errors),
        _ => {
            let _ = write_whole(errors, text.as_bytes());
            WORDS_REFUSED
        }
    }
}

// Writes help.
fn write_help<W: Sink, E: Sink>(text: &str, writer: &mut W, errors: &mut E) -> u8
    requires { W.has_failed writer.old ≡ false }
    ensures range { (result ≡ 0) ⊎ (result ≡ 4) }
    ensures device { result ≡ 4 →
        (W.has_failed writer.new ≡ true)
        × WritesFaultLine E.Sink errors.old errors.new CheckFault.Write }
    ensures errors_unchanged { result ≡ 0 → errors.new ≡ errors.old }
    ensures works { result ≡ 0 → W.has_failed writer.new ≡ false }
{
    if write_whole(writer, text.as_bytes()) {
        return DONE;
    }
    write_fault_line(errors, CheckFault::Write);
    DEVICE_FAULT
}

// Says the one line for a fault, without memory.
#[tactic(auto, unfolding(crate::specs::Status::fault_line))]
fn write_fault_line<E: Sink>(errors: &mut E, fault: CheckFault)
    ensures { WritesFaultLine E.Sink errors.old errors.new fault }
{
    let _ = write_whole(errors, b"bbmcheck: ")
        && write_whole(errors, fault.text().as_bytes())
        && write_whole(errors, b"\n");
}
