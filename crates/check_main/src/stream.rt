//! From a reader's bytes to a writer's.
ghost use Rattle.std.specs.Prelude.{◌≡◌, ◌≢◌, ◌<◌, ◌≤◌, [], true, false, None, Ok, IfOk, IfErr, IsErrOf, OnOk, length};
ghost use Rattle.std.specs.Io.KnownBytes.{Appends};
ghost use Rattle.answers.specs.CheckText.{IsReportOf};
ghost use Rattle.meaning.specs.Streams.{HoldsOfKnownInput};
ghost use Rattle.headline.specs.RightInFull.{IsRightInFull};
ghost use Rattle.headline.specs.Plain.{IsWrongIfPlain};
ghost use Rattle.headline.specs.SmallDesigns.{IsNoSmallDesignText};
ghost use Rattle.headline.specs.ReportLines.{LinesHaveMeaning, RelatesReadToWritten};
ghost use Rattle.answers.specs.MigrateText.{IsMigrationOf};
ghost use Rattle.answers.specs.ModulesText.{IsModulesAnswerOf};
ghost use Rattle.answers.specs.RunText.{IsRunAnswerOf};
ghost use Rattle.answers.specs.ValueText.{IsValueAnswerOf};
ghost use Rattle.check_main.specs.Program.{YesPromises};
ghost use Rattle.check_main.specs.Stream.{ReadsAll, ServesCommand, GivesTooMuch, AppendsProperPrefix, closed_feed_of};

use crate::CheckFault;
use crate::bundle::check_text;
use answers::{Answered, Outcome, migrate_text, modules_text, run_text, value_text};
use job_pool::Gate;
use section_text::{Feed, MAX_TEXT_BYTES, PushFault, Seed};
use std::alloc::Global;
use std::random::RandomSource;
use std::sync::Wait;
use std::thread::Threads;
use streams::{Sink, Source};

// What one read asks for, in bytes.
const MAX_READ_BYTES: usize = 65_536;

/// Checks a bundle.
///
/// It reads the whole text, at most 16 MiB, or 256 MiB behind the line `limits 2`. 1 to 64 workers run the modules of
/// its certificate. It writes the report once it is complete. `Yes` and `No` are the verdict. The output is the same
/// for every number of workers, every gate and every order in which they end.
///
/// If the verdict is `Yes`, or `verdict yes` is the fourth line of the output,
///
/// - the text begins with a circuit and a layout, and the whole layout computes the circuit
///   (`meaning/specs/Headline.antt`);
/// - it goes on with a certificate whose stops hold on the whole layout (`headline/specs/Stops.antt`);
/// - the circuit has one valuation for all values of its inputs;
/// - no cell of the rim is live at an odd time below the steps;
/// - each line of the design is as the grammar asks (`headline/specs/RightInFull.antt` has all of this).
///
/// If it is `No`, and the certificate is one plain module, the whole rectangle, the text is wrong
/// (`headline/specs/Plain.antt`). `headline/specs/ReportLines.antt` says what the lines of the report mean. The plain
/// text of a small design is never `Refused` (`headline/specs/SmallDesigns.antt`).
pub fn check_stream<T, R, W, G>(
    rt: &T,
    alloc: Global,
    reader: &mut R,
    writer: &mut W,
    workers: usize,
    gate: &G,
) -> Result<Outcome, CheckFault>
where
    T: Threads + Wait + RandomSource + Sync,
    R: Source,
    W: Sink,
    G: Gate + Sync,
    requires workers { (0 < workers) × (workers ≤ 64) }
    requires reader_works { R.has_failed reader.old ≡ false }
    requires writer_works { W.has_failed writer.old ≡ false }
    ensures serves { ServesCommand IsReportOf R.Source W.Sink reader.old reader.new writer.old
        writer.new result }
    ensures in_full { YesPromises IsRightInFull (result ≡ Ok Outcome.Yes) (R.left reader.old)
        (W.written_bytes writer.old) (W.written_bytes writer.new) }
    ensures wrong { result ≡ Ok Outcome.No → HoldsOfKnownInput IsWrongIfPlain (R.left reader.old) }
    ensures lines { result ≡ Ok Outcome.No →
        RelatesReadToWritten LinesHaveMeaning (R.left reader.old) (W.written_bytes writer.old)
        (W.written_bytes writer.new) }
    ensures refused_not_small { result ≡ Ok Outcome.Refused →
        HoldsOfKnownInput IsNoSmallDesignText (R.left reader.old) }
{
    let feed = read_text(rt, alloc, reader)?;
    let answered = check_text(rt, alloc, feed, workers, gate)?;
    write_answer(writer, &answered)
}

/// Runs a layout under an assignment.
///
/// It reads the whole text, at most 16 MiB, or 256 MiB behind the line `limits 2`, and writes the answer once it is
/// complete. `No` is a ball that leaves the rectangle.
pub fn run_stream<T: RandomSource, R: Source, W: Sink>(
    rt: &T,
    alloc: Global,
    reader: &mut R,
    writer: &mut W,
) -> Result<Outcome, CheckFault>
    requires reader_works { R.has_failed reader.old ≡ false }
    requires writer_works { W.has_failed writer.old ≡ false }
    ensures serves { ServesCommand IsRunAnswerOf R.Source W.Sink reader.old reader.new writer.old
        writer.new result }
{
    let mut feed = read_text(rt, alloc, reader)?;
    let answered = run_text(alloc, &mut feed).map_err(|_| CheckFault::Memory)?;
    write_answer(writer, &answered)
}

/// Evaluates a circuit under an assignment.
///
/// It reads the whole text, at most 16 MiB, or 256 MiB behind the line `limits 2`, and writes the answer once it is
/// complete. `No` is a gate that has no row for its inputs.
pub fn value_stream<T: RandomSource, R: Source, W: Sink>(
    rt: &T,
    alloc: Global,
    reader: &mut R,
    writer: &mut W,
) -> Result<Outcome, CheckFault>
    requires reader_works { R.has_failed reader.old ≡ false }
    requires writer_works { W.has_failed writer.old ≡ false }
    ensures serves { ServesCommand IsValueAnswerOf R.Source W.Sink reader.old reader.new writer.old
        writer.new result }
{
    let mut feed = read_text(rt, alloc, reader)?;
    let answered = value_text(alloc, &mut feed).map_err(|_| CheckFault::Memory)?;
    write_answer(writer, &answered)
}

/// Lists the modules of a bundle's certificate.
///
/// It reads the whole text, at most 16 MiB, or 256 MiB behind the line `limits 2`, and writes the answer once it is
/// complete. The outcome is `Yes` or `Refused`.
pub fn modules_stream<T: RandomSource, R: Source, W: Sink>(
    rt: &T,
    alloc: Global,
    reader: &mut R,
    writer: &mut W,
) -> Result<Outcome, CheckFault>
    requires reader_works { R.has_failed reader.old ≡ false }
    requires writer_works { W.has_failed writer.old ≡ false }
    ensures serves { ServesCommand IsModulesAnswerOf R.Source W.Sink reader.old reader.new
        writer.old writer.new result }
{
    let mut feed = read_text(rt, alloc, reader)?;
    let answered = modules_text(alloc, &mut feed).map_err(|_| CheckFault::Memory)?;
    write_answer(writer, &answered)
}

/// Writes a bundle in certificate version 2, without halo lines.
///
/// It reads the whole text, at most 16 MiB, or 256 MiB behind the line `limits 2`, and writes the answer once it is
/// complete. The outcome is `Yes` or `Refused`. A bundle of version 2 is written as it is. If `check` accepts a bundle,
/// it accepts the migrated one (`headline/specs/Migration.antt`).
pub fn migrate_stream<T: RandomSource, R: Source, W: Sink>(
    rt: &T,
    alloc: Global,
    reader: &mut R,
    writer: &mut W,
) -> Result<Outcome, CheckFault>
    requires reader_works { R.has_failed reader.old ≡ false }
    requires writer_works { W.has_failed writer.old ≡ false }
    ensures serves { ServesCommand IsMigrationOf R.Source W.Sink reader.old reader.new writer.old
        writer.new result }
{
    let mut feed = read_text(rt, alloc, reader)?;
    let answered = migrate_text(alloc, &mut feed).map_err(|_| CheckFault::Memory)?;
    write_answer(writer, &answered)
}

// Reads up to the end. A read of no byte ends the text.
fn read_text<T: RandomSource, R: Source>(
    rt: &T,
    alloc: Global,
    reader: &mut R,
) -> Result<Feed, CheckFault>
    requires { R.has_failed reader.old ≡ false }
    ensures read_all { IfOk result (λ feed. ReadsAll (R.left reader.old) (R.left reader.new)
        feed.text) }
    ensures whole { IfOk result (λ feed. feed ≡ closed_feed_of feed.text) }
    ensures works { OnOk result (R.has_failed reader.new ≡ false) }
    ensures read { IsErrOf result CheckFault.Read → R.has_failed reader.new ≡ true }
    ensures too_long { IsErrOf result CheckFault.TooLong →
        GivesTooMuch (R.left reader.old) (R.left reader.new) }
    ensures no_write { IfErr result (λ fault. fault ≢ CheckFault.Write) }
{
    // On the heap, so that a small stack is enough.
    let Ok(mut block) = vec![in alloc; 0u8; MAX_READ_BYTES] else {
        return Err(CheckFault::Memory);
    };
    let feed = Feed::seeded(alloc, Seed::drawn(rt));
    read_by_blocks(feed, reader, &mut block)
}

// Reads up to the end, by reads that ask for as many bytes as the block has.
#[tactic(auto, unfolding(crate::specs::Stream::IsTextWithinLimit))]
fn read_by_blocks<R: Source>(
    empty: Feed,
    reader: &mut R,
    block: &mut [u8],
) -> Result<Feed, CheckFault>
    requires empty { empty ≡ record { text = []; taken = 0; closed = false; stop = None } }
    requires works { R.has_failed reader.old ≡ false }
    requires block_has_room { 0 < length block.old }
    ensures read_all { IfOk result (λ feed. ReadsAll (R.left reader.old) (R.left reader.new)
        feed.text) }
    ensures whole { IfOk result (λ feed. feed ≡ closed_feed_of feed.text) }
    ensures works { OnOk result (R.has_failed reader.new ≡ false) }
    ensures read { IsErrOf result CheckFault.Read → R.has_failed reader.new ≡ true }
    ensures too_long { IsErrOf result CheckFault.TooLong →
        GivesTooMuch (R.left reader.old) (R.left reader.new) }
    ensures no_write { IfErr result (λ fault. fault ≢ CheckFault.Write) }
{
    let mut feed = empty;
    // Each read but the last gives a byte, and no text has so many.
    for _ in 0..MAX_TEXT_BYTES + 1 {
        let Ok(count) = reader.read(block) else {
            return Err(CheckFault::Read);
        };
        if count == 0 {
            feed.close();
            return Ok(feed);
        }
        match feed.push(&block[..count]) {
            Ok(()) => {}
            Err(PushFault::TooLong) => return Err(CheckFault::TooLong),
            Err(PushFault::Memory) => return Err(CheckFault::Memory),
        }
    }
    unreachable!()
}

// Writes an answer that is complete.
fn write_answer<W: Sink>(writer: &mut W, answered: &Answered) -> Result<Outcome, CheckFault>
    requires { W.has_failed writer.old ≡ false }
    ensures outcome { IfOk result (λ outcome. outcome ≡ answered.now.outcome) }
    ensures all { OnOk result (Appends (W.written_bytes writer.old) (W.written_bytes writer.new)
        answered.now.output.items) }
    ensures works { OnOk result (W.has_failed writer.new ≡ false) }
    ensures only { IfErr result (λ fault. fault ≡ CheckFault.Write) }
    ensures fails { IfErr result (λ fault. W.has_failed writer.new ≡ true) }
    ensures prefix { IfErr result (λ fault. AppendsProperPrefix (W.written_bytes writer.old)
        (W.written_bytes writer.new) answered.now.output.items) }
{
    if write_whole(writer, &answered.output) {
        Ok(answered.outcome)
    } else {
        Err(CheckFault::Write)
    }
}

/// Writes all of `bytes`, or returns false if the writer failed.
pub(crate) fn write_whole<W: Sink>(writer: &mut W, bytes: &[u8]) -> bool
    ensures all { result ≡ true →
        Appends (W.written_bytes writer.old) (W.written_bytes writer.new) bytes.now }
    ensures works { result ≡ true → W.has_failed writer.new ≡ W.has_failed writer.old }
    ensures fails { result ≡ false → W.has_failed writer.new ≡ true }
    ensures prefix { result ≡ false →
        AppendsProperPrefix (W.written_bytes writer.old) (W.written_bytes writer.new) bytes.now }
{
    let mut rest = bytes;
    while !rest.is_empty() {
        match writer.write(rest) {
            Ok(0) | Err(_) => return false,
            Ok(count) => rest = &rest[count..],
        }
    }
    true
}
