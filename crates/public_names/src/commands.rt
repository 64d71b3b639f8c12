//! `check_main`.
ghost use Rattle.std.specs.Prelude.{◌≡◌, ◌<◌, ◌≤◌, false};

use certificate::Cert;
use check_main::{
    Audited, CheckFault, Gate, Outcome, Over, Sink, Source, Streams, audit, check_stream,
    migrate_stream, modules_stream, program, run_stream, value_stream,
};
use std::alloc::{AllocError, Global};
use std::io::{Read, Write};
use std::random::RandomSource;
use std::sync::Wait;
use std::thread::Threads;

/// Audits a certificate, and returns how many findings the book accepted, and whether a worker lacked memory.
pub fn audit_certificate<G: Gate + Sync, R: Threads + Wait + Sync>(
    rt: &R,
    alloc: Global,
    cert: &Cert<'_>,
    workers: usize,
    gate: &G,
) -> Result<(usize, bool), AllocError>
    requires { (0 < workers) × (workers ≤ 64) }
{
    let Audited { state, memory } = audit(rt, alloc, cert, workers, gate)?;
    Ok((state.accepted(), memory))
}

/// Checks what a reader of std gives.
pub fn check_reader<T, R, W, G>(
    rt: &T,
    alloc: Global,
    reader: R,
    writer: W,
    gate: &G,
) -> Result<Outcome, CheckFault>
where
    T: Threads + Wait + RandomSource + Sync,
    R: Read + Drop,
    W: Write + Drop,
    G: Gate + Sync,
{
    let (mut source, mut sink) = (Over::new(reader), Over::new(writer));
    check_stream(rt, alloc, &mut source, &mut sink, 4, gate)
}

/// Answers by the command of this number.
pub fn answer_by<T: RandomSource, R: Source, W: Sink>(
    rt: &T,
    alloc: Global,
    command: u8,
    reader: &mut R,
    writer: &mut W,
) -> Result<Outcome, CheckFault>
    requires reader_works { R.has_failed reader.old ≡ false }
    requires writer_works { W.has_failed writer.old ≡ false }
{
    match command {
        0 => run_stream(rt, alloc, reader, writer),
        1 => value_stream(rt, alloc, reader, writer),
        2 => modules_stream(rt, alloc, reader, writer),
        _ => migrate_stream(rt, alloc, reader, writer),
    }
}

/// Returns the number of an outcome or a fault.
pub fn number_of(ended: Result<Outcome, CheckFault>) -> u8 {
    match ended {
        Ok(Outcome::Yes) => 0,
        Ok(Outcome::No) => 1,
        Ok(Outcome::Refused) => 3,
        Err(CheckFault::Read | CheckFault::Write | CheckFault::TooLong) => 4,
        Err(CheckFault::Memory) => 5,
    }
}

/// Runs the program for words.
pub fn run_program<'a, T, R, W, E, G>(
    rt: &T,
    alloc: Global,
    words: &'a [&'a str],
    streams: &mut Streams<R, W, E>,
    gate: &G,
) -> u8
where
    T: Threads + Wait + RandomSource + Sync,
    R: Source,
    W: Sink,
    E: Sink,
    G: Gate + Sync,
    requires reader_works { R.has_failed streams.old.reader ≡ false }
    requires writer_works { W.has_failed streams.old.writer ≡ false }
{
    program(rt, alloc, words, streams, gate)
}

/// Reads once from a source and writes what came to a sink.
pub fn copy_piece<R: Source, W: Sink>(reader: &mut R, writer: &mut W) -> bool {
    let mut piece = [0; 16];
    let count = match reader.read(&mut piece) {
        Ok(count) => count.min(16),
        Err(_) => 0,
    };
    let written = writer.write(&piece[..count]).is_ok();
    written && !reader.failed() && !writer.failed()
}
