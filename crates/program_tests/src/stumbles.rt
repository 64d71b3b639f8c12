//! Devices that fail once and then go on, and writers that take few bytes a call.

use crate::bundles::{NO_REPORT, YES_REPORT};
use check_main::{CheckFault, Outcome, Over, Sink, Source, Streams, check_stream, program};
use job_pool::OpenGate;
use std::alloc::Global;
use std::io;
use std::io::{ErrorKind, Read, Write};
use std::random::RandomSource;
use std::sync::Wait;
use std::thread::Threads;
use test_support::{BAD_BUNDLE, GOOD_BUNDLE};

/// A reader that gives a text in pieces of eight bytes. The call after `before` calls fails, and those after it go on.
#[derive(Drop)]
struct StumblingReader<'a> {
    text: &'a [u8],
    before: Option<usize>,
}

impl Read for StumblingReader<'_> {
    fn read(&mut self, buf: &mut [u8]) -> io::Result<usize> {
        if self.before == Some(0) {
            self.before = None;
            return Err(io::Error::from(ErrorKind::Other));
        }
        self.before = self.before.map(|before| before.saturating_sub(1));
        let count = buf.len().min(8);
        self.text.read(&mut buf[..count])
    }
}

/// A writer that takes `piece` bytes a call. The call after `before` calls fails or takes none, and those after it go
/// on.
#[derive(Drop)]
struct StumblingWriter {
    taken: Vec<u8>,
    piece: usize,
    before: Option<usize>,
    errs: bool,
}

impl Write for StumblingWriter {
    fn write(&mut self, piece: &[u8]) -> io::Result<usize> {
        if self.before == Some(0) {
            self.before = None;
            if self.errs {
                return Err(io::Error::from(ErrorKind::Other));
            }
            return Ok(0);
        }
        self.before = self.before.map(|before| before.saturating_sub(1));
        let count = self.piece.min(piece.len());
        self.taken.extend_from_slice(&piece[..count])?;
        Ok(count)
    }

    fn flush(&mut self) -> io::Result<()> {
        Ok(())
    }
}

/// Returns the end of `check` over a text of which a read fails after `before` reads, how much was written, and whether
/// the fault stays.
fn check_with_failing_read<T: Threads + Wait + RandomSource + Sync>(
    rt: &T,
    alloc: Global,
    text: &str,
    before: usize,
) -> (Result<Outcome, CheckFault>, usize, bool) {
    let mut reader = Over::new(StumblingReader {
        text: text.as_bytes(),
        before: Some(before),
    });
    let mut writer = Over::new(Vec::new(alloc));
    let ended = check_stream(rt, alloc, &mut reader, &mut writer, 2, &OpenGate);
    let was_told = reader.failed();
    // the next read goes well
    let goes_on = reader.read(&mut [0; 8]).is_ok();
    let stays = was_told && goes_on && reader.failed();
    (ended, writer.get_ref().len(), stays)
}

#[test]
fn a_read_that_fails_once_ends_it(rt: HostRuntime) {
    for text in [GOOD_BUNDLE, BAD_BUNDLE] {
        // pieces of eight bytes, and the end
        for before in 0..text.len().div_ceil(8) + 1 {
            let seen = check_with_failing_read(&rt, rt.alloc(), text, before);
            assert!(rt; seen == (Err(CheckFault::Read), 0, true), "{before}");
        }
    }
}

/// Returns the end of `check` over the refused bundle if a write fails, or takes none, after `before` writes of seven
/// bytes.
///
/// It also returns what was written, and whether the fault stays.
fn check_with_failing_write<T: Threads + Wait + RandomSource + Sync>(
    rt: &T,
    alloc: Global,
    before: usize,
    errs: bool,
) -> (Result<Outcome, CheckFault>, Vec<u8>, bool) {
    let mut reader = Over::new(BAD_BUNDLE.as_bytes());
    let mut writer = Over::new(StumblingWriter {
        taken: Vec::new(alloc),
        piece: 7,
        before: Some(before),
        errs,
    });
    let ended = check_stream(rt, alloc, &mut reader, &mut writer, 2, &OpenGate);
    let was_told = writer.failed();
    // the next write goes well
    let goes_on = matches!(writer.write(b"!"), Ok(1));
    let stays = was_told && goes_on && writer.failed();
    let StumblingWriter { mut taken, .. } = writer.into_inner();
    let is_last = taken.pop() == Some(b'!');
    (ended, taken, stays && is_last)
}

#[test]
fn a_write_that_fails_once_ends_it(rt: HostRuntime) {
    for errs in [false, true] {
        for before in 0..NO_REPORT.len().div_ceil(7) {
            let (ended, taken, stays) = check_with_failing_write(&rt, rt.alloc(), before, errs);
            assert!(rt; ended == Err(CheckFault::Write) && stays, "{before}");
            let front = NO_REPORT.as_bytes().chunks(7).take(before).flatten();
            assert!(rt; taken.iter().eq(front), "{before}");
        }
    }
}

/// Returns what is written of the report on a text, if a write takes `piece` bytes.
fn report_by_short_writes<T: Threads + Wait + RandomSource + Sync>(
    rt: &T,
    alloc: Global,
    text: &str,
    piece: usize,
) -> Vec<u8> {
    let mut streams = Streams {
        reader: Over::new(text.as_bytes()),
        writer: Over::new(StumblingWriter {
            taken: Vec::new(alloc),
            piece,
            before: None,
            errs: false,
        }),
        errors: Over::new(Vec::new(alloc)),
    };
    program(rt, alloc, &["check"], &mut streams, &OpenGate);
    let StumblingWriter { taken, .. } = streams.writer.into_inner();
    taken
}

#[test]
fn short_writes_make_the_same_report(rt: HostRuntime) {
    for (text, report) in [(GOOD_BUNDLE, YES_REPORT), (BAD_BUNDLE, NO_REPORT)] {
        for piece in [1, 2, 7] {
            let taken = report_by_short_writes(&rt, rt.alloc(), text, piece);
            assert!(rt; taken.as_slice() == report.as_bytes(), "{piece}");
        }
    }
}
