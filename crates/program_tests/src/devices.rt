//! Readers and writers that fail, and the program over them.
use check_main::{OpenGate, Over, Streams, program};
use std::alloc::Global;
use std::io;
use std::io::{ErrorKind, Read, Write};
use std::random::RandomSource;
use std::sync::Wait;
use std::thread::Threads;

/// Gives a text in pieces, and fails at a call.
#[derive(Drop)]
pub(crate) struct FailingReader<'a> {
    pub(crate) text: &'a [u8],
    pub(crate) piece: usize,
    pub(crate) calls_left: u32,
}

impl Read for FailingReader<'_> {
    fn read(&mut self, buf: &mut [u8]) -> io::Result<usize> {
        if self.calls_left == 0 {
            return Err(io::Error::from(ErrorKind::Other));
        }
        self.calls_left -= 1;
        let count = self.piece.min(buf.len());
        let part = &mut buf[..count];
        self.text.read(part)
    }
}

/// Takes some bytes, and then fails or takes none.
#[derive(Drop)]
pub(crate) struct FailingWriter {
    pub(crate) taken: Vec<u8>,
    pub(crate) room: usize,
    pub(crate) errs: bool,
}

impl FailingWriter {
    pub(crate) fn new(alloc: Global, room: usize, errs: bool) -> FailingWriter {
        FailingWriter {
            taken: Vec::new(alloc),
            room,
            errs,
        }
    }
}

impl Write for FailingWriter {
    fn write(&mut self, piece: &[u8]) -> io::Result<usize> {
        let count = self.room.min(piece.len());
        if count == 0 && self.errs {
            return Err(io::Error::from(ErrorKind::Other));
        }
        self.taken.extend_from_slice(&piece[..count])?;
        self.room -= count;
        Ok(count)
    }

    fn flush(&mut self) -> io::Result<()> {
        Ok(())
    }
}

/// A reader that gives `a` a number of times, in pieces.
#[derive(Drop)]
pub(crate) struct LetterReader {
    pub(crate) left: usize,
    pub(crate) piece: usize,
}

impl Read for LetterReader {
    fn read(&mut self, buf: &mut [u8]) -> io::Result<usize> {
        let count = self.piece.min(buf.len()).min(self.left);
        buf[..count].fill(b'a');
        self.left -= count;
        Ok(count)
    }
}

/// The status, what was written, and what was said to standard error.
#[derive(Drop)]
pub(crate) struct ProgramResult {
    status: u8,
    written: Vec<u8>,
    said: Vec<u8>,
}

impl ProgramResult {
    pub(crate) fn is(&self, status: u8, written: &[u8], said: &str) -> bool {
        self.status == status
            && self.written.as_slice() == written
            && self.said.as_slice() == said.as_bytes()
    }
}

/// Returns what the program does over a reader and a writer, if standard error takes a number of bytes and then fails.
pub(crate) fn run_program<'a, T: Threads + Wait + RandomSource + Sync, R: Read + Drop>(
    rt: &T,
    alloc: Global,
    words: &'a [&'a str],
    reader: R,
    writer: FailingWriter,
    errors: FailingWriter,
) -> ProgramResult {
    let mut streams = Streams {
        reader: Over::new(reader),
        writer: Over::new(writer),
        errors: Over::new(errors),
    };
    let status = program(rt, alloc, words, &mut streams, &OpenGate);
    let Streams { writer, errors, .. } = streams;
    let FailingWriter { taken: written, .. } = writer.into_inner();
    let FailingWriter { taken: said, .. } = errors.into_inner();
    ProgramResult {
        status,
        written,
        said,
    }
}
