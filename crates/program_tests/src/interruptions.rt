//! Reads and writes that signals interrupt.
use crate::devices::{FailingWriter, LetterReader};
use check_main::Retrying;
use std::io;
use std::io::{ErrorKind, Read, Write};

/// A stream that is interrupted before each call that gives or takes something.
#[derive(Drop)]
struct Interrupted<T> {
    inner: T,
    is_ready: bool,
}

impl<T> Interrupted<T> {
    fn new(inner: T) -> Interrupted<T> {
        Interrupted {
            inner,
            is_ready: false,
        }
    }
}

impl<R: Read> Read for Interrupted<R> {
    fn read(&mut self, buf: &mut [u8]) -> io::Result<usize> {
        self.is_ready = !self.is_ready;
        if self.is_ready {
            return Err(io::Error::from(ErrorKind::Interrupted));
        }
        self.inner.read(buf)
    }
}

impl<W: Write> Write for Interrupted<W> {
    fn write(&mut self, piece: &[u8]) -> io::Result<usize> {
        self.is_ready = !self.is_ready;
        if self.is_ready {
            return Err(io::Error::from(ErrorKind::Interrupted));
        }
        self.inner.write(piece)
    }

    fn flush(&mut self) -> io::Result<()> {
        self.inner.flush()
    }
}

#[test]
fn interrupted_reads_are_made_again(rt: HostRuntime) {
    let letters = LetterReader { left: 5, piece: 2 };
    let mut reader = Retrying::new(Interrupted::new(letters));
    let mut buf = [0u8; 4];
    for wanted in [2, 2, 1, 0] {
        assert!(rt; reader.read(&mut buf).ok() == Some(wanted), "{wanted}");
    }
}

#[test]
fn interrupted_writes_are_made_again(rt: HostRuntime) {
    let room = FailingWriter::new(rt.alloc(), 3, true);
    let mut writer = Retrying::new(Interrupted::new(room));
    assert!(rt; writer.write(b"ab").ok() == Some(2));
    assert!(rt; writer.write(b"cd").ok() == Some(1));
    assert!(rt; writer.write(b"e").is_err());
    assert!(rt; writer.flush().is_ok());
}

/// A stream whose first call fails, and whose later calls would succeed.
#[derive(Drop)]
struct FailingOnce<T> {
    inner: T,
    kind: ErrorKind,
    has_failed: bool,
}

impl<T> FailingOnce<T> {
    fn new(inner: T, kind: ErrorKind) -> FailingOnce<T> {
        FailingOnce {
            inner,
            kind,
            has_failed: false,
        }
    }
}

impl<R: Read> Read for FailingOnce<R> {
    fn read(&mut self, buf: &mut [u8]) -> io::Result<usize> {
        if !self.has_failed {
            self.has_failed = true;
            return Err(io::Error::from(self.kind));
        }
        self.inner.read(buf)
    }
}

impl<W: Write> Write for FailingOnce<W> {
    fn write(&mut self, piece: &[u8]) -> io::Result<usize> {
        if !self.has_failed {
            self.has_failed = true;
            return Err(io::Error::from(self.kind));
        }
        self.inner.write(piece)
    }

    fn flush(&mut self) -> io::Result<()> {
        self.inner.flush()
    }
}

#[test]
fn other_read_errors_are_final(rt: HostRuntime) {
    for kind in [ErrorKind::WouldBlock, ErrorKind::TimedOut, ErrorKind::Other] {
        let letters = LetterReader { left: 5, piece: 2 };
        let mut reader = Retrying::new(FailingOnce::new(letters, kind));
        let mut buf = [0u8; 4];
        assert!(rt; reader.read(&mut buf).is_err());
        assert!(rt; reader.read(&mut buf).ok() == Some(2));
    }
}

#[test]
fn other_write_errors_are_final(rt: HostRuntime) {
    for kind in [
        ErrorKind::WouldBlock,
        ErrorKind::StorageFull,
        ErrorKind::Other,
    ] {
        let room = FailingWriter::new(rt.alloc(), 3, true);
        let mut writer = Retrying::new(FailingOnce::new(room, kind));
        assert!(rt; writer.write(b"ab").is_err());
        assert!(rt; writer.write(b"ab").ok() == Some(2));
    }
}

/// Takes all bytes, and cannot be flushed.
#[derive(Drop)]
struct Unflushable;

impl Write for Unflushable {
    fn write(&mut self, piece: &[u8]) -> io::Result<usize> {
        Ok(piece.len())
    }

    fn flush(&mut self) -> io::Result<()> {
        Err(io::Error::from(ErrorKind::Other))
    }
}

#[test]
fn a_flush_is_passed_on(rt: HostRuntime) {
    let mut writer = Retrying::new(Unflushable);
    assert!(rt; writer.write(b"ab").ok() == Some(2));
    assert!(rt; writer.flush().is_err());
}
