//! std's readers and writers, whose interrupted calls are made again.
ghost use Rattle.std.specs.Prelude.{◌≡◌, ◌≢◌, false, IfErr, IsErr, IsTrue};
ghost use Rattle.std.specs.IoError.{error_kind};

use std::io;
use std::io::{ErrorKind, Read, Write};

/// The most calls in a row that are made again after an interruption.
const MAX_TRIES: u32 = 1_000_000;

/// A reader or writer of std that makes a call again if a signal interrupted it.
///
/// `cat` and Python do so too: an interruption is no fault. After a million interruptions in a row it returns the
/// error.
#[derive(Drop)]
pub struct Retrying<T> {
    inner: T,
}

impl<T> Retrying<T> {
    ghost use Rattle.streams.specs.Retrying.{inner_of};

    /// Wraps a reader or writer.
    pub fn new(inner: T) -> Retrying<T>
        ensures { inner_of result ≡ inner }
    {
        Retrying { inner }
    }
}

impl<R: Read> Read for Retrying<R> {
    ghost use Rattle.streams.specs.Retrying.{inner_of};

    ghost remaining = { λ s. R.remaining (inner_of s) };

    fn read(&mut self, buf: &mut [u8]) -> io::Result<usize> {
        for _ in 0..MAX_TRIES {
            let done = self.inner.read(buf);
            if !is_interrupted(&done) {
                return done;
            }
        }
        self.inner.read(buf)
    }
}

impl<W: Write> Write for Retrying<W> {
    ghost use Rattle.streams.specs.Retrying.{inner_of};

    ghost contents = { λ s. W.contents (inner_of s) };

    fn write(&mut self, piece: &[u8]) -> io::Result<usize> {
        for _ in 0..MAX_TRIES {
            let done = self.inner.write(piece);
            if !is_interrupted(&done) {
                return done;
            }
        }
        self.inner.write(piece)
    }

    fn flush(&mut self) -> io::Result<()> {
        self.inner.flush()
    }
}

// Whether a call was interrupted before it did anything.
fn is_interrupted(done: &io::Result<usize>) -> bool
    ensures error { IsTrue result → IsErr done.now }
    ensures interrupted { IsTrue result →
        IfErr done.now (λ error. error_kind error ≡ ErrorKind.Interrupted) }
    ensures other { result ≡ false →
        IfErr done.now (λ error. error_kind error ≢ ErrorKind.Interrupted) }
{
    match done {
        Ok(_) => false,
        Err(error) => error.kind() == ErrorKind::Interrupted,
    }
}
