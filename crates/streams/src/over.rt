//! std's readers and writers, with the fact whether they have failed.
ghost use Rattle.std.specs.Prelude.{◌≡◌, false};

use crate::{Sink, Source};
use std::io;
use std::io::{Read, Write};

/// A reader or writer of std, with the fact whether it has failed.
#[derive(Drop)]
pub struct Over<T> {
    inner: T,
    failed: bool,
}

impl<T> Over<T> {
    ghost use Rattle.streams.specs.Over.{inner_of, failed_of};

    /// Wraps a reader or writer that has not failed.
    pub fn new(inner: T) -> Over<T>
        ensures inner { inner_of result ≡ inner }
        ensures failed { failed_of result ≡ false }
    {
        Over {
            inner,
            failed: false,
        }
    }

    /// Returns the reader or writer inside.
    pub fn get_ref(&self) -> &T
        ensures { result.now ≡ inner_of self.now }
    {
        &self.inner
    }

    /// Gives the reader or writer back.
    pub fn into_inner(self) -> T
        ensures { result ≡ inner_of self }
    {
        let Over { inner, failed: _ } = self;
        inner
    }
}

impl<R: Read> Source for Over<R> {
    ghost use Rattle.streams.specs.Over.{inner_of, failed_of};

    ghost left = { λ s. R.remaining (inner_of s) };

    ghost has_failed = { λ s. failed_of s };

    fn read(&mut self, buf: &mut [u8]) -> io::Result<usize> {
        let result = self.inner.read(buf);
        if result.is_err() {
            self.failed = true;
        }
        result
    }

    fn failed(&self) -> bool {
        self.failed
    }
}

impl<W: Write> Sink for Over<W> {
    ghost use Rattle.streams.specs.Over.{inner_of, failed_of};

    ghost written_bytes = { λ s. W.contents (inner_of s) };

    ghost has_failed = { λ s. failed_of s };

    fn write(&mut self, piece: &[u8]) -> io::Result<usize> {
        let result = self.inner.write(piece);
        match &result {
            Ok(0) if !piece.is_empty() => self.failed = true,
            Ok(_) => {}
            Err(_) => self.failed = true,
        }
        result
    }

    fn failed(&self) -> bool {
        self.failed
    }
}
