//! The source of a text's bytes, and the sink of an answer's.
ghost use Rattle.std.specs.Prelude.{◌≡◌, ◌||◌, ℕ, Bool, List, Option, is_err};
ghost use Rattle.std.specs.Io.{ReadsAtMost, WritesAtMost};
ghost use Rattle.std.specs.Io.KnownBytes.{ReadConsumes, WriteAppends};
ghost use Rattle.streams.specs.Device.{write_fails};

use std::io;

/// The source of a text's bytes.
pub trait Source {
    // The bytes that reads will give from here on, where they are known.
    ghost left: { Self → Option (List ℕ) };

    // Whether a read has failed.
    ghost has_failed: { Self → Bool };

    /// Reads some bytes into the front of `buf`. No byte at a `buf` with room is the end.
    fn read(&mut self, buf: &mut [u8]) -> io::Result<usize>
        ensures bound { ReadsAtMost result buf.new }
        ensures bytes { ReadConsumes (left self.old) (left self.new) result buf.new }
        ensures failure { has_failed self.new ≡ (has_failed self.old || is_err result) };

    /// Returns whether a read has failed.
    fn failed(&self) -> bool
        ensures { result ≡ has_failed self.now };
}

/// The sink of an answer's bytes.
pub trait Sink {
    // The bytes that the writer holds, where they are known.
    ghost written_bytes: { Self → Option (List ℕ) };

    // Whether a write has failed.
    ghost has_failed: { Self → Bool };

    /// Takes some bytes from the front of `piece`. To take none of a piece that is not empty is a failure.
    fn write(&mut self, piece: &[u8]) -> io::Result<usize>
        ensures bound { WritesAtMost result piece.now }
        ensures bytes { WriteAppends (written_bytes self.old) (written_bytes self.new) result
            piece.now }
        ensures failure { has_failed self.new
            ≡ (has_failed self.old || write_fails result piece.now) };

    /// Returns whether a write has failed.
    fn failed(&self) -> bool
        ensures { result ≡ has_failed self.now };
}
