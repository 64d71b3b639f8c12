//! A reader on which a text is awaited.
ghost use Rattle.std.specs.Prelude.{◌≡◌};

use std::io;
use std::io::{IsTerminal, Read, Write};

const PROMPT: &[u8] = b"bbmcheck: the text is awaited on this terminal, and ends with Ctrl-D\n";

/// A reader, as standard input, with a message before the first read if it is a terminal.
///
/// The message goes to `errors`. A read gives what the reader gives: an error stays an error, and is never the end of
/// the text.
#[derive(Drop)]
pub struct Prompting<R, W> {
    input: R,
    errors: W,
    is_told: bool,
}

impl<R, W> Prompting<R, W> {
    ghost use Rattle.streams.specs.Awaited.{input_of};

    /// Wraps a reader of which nothing was read yet.
    pub fn new(input: R, errors: W) -> Prompting<R, W>
        ensures { input_of result ≡ input }
    {
        Prompting {
            input,
            errors,
            is_told: false,
        }
    }
}

impl<R: Read + IsTerminal, W: Write> Read for Prompting<R, W> {
    ghost use Rattle.streams.specs.Awaited.{input_of};

    ghost remaining = { λ s. R.remaining (input_of s) };

    fn read(&mut self, buf: &mut [u8]) -> io::Result<usize> {
        if !self.is_told && self.input.is_terminal() {
            // That this line cannot be written changes nothing.
            let _ = self.errors.write_all(PROMPT);
        }
        self.is_told = true;
        self.input.read(buf)
    }
}
