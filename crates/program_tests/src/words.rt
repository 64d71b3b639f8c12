//! The words of a command line.

use clap::error::ErrorKind;
use command_line::{Request, read_words};
use std::alloc::Global;

/// The command and the number of workers, or why the words are refused.
type WordsResult = Result<(Request, usize), ErrorKind>;

fn read_test_words(alloc: Global, words: &[&str]) -> WordsResult {
    match read_words(alloc, words) {
        Ok(asked) => Ok((asked.request, asked.workers)),
        Err(error) => Err(error.kind()),
    }
}

const WORDS: [(&[&str], WordsResult); 29] = [
    (&["run"], Ok((Request::Run, 1))),
    (&["value"], Ok((Request::Value, 1))),
    (&["modules"], Ok((Request::Modules, 1))),
    (&["migrate"], Ok((Request::Migrate, 1))),
    (&["check"], Ok((Request::Check, 1))),
    (&["check", "--workers", "1"], Ok((Request::Check, 1))),
    (&["check", "--workers", "7"], Ok((Request::Check, 7))),
    (&["check", "--workers=64"], Ok((Request::Check, 64))),
    (&["check", "--workers", "+007"], Ok((Request::Check, 7))),
    (&[], Err(ErrorKind::MissingSubcommand)),
    (&["prove"], Err(ErrorKind::InvalidSubcommand)),
    (&["run", "x"], Err(ErrorKind::UnknownArgument)),
    (&["--help"], Err(ErrorKind::DisplayHelp)),
    (&["check", "-h"], Err(ErrorKind::DisplayHelp)),
    (&["--version"], Err(ErrorKind::DisplayVersion)),
    (&["-V"], Err(ErrorKind::DisplayVersion)),
    (&["check", "--version"], Err(ErrorKind::UnknownArgument)),
    (&["check", "--workers", "0"], VALUE),
    (&["check", "--workers", "65"], VALUE),
    (&["check", "--workers", "1.5"], VALUE),
    (&["check", "--workers", "two"], VALUE),
    (&["check", "--workers", ""], VALUE),
    (&["check", "--workers", "18446744073709551617"], VALUE),
    // After a space a word that begins with a hyphen is no value.
    (&["check", "--workers=-1"], VALUE),
    (
        &["check", "--workers", "-1"],
        Err(ErrorKind::UnknownArgument),
    ),
    (&["check", "--workers"], Err(ErrorKind::InvalidValue)),
    (
        &["check", "--workers", "2", "--workers", "2"],
        Err(ErrorKind::ArgumentConflict),
    ),
    (
        &["value", "--workers", "2"],
        Err(ErrorKind::UnknownArgument),
    ),
    (
        &["modules", "--workers", "2"],
        Err(ErrorKind::UnknownArgument),
    ),
];

const VALUE: WordsResult = Err(ErrorKind::ValueValidation);

#[test]
fn requests_of_words(rt: HostRuntime) {
    for (words, wanted) in &WORDS {
        assert!(rt; read_test_words(rt.alloc(), words) == *wanted, "{words:?}");
    }
}
