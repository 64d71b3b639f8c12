//! A file of cases. Each has a command line, what it is given on standard input, and what it must do:
//!
//! ```text
//! # An empty line and a line of this kind say nothing.
//! case a_name
//! words check --workers 2
//! input
//! | a line, after a bar and a space
//! |
//! 3 times | a line that comes three times
//! \ text without a line feed after it
//! output
//! | refused 1 1
//! errors
//! status 3
//! ```
//!
//! The words are parted by single spaces. The lines below `input`, `output` and `errors` are one text: of standard
//! input, output and error. A bar alone is an empty line. A part without lines is the empty text. If `input` is left
//! out it is empty, and if `status` is left out it is 0. If `output` or `errors` is left out, anything may be written
//! there.
#![tactic(auto)]

use std::alloc::{AllocError, AllocFailed, Global};
use thiserror::Error;

/// A case. A part that is `None` is not compared.
#[derive(Drop)]
pub struct Case<'a> {
    pub name: &'a str,
    pub words: Vec<&'a str>,
    pub input: Vec<u8>,
    pub output: Option<Vec<u8>>,
    pub errors: Option<Vec<u8>>,
    pub status: u8,
}

/// The reason why a file of cases is not read.
#[derive(Clone, Copy, Debug, Drop, Error)]
pub enum CaseFault {
    #[error("after {0} lines there is none that a file of cases may have")]
    Line(usize),
    #[error("out of memory")]
    Memory,
}

impl From<AllocError> for CaseFault {
    fn from(_error: AllocError) -> CaseFault {
        CaseFault::Memory
    }
}

impl<T: Drop> From<AllocFailed<T>> for CaseFault {
    fn from(_error: AllocFailed<T>) -> CaseFault {
        CaseFault::Memory
    }
}

// Which text of a case the lines are in.
#[derive(Clone, Copy)]
enum Part {
    Input,
    Output,
    Errors,
}

// Some bytes that come one or more times.
#[derive(Clone, Copy)]
struct Piece<'a> {
    bytes: &'a [u8],
    is_line: bool,
    times: usize,
}

#[derive(Clone, Copy)]
enum Line<'a> {
    Nothing,
    Case(&'a str),
    Words(&'a str),
    Start(Part),
    Text(Piece<'a>),
    Status(u8),
}

/// Reads a file of cases.
pub fn read_cases<'a>(alloc: Global, file: &'a [u8]) -> Result<Vec<Case<'a>>, CaseFault> {
    let mut cases = Vec::new(alloc);
    let mut part = Part::Input;
    for (number, bytes) in file.split(|b| *b == b'\n').enumerate() {
        let Some(line) = line_of(bytes) else {
            return Err(CaseFault::Line(number));
        };
        match line {
            Line::Nothing => {}
            Line::Case(name) => {
                cases.push(new_case(alloc, name))?;
                part = Part::Input;
            }
            other => {
                let Some(case) = cases.last_mut() else {
                    return Err(CaseFault::Line(number));
                };
                if let Line::Start(started) = other {
                    part = started;
                }
                add_line(alloc, case, part, other)?;
            }
        }
    }
    Ok(cases)
}

fn new_case<'a>(alloc: Global, name: &'a str) -> Case<'a> {
    Case {
        name,
        words: Vec::new(alloc),
        input: Vec::new(alloc),
        output: None,
        errors: None,
        status: 0,
    }
}

fn line_of(bytes: &[u8]) -> Option<Line<'_>> {
    match bytes {
        [] | [b'#', ..] => Some(Line::Nothing),
        [b'|', ..] | [b'\\', ..] => Some(Line::Text(piece_of(bytes, 1)?)),
        _ => keyword_line(str::from_utf8(bytes).ok()?),
    }
}

fn piece_of(bytes: &[u8], times: usize) -> Option<Piece<'_>> {
    let (bytes, is_line) = match bytes {
        [b'|'] => (&bytes[1..], true),
        [b'|', b' ', text @ ..] => (text, true),
        [b'\\', b' ', text @ ..] => (text, false),
        _ => return None,
    };
    Some(Piece {
        bytes,
        is_line,
        times,
    })
}

fn keyword_line(line: &str) -> Option<Line<'_>> {
    let (first, rest) = line.split_once(' ').unwrap_or((line, ""));
    match (first, rest) {
        ("case", name) => Some(Line::Case(name)),
        ("words", words) => Some(Line::Words(words)),
        ("input", "") => Some(Line::Start(Part::Input)),
        ("output", "") => Some(Line::Start(Part::Output)),
        ("errors", "") => Some(Line::Start(Part::Errors)),
        ("status", status) => Some(Line::Status(status.parse().ok()?)),
        (times, repeated) => {
            let text = repeated.strip_prefix("times ")?;
            let piece = piece_of(text.as_bytes(), times.parse().ok()?)?;
            Some(Line::Text(piece))
        }
    }
}

fn add_line<'a>(
    alloc: Global,
    case: &mut Case<'a>,
    part: Part,
    line: Line<'a>,
) -> Result<(), CaseFault> {
    match line {
        Line::Nothing | Line::Case(_) | Line::Start(Part::Input) => {}
        Line::Words(words) => {
            for word in words.split(' ').filter(|word| !word.is_empty()) {
                case.words.push(word)?;
            }
        }
        Line::Start(Part::Output) => case.output = Some(Vec::new(alloc)),
        Line::Start(Part::Errors) => case.errors = Some(Vec::new(alloc)),
        Line::Text(piece) => match part {
            Part::Input => add_piece(alloc, &mut case.input, &piece)?,
            Part::Output => add_to_wanted_text(alloc, &mut case.output, &piece)?,
            Part::Errors => add_to_wanted_text(alloc, &mut case.errors, &piece)?,
        },
        Line::Status(status) => case.status = status,
    }
    Ok(())
}

fn add_to_wanted_text(
    alloc: Global,
    wanted: &mut Option<Vec<u8>>,
    piece: &Piece<'_>,
) -> Result<(), CaseFault> {
    match wanted {
        Some(text) => add_piece(alloc, text, piece),
        None => Ok(()),
    }
}

fn add_piece(alloc: Global, text: &mut Vec<u8>, piece: &Piece<'_>) -> Result<(), CaseFault> {
    let mut once = Vec::new(alloc);
    once.extend_from_slice(piece.bytes)?;
    if piece.is_line {
        once.push(b'\n')?;
    }
    let all = once.as_slice().repeat(alloc, piece.times)?;
    text.extend_from_slice(&all)?;
    Ok(())
}
