//! Puts a case through the program.

use case_text::Case;
use check_main::{OpenGate, Over, Streams, program};
use std::alloc::Global;
use std::fmt;
use std::random::RandomSource;
use std::sync::Wait;
use std::thread::Threads;

/// A difference between what a case does and what it must do.
#[derive(Drop)]
pub enum Difference {
    Status { wanted: u8, got: u8 },
    Output { equal_lines: usize },
    Errors { equal_lines: usize },
}

impl fmt::Display for Difference {
    fn fmt<W: fmt::Write>(&self, f: &mut fmt::Formatter<W>) -> fmt::Result {
        match self {
            Difference::Status { wanted, got } => {
                write!(f, "the status is {got} and not {wanted}")
            }
            Difference::Output { equal_lines } => {
                write!(f, "standard output differs after {equal_lines} equal lines")
            }
            Difference::Errors { equal_lines } => {
                write!(f, "standard error differs after {equal_lines} equal lines")
            }
        }
    }
}

/// Returns the first difference of a case, if there is one.
pub fn difference_of<R: Threads + Wait + RandomSource + Sync>(
    rt: &R,
    alloc: Global,
    case: &Case<'_>,
) -> Option<Difference> {
    let mut streams = Streams {
        reader: Over::new(case.input.as_slice()),
        writer: Over::new(Vec::new(alloc)),
        errors: Over::new(Vec::new(alloc)),
    };
    let got = program(rt, alloc, &case.words, &mut streams, &OpenGate);
    if got != case.status {
        return Some(Difference::Status {
            wanted: case.status,
            got,
        });
    }
    if let Some(equal_lines) = equal_line_count_before_difference(
        &case.output,
        streams.writer.get_ref(),
    ) {
        return Some(Difference::Output { equal_lines });
    }
    let equal_lines = equal_line_count_before_difference(&case.errors, streams.errors.get_ref())?;
    Some(Difference::Errors { equal_lines })
}

// How many lines are equal before the first that is not, where the texts differ.
fn equal_line_count_before_difference(wanted: &Option<Vec<u8>>, got: &[u8]) -> Option<usize> {
    let wanted = wanted.as_ref()?.as_slice();
    if wanted == got {
        return None;
    }
    let same = wanted.iter().zip(got).take_while(|(a, b)| a == b);
    Some(same.filter(|(a, _)| **a == b'\n').count())
}
