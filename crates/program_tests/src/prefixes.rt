//! Every front of a bundle, in pieces of several lengths. The expected results follow from the format: the line behind
//! the whole ones is not ended.

use crate::devices::{FailingReader, FailingWriter, ProgramResult, run_program};
use std::alloc::Global;
use std::random::RandomSource;
use std::sync::Wait;
use std::thread::Threads;
use test_support::GOOD_BUNDLE;

/// Returns what `check` does over the first `length` bytes of the bundle, in pieces of `piece` bytes.
fn check_of_first_bytes<T: Threads + Wait + RandomSource + Sync>(
    rt: &T,
    alloc: Global,
    length: usize,
    piece: usize,
) -> ProgramResult {
    let reader = FailingReader {
        text: GOOD_BUNDLE.as_bytes().get(..length).unwrap_or(b""),
        piece,
        calls_left: 10_000,
    };
    let writer = FailingWriter::new(alloc, 100, true);
    let errors = FailingWriter::new(alloc, 100, true);
    run_program(rt, alloc, &["check"], reader, writer, errors)
}

#[test]
fn each_cut_text_is_refused(rt: HostRuntime) {
    let mut line = 1_u32;
    for (length, byte) in GOOD_BUNDLE.bytes().enumerate() {
        let wanted = format!(in rt.alloc(); "refused {line} 12\n").expect(&rt, "a line");
        for piece in [1, 2, 7, 4096] {
            let seen = check_of_first_bytes(&rt, rt.alloc(), length, piece);
            assert!(rt; seen.is(3, wanted.as_bytes(), ""), "{length} {piece}");
        }
        if byte == b'\n' {
            line = line.saturating_add(1);
        }
    }
    assert!(rt; line == 44);
}
