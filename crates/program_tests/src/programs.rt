//! The program's statuses and texts, over readers and writers of which some fail.

use crate::bundles::{NO_REPORT, YES_REPORT};
use crate::devices::{FailingReader, FailingWriter, LetterReader, ProgramResult, run_program};
use crate::gates::{HoldRule, HoldingGate};
use check_main::{CheckFault, OpenGate, Over, Streams, program};
use std::alloc::Global;
use std::random::RandomSource;
use std::sync::Wait;
use std::thread::Threads;
use test_support::{BAD_BUNDLE, GOOD_BUNDLE};

/// A layout in which two balls collide, and both its inputs.
const RUN_TEXT: &str =
    "layout 8 8 3\nin p 2 2\nin q 5 5\nout a 5 2\nout b 2 2\nout c 5 5\nout d 2 5\nend\nassign\non p\non q\nend\n";

const RUN_ANSWER: &str = "cells 2\n5 2\n2 5\n";

/// A command with its text, its status and its answer.
struct Command {
    words: &'static [&'static str],
    text: &'static str,
    status: u8,
    answer: &'static str,
}

const HELP: &str = concat!(
    "Evaluates a circuit under an assignment\n",
    "\n",
    "Reads: a circuit and an assign section, which names the inputs that are on\n",
    "Writes: the value of each wire, up to a gate that has no row for its inputs\n",
    "\n",
    "Exit statuses:\n",
    "  0  each wire has its value\n",
    "  1  a gate has no row for its inputs\n",
    "  2  the arguments are wrong\n",
    "  3  the text was refused, with the line `refused LINE CODE`\n",
    "  4  a read or a write failed, or the text is longer than its limit\n",
    "  5  memory ran out\n",
    "\n",
    "Usage: bbmcheck value < CIRCUIT_AND_ASSIGN\n",
    "\n",
    "Options:\n",
    "  -h, --help  Print help\n",
    "\n",
    "Example:\n",
    "  bbmcheck value < circuit_and_assign.txt\n",
);

// The last one reads nothing.
const COMMANDS: [Command; 7] = [
    Command {
        words: &["run"],
        text: RUN_TEXT,
        status: 0,
        answer: RUN_ANSWER,
    },
    // a collision gate with both inputs named, of which one is on
    Command {
        words: &["value"],
        text: "circuit\ninput p\ninput q\ninteract p q -> a b c d\noutput a\noutput b\noutput c\noutput d\nend\nassign\non p\nend\n",
        status: 0,
        answer: "p 1\nq 0\na 0\nb 0\nc 1\nd 0\n",
    },
    Command {
        words: &["check", "--workers", "2"],
        text: BAD_BUNDLE,
        status: 1,
        answer: NO_REPORT,
    },
    Command {
        words: &["run"],
        text: "limits 2\nlayout 514 2 0\nball 513 1\nend\nassign\nend\n",
        status: 0,
        answer: "cells 1\n513 1\n",
    },
    Command {
        words: &["run"],
        text: "limits 3\nlayout 514 2 0\nball 513 1\nend\nassign\nend\n",
        status: 3,
        answer: "refused 1 1\n",
    },
    Command {
        words: &["run"],
        text: "layout 514 2 0\nball 513 1\nend\nassign\nend\n",
        status: 3,
        answer: "refused 1 2\n",
    },
    Command {
        words: &["value", "--help"],
        text: "",
        status: 0,
        answer: HELP,
    },
];

// More than any answer here, and more calls than any text here needs.
const AMPLE: usize = 1_000;

/// Returns what a command does if its text comes in pieces of `piece` bytes, and a read fails after `calls_left` calls.
fn result_in_pieces<T: Threads + Wait + RandomSource + Sync>(
    rt: &T,
    alloc: Global,
    command: &Command,
    piece: usize,
    calls_left: u32,
) -> ProgramResult {
    let reader = FailingReader {
        text: command.text.as_bytes(),
        piece,
        calls_left,
    };
    let writer = FailingWriter::new(alloc, AMPLE, true);
    let errors = FailingWriter::new(alloc, AMPLE, true);
    run_program(rt, alloc, command.words, reader, writer, errors)
}

#[test]
fn answers_however_the_text_is_cut(rt: HostRuntime) {
    for command in &COMMANDS {
        for piece in [1, 2, 3, 4, 5, 6, 7, 8, 9, 4096] {
            let seen = result_in_pieces(&rt, rt.alloc(), command, piece, 1_000);
            let answer = command.answer.as_bytes();
            assert!(rt; seen.is(command.status, answer, ""), "{piece}");
        }
    }
}

#[test]
fn read_fault_is_reported(rt: HostRuntime) {
    for command in &COMMANDS[..6] {
        // Pieces of eight bytes, and the end.
        let calls = command.text.len().div_ceil(8).min(1_000) as u32 + 1;
        for calls_left in 0..calls {
            let seen = result_in_pieces(&rt, rt.alloc(), command, 8, calls_left);
            assert!(rt; seen.is(4, b"", "bbmcheck: read fault\n"), "{calls_left}");
        }
        let seen = result_in_pieces(&rt, rt.alloc(), command, 8, calls);
        assert!(rt; seen.is(command.status, command.answer.as_bytes(), ""));
    }
}

/// The letters of a text, the bytes of its pieces, the status, and what is written and said.
///
/// The texts have no end, one letter more than a text may have, and as many as it may, which are one line that is not
/// ended. In 4096 pieces of 4096 bytes there are exactly as many.
const LONG_TEXTS: [(usize, usize, u8, &str, &str); 3] = [
    (usize::MAX, 65_536, 4, "", "bbmcheck: text too long\n"),
    (16_777_217, 4096, 4, "", "bbmcheck: text too long\n"),
    (16_777_216, 4096, 3, "refused 1 12\n", ""),
];

#[test]
fn too_long_texts_are_refused(rt: HostRuntime) {
    for (left, piece, status, written, said) in LONG_TEXTS {
        let reader = LetterReader { left, piece };
        let writer = FailingWriter::new(rt.alloc(), AMPLE, true);
        let errors = FailingWriter::new(rt.alloc(), AMPLE, true);
        let seen = run_program(&rt, rt.alloc(), &["run"], reader, writer, errors);
        assert!(rt; seen.is(status, written.as_bytes(), said), "{left}");
    }
}

/// Returns what a command does if `room` bytes can be written.
fn result_with_room<T: Threads + Wait + RandomSource + Sync>(
    rt: &T,
    alloc: Global,
    command: &Command,
    room: usize,
    errs: bool,
) -> ProgramResult {
    let reader = command.text.as_bytes();
    let writer = FailingWriter::new(alloc, room, errs);
    let errors = FailingWriter::new(alloc, AMPLE, true);
    run_program(rt, alloc, command.words, reader, writer, errors)
}

#[test]
fn front_is_written_before_fault(rt: HostRuntime) {
    for command in &COMMANDS {
        let answer = command.answer.as_bytes();
        for room in 0..answer.len() {
            for errs in [false, true] {
                let seen = result_with_room(&rt, rt.alloc(), command, room, errs);
                assert!(rt;
                    seen.is(4, &answer[..room], "bbmcheck: write fault\n"),
                    "{room}"
                );
            }
        }
    }
}

const NUMBERS: &str =
    "error: '--workers <N>' takes a whole number from 1 to 64, for example '--workers 4'\n\nUsage: bbmcheck check [--workers N] < BUNDLE\n\nFor more information, try '--help'.\n";

/// Words, the status, and what is said, if nothing can be read.
const UNREAD_CASES: [(&[&str], u8, &str, &str); 5] = [
    (&["value", "--help"], 0, HELP, ""),
    (&["check", "--workers", "four"], 2, "", NUMBERS),
    (&["check", "--workers=65"], 2, "", NUMBERS),
    (
        &["prove"],
        2,
        "",
        "error: unrecognized subcommand 'prove'\n\nUsage: bbmcheck <COMMAND> < TEXT\n\nFor more information, try '--help'.\n",
    ),
    (
        &[""],
        2,
        "",
        "error: unrecognized subcommand ''\n\nUsage: bbmcheck <COMMAND> < TEXT\n\nFor more information, try '--help'.\n",
    ),
];

#[test]
fn reads_nothing_for_wrong_words(rt: HostRuntime) {
    for (words, status, written, said) in &UNREAD_CASES {
        let reader = FailingReader {
            text: b"",
            piece: 1,
            calls_left: 0,
        };
        let writer = FailingWriter::new(rt.alloc(), AMPLE, true);
        let errors = FailingWriter::new(rt.alloc(), AMPLE, true);
        let seen = run_program(&rt, rt.alloc(), words, reader, writer, errors);
        assert!(rt; seen.is(*status, written.as_bytes(), said), "{words:?}");
    }
}

/// Words, how many reads succeed, and the status, if standard error fails.
const UNHEARD_CASES: [(&[&str], u32, u8, &str, &str); 3] = [
    (&["prove"], 0, 2, "", "error: unrecognized subcommand"),
    (&["run"], 3, 4, "", "bbmcheck: read fault\n"),
    (&["run"], 1_000, 0, RUN_ANSWER, ""),
];

#[test]
fn failing_stderr_is_ignored(rt: HostRuntime) {
    for (words, calls_left, status, written, said) in &UNHEARD_CASES {
        for room in [0, 1, 10, 12] {
            let reader = FailingReader {
                text: RUN_TEXT.as_bytes(),
                piece: 8,
                calls_left: *calls_left,
            };
            let writer = FailingWriter::new(rt.alloc(), AMPLE, true);
            let errors = FailingWriter::new(rt.alloc(), room, true);
            let seen = run_program(&rt, rt.alloc(), words, reader, writer, errors);
            let said = said.get(..room).unwrap_or("");
            assert!(rt; seen.is(*status, written.as_bytes(), said), "{words:?}");
        }
    }
}

#[test]
fn names_each_fault_in_words(rt: HostRuntime) {
    let words = [
        (CheckFault::Read, "read fault"),
        (CheckFault::Write, "write fault"),
        (CheckFault::TooLong, "text too long"),
        (CheckFault::Memory, "out of memory"),
    ];
    for (fault, text) in words {
        let shown = fault.to_string(rt.alloc()).expect(&rt, "a text");
        assert!(rt; shown.as_str() == text);
    }
}

/// Checks that two workers run. Each of them waits until the other has begun, so one alone would be late.
#[test]
fn workers_option_is_obeyed(rt: HostRuntime) {
    let gate = HoldingGate::new(HoldRule::FirstTwo);
    let mut streams = Streams {
        reader: Over::new(GOOD_BUNDLE.as_bytes()),
        writer: Over::new(Vec::new(rt.alloc())),
        errors: Over::new(Vec::new(rt.alloc())),
    };
    let words = ["check", "--workers", "2"];
    let status = program(&rt, rt.alloc(), &words, &mut streams, &gate);
    assert!(rt; status == 0 && streams.writer.get_ref().as_slice() == YES_REPORT.as_bytes());
    assert!(rt; gate.was_gate_kept());
}

/// Checks that each run ends in the whole answer, or out of memory with nothing written.
///
/// It passes too if an allocation is refused.
#[test]
fn answer_is_whole_or_no_memory(rt: HostRuntime) {
    for command in &COMMANDS {
        let (mut room, mut said) = ([0u8; 640], [0u8; 144]);
        let mut streams = Streams {
            reader: Over::new(command.text.as_bytes()),
            writer: Over::new(room.as_mut_slice()),
            errors: Over::new(said.as_mut_slice()),
        };
        let status = program(&rt, rt.alloc(), command.words, &mut streams, &OpenGate);
        let left = streams.writer.into_inner().len();
        if status == 5 {
            assert!(rt; left == 640);
        } else {
            let answer = command.answer.as_bytes();
            assert!(rt; status == command.status && room.starts_with(answer));
            assert!(rt; left.checked_add(answer.len()) == Some(640));
        }
    }
}
