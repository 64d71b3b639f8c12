//! Bundles at the limits: many modules for many workers, and a module with as many border lines as it may have. The
//! expected results were worked out by hand from the format, and the digests with `sha256sum`.

use crate::audits::audit_of_text;
use crate::gates::CrowdGate;
use check_main::{Audited, Over, Streams, program};
use job_pool::{Gate, OpenGate};
use std::alloc::{AllocError, Global};
use std::random::RandomSource;
use std::sync::Wait;
use std::thread::Threads;

/// The mark of the layout on a cell of a module.
#[derive(Clone, Copy, PartialEq, Eq)]
enum CellMark {
    Nothing,
    Mirror,
    Output,
    Waste,
}

/// Returns the mark of a module of this number on one of its four cells.
///
/// It is the module's output on one cell, and on the others a choice that no other module has.
fn layout_mark_of(module: u32, cell: u32) -> CellMark {
    let (output, choice) = (module / 27, module % 27);
    let others = if cell < output {
        cell
    } else {
        cell.saturating_sub(1)
    };
    let digit = match others {
        0 => choice % 3,
        1 => choice / 3 % 3,
        _ => choice / 9,
    };
    match digit {
        _ if cell == output => CellMark::Output,
        0 => CellMark::Nothing,
        1 => CellMark::Mirror,
        _ => CellMark::Waste,
    }
}

/// Adds the places of the cells of 64 modules that have a mark, a line each, between these words.
fn push_lines_of_mark(
    alloc: Global,
    text: &mut String,
    wanted: CellMark,
    before: &str,
    after: &str,
) -> Result<(), AllocError> {
    for module in 0..64_u32 {
        for cell in 0..4_u32 {
            if layout_mark_of(module, cell) == wanted {
                let (x, y) = (module % 8 * 2 + cell % 2, module / 8 * 2 + cell / 2);
                text.push_str(&format!(in alloc; "{before} {x} {y}{after}\n")?)?;
            }
        }
    }
    Ok(())
}

/// Returns a text of 64 modules of 2 by 2 cells, each of another shape. A ball must be at one cell of each, and none
/// comes.
fn text_of_64_modules(alloc: Global) -> Result<String, AllocError> {
    let mut text = format!(in alloc; "circuit\nsource 1 -> a\noutput a\nend\nlayout 16 16 0\n")?;
    push_lines_of_mark(alloc, &mut text, CellMark::Mirror, "mirror", " 1 1")?;
    push_lines_of_mark(alloc, &mut text, CellMark::Output, "out a", "")?;
    push_lines_of_mark(alloc, &mut text, CellMark::Waste, "waste", "")?;
    text.push_str("end\ncertificate 1\n")?;
    for place in 0..64_u32 {
        let (x, y) = (place % 8 * 2, place / 8 * 2);
        text.push_str(&format!(in alloc; "module {x} {y} 2 2\nuse 0\n")?)?;
    }
    text.push_str("end\n")?;
    Ok(text)
}

/// Returns the report on these modules. The fault of each is at its output cell.
///
/// This is the first of its cells, from module 27 on the second, from module 54 on the third.
fn expected_report_on_64_modules(alloc: Global) -> Result<String, AllocError> {
    let mut report = format!(in alloc;
        "bbmcheck 1\ncertificate d703d23eb6b93c49bd0027729197bf8cc495c873ff97d62e612cde71b6dfc028\nmodules 64\nverdict no\n"
    )?;
    for place in 0..64_u32 {
        let (column, row) = match place {
            0..=26 => (0, 0),
            27..=53 => (1, 0),
            _ => (0, 1),
        };
        let (x, y) = (place % 8 * 2 + column, place / 8 * 2 + row);
        report.push_str(&format!(in alloc; "local {place} end 0 {x} {y} 0\n")?)?;
    }
    Ok(report)
}

/// Returns the status for words over a text, and the output, if workers report to a gate.
fn answer<T: Threads + Wait + RandomSource + Sync, G: Gate + Sync>(
    rt: &T,
    alloc: Global,
    words: &[&str],
    text: &str,
    gate: &G,
) -> (u8, Vec<u8>) {
    let mut streams = Streams {
        reader: Over::new(text.as_bytes()),
        writer: Over::new(Vec::new(alloc)),
        errors: Over::new(Vec::new(alloc)),
    };
    let status = program(rt, alloc, words, &mut streams, gate);
    (status, streams.writer.into_inner())
}

/// The number of workers, each of which begins before the first goes on.
const WORKERS: [(&str, u64); 2] = [("8", 8), ("64", 64)];

#[test]
fn workers_report_on_64_modules(rt: HostRuntime) {
    let text = text_of_64_modules(rt.alloc()).expect(&rt, "a text");
    let report = expected_report_on_64_modules(rt.alloc()).expect(&rt, "a report");
    for (count, workers) in WORKERS {
        let gate = CrowdGate::new(workers);
        let words = ["check", "--workers", count];
        let (status, written) = answer(&rt, rt.alloc(), &words, &text, &gate);
        assert!(rt;
            status == 1 && written.as_slice() == report.as_bytes() && gate.was_gate_kept(64),
            "{count}"
        );
    }
}

#[test]
fn audit_holds_64_findings(rt: HostRuntime) {
    let text = text_of_64_modules(rt.alloc()).expect(&rt, "a text");
    let gate = CrowdGate::new(8);
    let Audited { state, memory } = audit_of_text(&rt, rt.alloc(), &text, 8, &gate);
    assert!(rt; !memory && state.is_closed() && gate.was_gate_kept(64));
    assert!(rt; state.accepted() == 64 && state.history().len() == 65);
}

/// Returns a text with a full module, then this line, and another module.
///
/// The full module has an edge line for 32 cells at each odd time below 4096, so 65,536 in all.
fn text_of_full_module(alloc: Global, line: &str) -> Result<String, AllocError> {
    let mut text = format!(in alloc;
        "circuit\nend\nlayout 66 64 4096\nend\ncertificate 1\nmodule 0 0 64 64\n"
    )?;
    for place in 0..65_536_u32 {
        let (time, y) = (place / 32 * 2 + 1, place % 32 + 1);
        text.push_str(&format!(in alloc; "edge {time} 63 {y} 1\n")?)?;
    }
    text.push_str(&format!(in alloc; "{line}module 64 0 2 64\nend\n")?)?;
    Ok(text)
}

const MOST_LISTED: &str =
    "module 0 0 0 64 64 cuts 0 gates 0 edges 65536 halos 0 stops 0\nmodule 1 64 0 2 64 cuts 0 gates 0 edges 0 halos 0 stops 0\n";

/// The report of cells of which no ball comes to the first, and the other module has no line for it.
const MOST_CHECKED: &str =
    "bbmcheck 1\ncertificate e5a9787e1f070f5c041af3b0f2c842ba20c2af6602b49ed9ab25322e05c589a9\nmodules 2\nverdict no\nlocal 0 edge 1 63 1 0\nborder 1 1 63 1\n";

/// The refusal of the line too many, which comes after six lines and 65,536 edges.
const TOO_MANY: &str = "refused 65543 2\n";

/// Words, a line, the status and the answer.
const MOST_LINES: [(&[&str], &str, u8, &str); 5] = [
    (&["modules"], "", 0, MOST_LISTED),
    (&["check", "--workers", "2"], "", 1, MOST_CHECKED),
    (&["modules"], "edge 4095 63 33 1\n", 3, TOO_MANY),
    (&["check"], "halo * 64 1 1\n", 3, TOO_MANY),
    (&["modules"], "halo 2 9 9 unknown\n", 3, TOO_MANY),
];

#[test]
fn full_module_is_listed(rt: HostRuntime) {
    for (words, line, wanted, told) in MOST_LINES {
        let text = text_of_full_module(rt.alloc(), line).expect(&rt, "a text");
        let (status, written) = answer(&rt, rt.alloc(), words, &text, &OpenGate);
        assert!(rt;
            status == wanted && written.as_slice() == told.as_bytes(),
            "{line}"
        );
    }
}
