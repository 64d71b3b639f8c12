//! Layouts that are printed, and their cells at the start. The expected results were worked out by hand from the
//! format.

use bbm_rule::Cell;
use pattern::*;
use section_text::Name;
use std::alloc::{AllocError, Global};
use std::process::Abort;
use test_support::layout_of;

/// Texts of layouts.
const TEXTS: [&str; 5] = [
    "layout 16 10 7\nmirror 4 3 2 5\nmirror 0 0 1 1\nball 9 9\nball 8 1\nin a 2 2\nin b 3 2\nin a 1 7\nout y 2 2\nout y 14 0\nwaste 9 9\nwaste 15 8\nend\n",
    "layout 2 2 0\nend\n",
    "layout 512 512 4096\nmirror 0 0 512 512\nend\n",
    "layout 510 100 10\nball 509 99\nin end 0 0\nin in 1 0\nout out 0 0\nout layout 100 10\nend\n",
    "layout 2 2 1\nin a_name_of_thirty_two_bytes_01234 0 0\nend\n",
];

/// Returns whether a text is printed as it was read.
fn is_printed_as_read(rt: &impl Abort, alloc: Global, text: &[u8]) -> bool {
    let layout = layout_of(alloc, text).expect(rt, "a layout");
    let printed = print_layout(alloc, &layout).expect(rt, "a text");
    printed.as_slice() == text
}

/// Returns a text whose balls fill the upper half of a layout.
fn text_of_half_full_layout(alloc: Global) -> Result<Vec<u8>, AllocError> {
    let mut text = format!(in alloc; "layout 512 512 0\n")?;
    for place in 0..131_072_u32 {
        text.push_str(&format!(in alloc; "ball {} {}\n", place % 512, place / 512)?)?;
    }
    text.push_str("end\n")?;
    Ok(text.into_bytes())
}

#[test]
fn layouts_are_reprinted(rt: HostRuntime) {
    for text in TEXTS {
        assert!(rt;
            is_printed_as_read(&rt, rt.alloc(), text.as_bytes()),
            "{text}"
        );
    }
    let text = text_of_half_full_layout(rt.alloc()).expect(&rt, "a text");
    assert!(rt; is_printed_as_read(&rt, rt.alloc(), &text));
}

/// A layout, the names that are on, whether or not it has them, and its cells at the start: those of mirrors row by
/// row, balls, inputs.
const STARTS: [(&str, &[&[u8]], &[(i32, i32)]); 4] = [
    (
        "layout 8 8 4\nin p 2 2\nin q 5 5\nout a 5 2\nend\n",
        &[b"q", b"p"],
        &[(2, 2), (5, 5)],
    ),
    (
        "layout 8 8 4\nmirror 4 3 2 2\nin a 2 2\nout a 1 1\nend\n",
        &[],
        &[(4, 3), (5, 3), (4, 4), (5, 4)],
    ),
    (
        "layout 8 8 4\nmirror 0 2 2 2\nball 2 0\nin a 5 3\nend\n",
        &[b"a", b"a"],
        &[(0, 2), (1, 2), (0, 3), (1, 3), (2, 0), (5, 3)],
    ),
    (
        "layout 8 8 4\nin a 4 6\nin b 1 1\nin a 6 7\nout b 4 6\nend\n",
        &[b"c", b"a"],
        &[(4, 6), (6, 7)],
    ),
];

fn names(rt: &impl Abort, alloc: Global, words: &[&[u8]]) -> Vec<Name> {
    let mut names = Vec::new(alloc);
    for word in words {
        let name = Name::of(word).expect(rt, "a name");
        names.push(name).expect(rt, "room");
    }
    names
}

/// Returns whether these are the cells.
fn are_cells(cells: &[Cell], wanted: &[(i32, i32)]) -> bool {
    cells
        .iter()
        .map(|cell| (cell.x, cell.y))
        .eq(wanted.iter().copied())
}

#[test]
fn start_cells_of_layouts(rt: HostRuntime) {
    for (text, words, wanted) in STARTS {
        let layout = layout_of(rt.alloc(), text.as_bytes()).expect(&rt, "a layout");
        let on = names(&rt, rt.alloc(), words);
        let cells = start_cells(rt.alloc(), &layout, &on).expect(&rt, "cells");
        assert!(rt; are_cells(&cells, wanted), "{text}");
    }
}
