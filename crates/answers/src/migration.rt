//! Writes a bundle in certificate version 2.
ghost use Rattle.std.specs.Prelude.{◌≡◌, ◌++◌, ◌<◌, ◌≤◌, drop, length, position, IfOk, IfSome, OnOk};
ghost use Rattle.std.specs.List.{flat_map};
ghost use Rattle.section_text.specs.Section.{with_line_feed};
ghost use Rattle.section_text.specs.Words.{is_line_feed, lines_of};
ghost use Rattle.section_text.specs.declared.limits.Limits.{Limits};
ghost use Rattle.answers.specs.BundleText.{Bundle};
ghost use Rattle.answers.specs.MigrateText.{IsBundleText, SaysMigration};
ghost use Rattle.answers.specs.KeptLines.{line_unless_begins_with_h, lines_not_beginning_with_h};

use crate::outcome::{Answered, Outcome};
use memchr::memchr;
use std::alloc::{AllocError, Global};

// Where the first line feed is.
#[tactic(auto, using(section_text::proofs::LineFeeds::first_is_position))]
fn first_line_feed_place(bytes: &[u8]) -> Option<usize>
    ensures first { result ≡ position is_line_feed bytes.now }
    ensures within { IfSome result (λ place. place < length bytes.now) }
{
    memchr(b'\n', bytes)
}

// The text behind the first line, or the whole text if it has no line.
fn text_after_first_line(text: &[u8]) -> &[u8]
    ensures { lines_of result.now ≡ drop 1 (lines_of text.now) }
{
    match first_line_feed_place(text) {
        None => text,
        Some(length) => &text[length + 1..],
    }
}

// Adds a line with its line feed, unless it begins with `h`.
#[inline(always)]
fn push_line_unless_begins_with_h(out: &mut Vec<u8>, line: &[u8]) -> Result<(), AllocError>
    requires { 0 < length line.now }
    ensures { OnOk result (out.new.items ≡ out.old.items ++ line_unless_begins_with_h line.now) }
{
    if line[0] == b'h' {
        return Ok(());
    }
    out.extend_from_slice(line)
}

// Adds the lines that do not begin with `h`.
fn push_lines_not_beginning_with_h(out: &mut Vec<u8>, text: &[u8]) -> Result<(), AllocError>
    ensures { OnOk result (out.new.items ≡ out.old.items
        ++ flat_map with_line_feed (lines_not_beginning_with_h (lines_of text.now))) }
{
    let mut rest = text;
    while let Some(length) = first_line_feed_place(rest) {
        push_line_unless_begins_with_h(out, &rest[..length + 1])?;
        rest = &rest[length + 1..];
    }
    Ok(())
}

/// Writes a bundle in version 2, without halo lines, from its text.
///
/// The text holds a bundle's lines and nothing else, and its certificate's section begins at the byte `from`. Each line
/// of a bundle has one spelling, so the lines that stay are copied.
pub(crate) fn migrate(alloc: Global, text: &[u8], from: usize) -> Result<Answered, AllocError>
    requires { from ≤ length text.now }
    ensures { IfOk result (λ answered. (limits : Limits) (bundle : Bundle) →
        IsBundleText limits bundle text.now from →
        SaysMigration limits bundle answered.output.items answered.outcome) }
{
    let mut output = Vec::new(alloc);
    output.extend_from_slice(&text[..from])?;
    output.extend_from_slice(b"certificate 2\n")?;
    push_lines_not_beginning_with_h(&mut output, text_after_first_line(&text[from..]))?;
    Ok(Answered {
        outcome: Outcome::Yes,
        output,
    })
}
