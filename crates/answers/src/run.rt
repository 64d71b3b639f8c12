//! Runs a layout under an assignment.
ghost use Rattle.std.specs.Prelude.{◌≡◌, ◌++◌, [], ◌∷◌, true, None, IfOk, OnOk, codes, length, map};
ghost use Rattle.std.specs.Fmt.{decimal};
ghost use Rattle.std.specs.List.{flat_map};
ghost use Rattle.section_text.specs.Section.{ReaderReturnsSection};
ghost use Rattle.section_text.specs.Spelling.{line_text};
ghost use Rattle.pattern.specs.Grammars.{layout_section};
ghost use Rattle.answers.specs.RunText.{IsRunAnswerOf, SaysRunEnd, live_cell_line, run_end_outcome, run_end_text, run_sections_with_limits};
ghost use Rattle.answers.specs.Answers.{AnswersOrRefuses};
ghost use Rattle.section_text.specs.Limits.{limits_line_count};

use crate::asking::read_assign_and_end;
use crate::outcome::{Answered, Outcome};
use crate::refusing::refusal_answer;
use bbm_rule::Cell;
use pattern::{Layout, RunEnd, read_layout_within, run_plain};
use section_text::{Feed, Limits, Name, PortNames, ReadFault};
use std::alloc::{AllocError, Global};

// The names of the input cells.
fn input_cell_names(alloc: Global, layout: &Layout) -> Result<Vec<Name>, AllocError>
    ensures { IfOk result (λ names. names.items ≡ map (λ p. p.name) layout.now.ins) }
{
    layout.ins().iter().map(|port| port.name).collect(alloc)
}

// Reads a layout, the names that are on, and the end of the text.
fn read_layout_and_assign(
    alloc: Global,
    feed: &mut Feed,
    limits: Limits,
) -> Result<(Layout, Vec<Name>), ReadFault>
    requires text_closed { feed.old.closed ≡ true }
    requires front_taken { feed.old.taken ≡ limits_line_count limits }
    requires feed_not_stopped { feed.old.stop ≡ None }
    ensures { ReaderReturnsSection (λ asked. (layout_section asked.0, asked.1.items)) result
        (run_sections_with_limits limits feed.old.text) }
{
    let layout = match read_layout_within(alloc, feed, limits, &PortNames::Any) {
        Err(fault) => return Err(fault),
        Ok(layout) => layout,
    };
    let Ok(ins) = input_cell_names(alloc, &layout) else {
        return Err(ReadFault::Memory);
    };
    match read_assign_and_end(alloc, feed, &ins) {
        Err(fault) => Err(fault),
        Ok(on) => Ok((layout, on)),
    }
}

fn print_cell(alloc: Global, out: &mut Vec<u8>, cell: Cell) -> Result<(), AllocError>
    ensures { OnOk result (out.new.items ≡ out.old.items ++ live_cell_line cell) }
{
    let line = format!(in alloc; "{} {}\n", cell.x, cell.y)?;
    out.extend_from_slice(line.as_bytes())?;
    Ok(())
}

fn print_cells(alloc: Global, out: &mut Vec<u8>, cells: &[Cell]) -> Result<(), AllocError>
    ensures { OnOk result (out.new.items ≡ out.old.items ++ flat_map live_cell_line cells.now) }
{
    for cell in cells {
        print_cell(alloc, out, *cell)?;
    }
    Ok(())
}

fn ball_left_text(alloc: Global, step: u32) -> Result<Vec<u8>, AllocError>
    ensures { IfOk result (λ text. text.items ≡ line_text (codes "left") (decimal step ∷ [])) }
{
    let line = format!(in alloc; "left {step}\n")?;
    Ok(line.into_bytes())
}

fn live_count_text(alloc: Global, count: usize) -> Result<Vec<u8>, AllocError>
    ensures { IfOk result (λ text. text.items ≡ line_text (codes "cells") (decimal count ∷ [])) }
{
    let line = format!(in alloc; "cells {count}\n")?;
    Ok(line.into_bytes())
}

fn cells_text(alloc: Global, cells: &[Cell]) -> Result<Vec<u8>, AllocError>
    ensures { IfOk result (λ text. text.items
        ≡ line_text (codes "cells") (decimal (length cells.now) ∷ [])
        ++ flat_map live_cell_line cells.now) }
{
    let mut text = live_count_text(alloc, cells.len())?;
    print_cells(alloc, &mut text, cells)?;
    Ok(text)
}

fn run_end_text(alloc: Global, end: &RunEnd) -> Result<Vec<u8>, AllocError>
    ensures { IfOk result (λ text. text.items ≡ run_end_text end.now) }
{
    match end {
        RunEnd::LeftAt(step) => ball_left_text(alloc, *step),
        RunEnd::Cells(cells) => cells_text(alloc, cells),
    }
}

fn outcome_of(end: &RunEnd) -> Outcome
    ensures { result ≡ run_end_outcome end.now }
{
    match end {
        RunEnd::Cells(_) => Outcome::Yes,
        RunEnd::LeftAt(_) => Outcome::No,
    }
}

// Runs a layout with these names on.
fn answer(alloc: Global, layout: &Layout, on: &[Name]) -> Result<Answered, AllocError>
    ensures { IfOk result (λ answered. SaysRunEnd (layout_section layout.now, on.now)
        answered.output.items answered.outcome) }
{
    let end = run_plain(alloc, layout, on)?;
    let outcome = outcome_of(&end);
    let output = run_end_text(alloc, &end)?;
    Ok(Answered { outcome, output })
}

// Runs the layout of a text with these limits, of which the lines before the first section were taken, as `run` does.
fn run_after_front(alloc: Global, feed: &mut Feed, limits: Limits) -> Result<Answered, AllocError>
    requires text_closed { feed.old.closed ≡ true }
    requires front_taken { feed.old.taken ≡ limits_line_count limits }
    requires feed_not_stopped { feed.old.stop ≡ None }
    ensures { IfOk result (λ answered. AnswersOrRefuses SaysRunEnd
        (run_sections_with_limits limits feed.old.text) answered.output.items answered.outcome) }
{
    match read_layout_and_assign(alloc, feed, limits) {
        Err(fault) => refusal_answer(alloc, fault),
        Ok((layout, on)) => answer(alloc, &layout, &on),
    }
}

/// Runs the layout of a text under its assignment, and answers as `run` does. The text is read whole.
#[tactic(auto, unfolding(crate::specs::RunText::run_sections_of))]
pub fn run_text(alloc: Global, feed: &mut Feed) -> Result<Answered, AllocError>
    requires text_closed { feed.old.closed ≡ true }
    requires unread { feed.old.taken ≡ 0 }
    requires feed_not_stopped { feed.old.stop ≡ None }
    ensures { IfOk result (λ answered. IsRunAnswerOf feed.old.text answered.output.items
        answered.outcome) }
{
    let limits = feed.take_limits();
    run_after_front(alloc, feed, limits)
}
