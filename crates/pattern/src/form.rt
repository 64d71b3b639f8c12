//! The line forms of the layout section.
ghost use Rattle.pattern.specs.Forms.{box_of};
ghost use Rattle.std.specs.Prelude.{◌≡◌};
ghost use Rattle.section_text.specs.Listed.{list_of_four_words, list_of_five_words};
ghost use Rattle.section_text.specs.Words.{words_of};
ghost use Rattle.section_text.specs.Feeds.{IsLine, line_bytes};
ghost use Rattle.pattern.specs.PortWords.{cell_from_words, port_from_words};
ghost use Rattle.pattern.specs.Forms.{cell_after_keyword, port_of, size_of, form_of};

use crate::layout_line::{LayoutHeader, LayoutLine, Port};
use bbm_rule::{Box2, Cell};
use section_text::{Feed, FiveWords, Form, FourWords, Line, Name, is_keyword, read_number};

#[tactic(auto, using(crate::proofs::PortLines::cell_found, crate::proofs::PortLines::cell_missed))]
fn cell_from_line(feed: &Feed, line: &Line) -> Option<Cell>
    requires { IsLine feed.now line.now }
    ensures { result ≡ cell_after_keyword (words_of (line_bytes feed.now line.now)) }
{
    let Some(words) = feed.three_words(line) else {
        return None;
    };
    cell_from_words(words.second, words.third)
}

/// Returns the cell that two words are, by its column and its row, or `None` if one of them is no number.
#[tactic(auto, unfolding(crate::specs::PortWords::cell_from_words, bbm_rule::specs::CellLists::cell))]
pub fn cell_from_words(column: &[u8], row: &[u8]) -> Option<Cell>
    ensures { result ≡ cell_from_words column.now row.now }
{
    let x = read_number(column)?;
    let y = read_number(row)?;
    Some(Cell {
        x: x as i32,
        y: y as i32,
    })
}

#[tactic(auto, unfolding(crate::specs::PortWords::port_from_words))]
fn port_of_words(words: &FourWords) -> Option<Port>
    ensures { result
        ≡ port_from_words words.now.second.now words.now.third.now words.now.fourth.now }
{
    let name = Name::of(words.second)?;
    let cell = cell_from_words(words.third, words.fourth)?;
    Some(Port { name, cell })
}

#[tactic(auto, using(crate::proofs::PortLines::port_found, crate::proofs::PortLines::port_missed))]
fn port_from_line(feed: &Feed, line: &Line) -> Option<Port>
    requires { IsLine feed.now line.now }
    ensures { result ≡ port_of (words_of (line_bytes feed.now line.now)) }
{
    let Some(words) = feed.four_words(line) else {
        return None;
    };
    port_of_words(&words)
}

/// Returns the box that a keyword and four numbers are, its corner and its sides, or `None` if one is no number.
#[tactic(auto, unfolding(crate::specs::Forms::box_of, crate::specs::Forms::corner_and_sides, section_text::specs::Words::number_at))]
pub fn box_from_words(words: &FiveWords) -> Option<Box2>
    ensures { result ≡ box_of (list_of_five_words words.now) }
{
    let x = read_number(words.second)?;
    let y = read_number(words.third)?;
    let w = read_number(words.fourth)?;
    let h = read_number(words.fifth)?;
    Some(Box2 { x, y, w, h })
}

#[tactic(auto, using(crate::proofs::PortLines::rectangle_found, crate::proofs::PortLines::rectangle_missed))]
fn box_from_line(feed: &Feed, line: &Line) -> Option<Box2>
    requires { IsLine feed.now line.now }
    ensures { result ≡ box_of (words_of (line_bytes feed.now line.now)) }
{
    let Some(words) = feed.five_words(line) else {
        return None;
    };
    box_from_words(&words)
}

#[tactic(auto, unfolding(crate::specs::Forms::size_of, crate::specs::Forms::sides_and_steps, section_text::specs::Words::number_at))]
fn size_of_words(words: &FourWords) -> Option<LayoutHeader>
    ensures { result ≡ size_of (list_of_four_words words.now) }
{
    let w = read_number(words.second)?;
    let h = read_number(words.third)?;
    let steps = read_number(words.fourth)?;
    Some(LayoutHeader { w, h, steps })
}

#[tactic(auto, using(crate::proofs::PortLines::size_found, crate::proofs::PortLines::size_missed))]
fn size_from_line(feed: &Feed, line: &Line) -> Option<LayoutHeader>
    requires { IsLine feed.now line.now }
    ensures { result ≡ size_of (words_of (line_bytes feed.now line.now)) }
{
    let Some(words) = feed.four_words(line) else {
        return None;
    };
    size_of_words(&words)
}

/// Returns the form of a line, if it has one.
#[tactic(auto, unfolding(crate::specs::Forms::form_of, section_text::specs::Words::is_word_at))]
pub(crate) fn line_form(feed: &Feed, line: &Line) -> Option<Form<LayoutHeader, LayoutLine>>
    requires { IsLine feed.now line.now }
    ensures { result ≡ form_of (words_of (line_bytes feed.now line.now)) }
{
    let keyword = feed.first_word(line);
    if is_keyword(keyword, b"layout") {
        Some(Form::Header(size_from_line(feed, line)?))
    } else if is_keyword(keyword, b"mirror") {
        Some(Form::Item(LayoutLine::Mirror(box_from_line(feed, line)?)))
    } else if is_keyword(keyword, b"ball") {
        Some(Form::Item(LayoutLine::Ball(cell_from_line(feed, line)?)))
    } else if is_keyword(keyword, b"in") {
        Some(Form::Item(LayoutLine::In(port_from_line(feed, line)?)))
    } else if is_keyword(keyword, b"out") {
        Some(Form::Item(LayoutLine::Out(port_from_line(feed, line)?)))
    } else if is_keyword(keyword, b"waste") {
        Some(Form::Item(LayoutLine::Waste(cell_from_line(feed, line)?)))
    } else if is_keyword(keyword, b"end") {
        feed.if_one_word(line, Form::End)
    } else {
        None
    }
}
