//! The line forms of the certificate section.
ghost use Rattle.std.specs.Prelude.{◌≡◌, ℕ, List, ◌∷◌, take, codes, false};
ghost use Rattle.std.specs.Option.{option_map};
ghost use Rattle.std.specs.Str.{bytes_eq};
ghost use Rattle.section_text.specs.Listed.{list_of_five_words};
ghost use Rattle.section_text.specs.Words.{words_of, if_one_word};
ghost use Rattle.section_text.specs.Feeds.{IsLine, line_bytes};
ghost use Rattle.certificate_lines.specs.Forms.{CertificateForm, border_of, form_of, form_of_not_five_words, stop_of};
ghost use Rattle.certificate_lines.specs.BorderWords.{leading_star_or_time, one_or_name_from_word};

use crate::certificate_line::{BorderLine, CertificateLine, OneOrName, StopLine};
use bbm_rule::Cell;
use pattern::{box_from_words, cell_from_words};
use section_text::{Feed, FiveWords, Form, Line, Name, is_keyword, read_number, take_number};

// Whether a line begins with a `*` and a space.
fn begins_with_star(line: &[u8]) -> bool
    ensures { result ≡ bytes_eq (take 2 line.now) (codes "* ") }
{
    match line {
        [b'*', b' ', ..] => true,
        _ => false,
    }
}

// The time that is the first of several words of a line, and what stands behind its space.
#[inline(always)]
fn take_star_or_time(line: &[u8]) -> Option<(Option<u32>, &[u8])>
    ensures { option_map (λ r. (r.0, words_of r.1.now)) result
        ≡ leading_star_or_time (words_of line.now) }
{
    if begins_with_star(line) {
        return Some((None, &line[2..]));
    }
    let (time, rest) = take_number(line)?;
    Some((Some(time), rest))
}

#[tactic(auto, unfolding(crate::specs::BorderWords::one_or_name_from_word))]
fn read_one_or_name(word: &[u8]) -> Option<OneOrName>
    ensures { result ≡ one_or_name_from_word word.now }
{
    if word == b"1".as_slice() {
        return Some(None);
    }
    Some(Some(Name::of(word)?))
}

// The content of an edge or halo line, by what stands behind its keyword and a space.
#[inline(always)]
#[tactic(auto, using(crate::proofs::BorderText::no_time, crate::proofs::BorderText::no_column, crate::proofs::BorderText::no_row))]
fn border_after_keyword(line: &[u8]) -> Option<BorderLine>
    ensures { (keyword : List ℕ) → result ≡ border_of (keyword ∷ words_of line.now) }
{
    let (time, line) = take_star_or_time(line)?;
    let (x, line) = take_number(line)?;
    let (y, line) = take_number(line)?;
    let signal = read_one_or_name(line)?;
    let cell = Cell {
        x: x as i32,
        y: y as i32,
    };
    Some(BorderLine { time, cell, signal })
}

#[tactic(auto, unfolding(crate::specs::Forms::stop_of, crate::specs::Forms::stop_of_five_words, pattern::specs::Forms::cell_of_words_from, section_text::specs::Words::number_at, section_text::specs::Words::name_at, pattern::specs::PortWords::cell_from_words))]
fn stop_of_words(words: &FiveWords) -> Option<StopLine>
    ensures { result ≡ stop_of (list_of_five_words words.now) }
{
    let time = read_number(words.second)?;
    let wire = Name::of(words.third)?;
    let cell = cell_from_words(words.fourth, words.fifth)?;
    Some(StopLine { time, wire, cell })
}

#[tactic(auto, unfolding(section_text::specs::Words::if_one_word))]
fn end_form(feed: &Feed, line: &Line) -> Option<Form<u32, CertificateLine>>
    requires { IsLine feed.now line.now }
    ensures { result
        ≡ if_one_word {A = CertificateForm} (words_of (line_bytes feed.now line.now)) Form.End }
{
    if feed.words(line) == 1 {
        Some(Form::End)
    } else {
        None
    }
}

// Whether a line begins with `edge` and a space. A pattern is compared in place, without a call.
fn begins_as_edge(line: &[u8]) -> bool
    ensures { result ≡ bytes_eq (take 5 line.now) (codes "edge ") }
{
    match line {
        [b'e', b'd', b'g', b'e', b' ', ..] => true,
        _ => false,
    }
}

// Whether a line begins with `halo` and a space.
fn begins_as_halo(line: &[u8]) -> bool
    ensures { result ≡ bytes_eq (take 5 line.now) (codes "halo ") }
{
    match line {
        [b'h', b'a', b'l', b'o', b' ', ..] => true,
        _ => false,
    }
}

// Whether a line begins with `stop` and a space.
fn begins_as_stop(line: &[u8]) -> bool
    ensures { result ≡ bytes_eq (take 5 line.now) (codes "stop ") }
{
    match line {
        [b's', b't', b'o', b'p', b' ', ..] => true,
        _ => false,
    }
}

// The form of a line of five words that is no edge, halo or stop line.
#[tactic(auto, using(crate::proofs::BorderLines::no_long_form), unfolding(crate::specs::Forms::form_of, section_text::specs::Words::is_word_at))]
fn other_five_word_line_form(words: FiveWords) -> Option<Form<u32, CertificateLine>>
    requires no_edge { bytes_eq words.first.now (codes "edge") ≡ false }
    requires no_halo { bytes_eq words.first.now (codes "halo") ≡ false }
    requires no_stop { bytes_eq words.first.now (codes "stop") ≡ false }
    ensures { result ≡ form_of (list_of_five_words words.entry) }
{
    if is_keyword(words.first, b"module") {
        Some(Form::Item(CertificateLine::Module(box_from_words(&words)?)))
    } else {
        None
    }
}

// The form of a line that has not five words.
#[tactic(auto, unfolding(crate::specs::Forms::form_of_not_five_words, section_text::specs::Words::is_word_at))]
fn not_five_words_line_form(feed: &Feed, line: &Line) -> Option<Form<u32, CertificateLine>>
    requires { IsLine feed.now line.now }
    ensures { result ≡ form_of_not_five_words (words_of (line_bytes feed.now line.now)) }
{
    let keyword = feed.first_word(line);
    if is_keyword(keyword, b"cut") {
        Some(Form::Item(CertificateLine::Cut(feed.name_after_keyword(line)?)))
    } else if is_keyword(keyword, b"use") {
        Some(Form::Item(CertificateLine::Use(feed.number_after_keyword(line)?)))
    } else if is_keyword(keyword, b"keep") {
        Some(Form::Item(CertificateLine::Keep(feed.number_after_keyword(line)?)))
    } else if is_keyword(keyword, b"certificate") {
        Some(Form::Header(feed.number_after_keyword(line)?))
    } else if is_keyword(keyword, b"end") {
        end_form(feed, line)
    } else {
        None
    }
}

// The form of a line that begins with no `edge `, no `halo ` and no `stop `, by its words.
#[inline(never)]
#[tactic(auto, using(crate::proofs::BorderLines::long_form_is, crate::proofs::BorderLines::short_form_is))]
fn line_form_by_words(feed: &Feed, line: &Line) -> Option<Form<u32, CertificateLine>>
    requires line { IsLine feed.now line.now }
    requires no_edge { bytes_eq (take 5 (line_bytes feed.now line.now)) (codes "edge ") ≡ false }
    requires no_halo { bytes_eq (take 5 (line_bytes feed.now line.now)) (codes "halo ") ≡ false }
    requires no_stop { bytes_eq (take 5 (line_bytes feed.now line.now)) (codes "stop ") ≡ false }
    ensures { result ≡ form_of (words_of (line_bytes feed.now line.now)) }
{
    match feed.five_words(line) {
        Some(words) => other_five_word_line_form(words),
        None => not_five_words_line_form(feed, line),
    }
}

// Whether a line begins with `cut` and a space.
fn begins_as_cut(line: &[u8]) -> bool
    ensures { result ≡ bytes_eq (take 4 line.now) (codes "cut ") }
{
    match line {
        [b'c', b'u', b't', b' ', ..] => true,
        _ => false,
    }
}

// Whether a line begins with `use` and a space.
fn begins_as_use(line: &[u8]) -> bool
    ensures { result ≡ bytes_eq (take 4 line.now) (codes "use ") }
{
    match line {
        [b'u', b's', b'e', b' ', ..] => true,
        _ => false,
    }
}

// The form of a line that begins with no `edge `, no `halo ` and no `stop `. A name and a number have no space, so a
// line of one of them is not split into words.
#[inline(never)]
fn other_line_form(feed: &Feed, line: &Line) -> Option<Form<u32, CertificateLine>>
    requires line { IsLine feed.now line.now }
    requires no_edge { bytes_eq (take 5 (line_bytes feed.now line.now)) (codes "edge ") ≡ false }
    requires no_halo { bytes_eq (take 5 (line_bytes feed.now line.now)) (codes "halo ") ≡ false }
    requires no_stop { bytes_eq (take 5 (line_bytes feed.now line.now)) (codes "stop ") ≡ false }
    ensures { result ≡ form_of (words_of (line_bytes feed.now line.now)) }
{
    let bytes = feed.line(line);
    if begins_as_use(bytes) {
        let number = read_number(&bytes[4..])?;
        return Some(Form::Item(CertificateLine::Use(number)));
    }
    if begins_as_cut(bytes) {
        let name = Name::of(&bytes[4..])?;
        return Some(Form::Item(CertificateLine::Cut(name)));
    }
    line_form_by_words(feed, line)
}

// The content of a stop line.
#[inline(always)]
#[tactic(auto, using(crate::proofs::BorderLines::five_words_are, crate::proofs::BorderLines::no_stop))]
fn stop_in(feed: &Feed, line: &Line) -> Option<StopLine>
    requires { IsLine feed.now line.now }
    ensures { result ≡ stop_of (words_of (line_bytes feed.now line.now)) }
{
    let words = feed.five_words(line)?;
    stop_of_words(&words)
}

// The form of a line that begins with no `edge ` and no `halo `.
#[inline(always)]
fn stop_or_other_line_form(feed: &Feed, line: &Line) -> Option<Form<u32, CertificateLine>>
    requires line { IsLine feed.now line.now }
    requires no_edge { bytes_eq (take 5 (line_bytes feed.now line.now)) (codes "edge ") ≡ false }
    requires no_halo { bytes_eq (take 5 (line_bytes feed.now line.now)) (codes "halo ") ≡ false }
    ensures { result ≡ form_of (words_of (line_bytes feed.now line.now)) }
{
    if !begins_as_stop(feed.line(line)) {
        return other_line_form(feed, line);
    }
    let stop = stop_in(feed, line)?;
    Some(Form::Item(CertificateLine::Stop(stop)))
}

/// Returns the form of a line, if it has one. It passes over an edge or halo line once.
///
/// Most lines of a certificate are edge, halo and stop lines. So these are formed here, and the others in functions of
/// their own, since each call that returns a form copies its 64 bytes.
#[inline(always)]
pub fn line_form(feed: &Feed, line: &Line) -> Option<Form<u32, CertificateLine>>
    requires { IsLine feed.now line.now }
    ensures { result ≡ form_of (words_of (line_bytes feed.now line.now)) }
{
    let bytes = feed.line(line);
    let is_edge = begins_as_edge(bytes);
    if !is_edge && !begins_as_halo(bytes) {
        return stop_or_other_line_form(feed, line);
    }
    let border = border_after_keyword(&bytes[5..])?;
    if is_edge {
        Some(Form::Item(CertificateLine::Edge(border)))
    } else {
        Some(Form::Item(CertificateLine::Halo(border)))
    }
}
