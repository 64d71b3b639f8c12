//! The line forms of the circuit section.
ghost use Rattle.std.specs.Prelude.{◌≡◌, ◌≤◌, Some, None, [], ◌∷◌, codes, slice_get, take, if◌then◌else◌};
ghost use Rattle.std.specs.Option.{option_map};
ghost use Rattle.std.specs.Str.{bytes_eq};
ghost use Rattle.section_text.specs.Words.{name_of, words_of};
ghost use Rattle.section_text.specs.declared.section.Form.TheVariants.{Item};
ghost use Rattle.circuit.specs.Entries.{entry};
ghost use Rattle.circuit.specs.Bridge.{is_input};
ghost use Rattle.circuit.specs.declared.circuit_line.CircuitLineKind.TheVariants.{Input, Output, Spill};
ghost use Rattle.section_text.specs.Feeds.{IsLine, line_bytes};
ghost use Rattle.circuit.specs.Forms.{bit_at, gate_kind, words_before_names, gate_entry, form_of};

use crate::circuit_line::{CircuitLine, CircuitLineKind, GateKind};
use section_text::{Feed, Form, Line, Name, is_keyword};

#[tactic(auto, unfolding(crate::specs::Forms::bit_at, section_text::specs::Words::is_word_at))]
fn bit_of(feed: &Feed, line: &Line, index: usize) -> Option<bool>
    requires { IsLine feed.now line.now }
    ensures { result ≡ bit_at (words_of (line_bytes feed.now line.now)) index }
{
    let word = feed.word(line, index)?;
    if is_keyword(word, b"0") {
        Some(false)
    } else if is_keyword(word, b"1") {
        Some(true)
    } else {
        None
    }
}

#[tactic(auto, unfolding(crate::specs::Forms::gate_kind, section_text::specs::Words::is_word_at))]
fn gate_kind_of(feed: &Feed, line: &Line, keyword: &[u8]) -> Option<GateKind>
    requires line { IsLine feed.now line.now }
    requires first { slice_get (words_of (line_bytes feed.now line.now)) 0 ≡ Some keyword.now }
    ensures { result ≡ gate_kind (words_of (line_bytes feed.now line.now)) }
{
    if is_keyword(keyword, b"source") {
        Some(GateKind::Source(bit_of(feed, line, 1)?))
    } else if is_keyword(keyword, b"fredkin") {
        Some(GateKind::Fredkin)
    } else if is_keyword(keyword, b"cswap") {
        Some(GateKind::Cswap)
    } else if is_keyword(keyword, b"interact") {
        Some(GateKind::Interact)
    } else if is_keyword(keyword, b"switch") {
        Some(GateKind::Switch)
    } else if is_keyword(keyword, b"delay") {
        Some(GateKind::Delay(feed.number(line, 1)?))
    } else if is_keyword(keyword, b"unswitch") {
        Some(GateKind::Unswitch)
    } else if is_keyword(keyword, b"uninteract") {
        Some(GateKind::Uninteract)
    } else {
        None
    }
}

fn words_before_names(kind: GateKind) -> usize
    ensures count { result ≡ words_before_names kind }
    ensures at_most_2 { result ≤ 2 }
{
    match kind {
        GateKind::Source(_) => 2,
        GateKind::Fredkin => 1,
        GateKind::Cswap => 1,
        GateKind::Interact => 1,
        GateKind::Switch => 1,
        GateKind::Delay(_) => 2,
        GateKind::Unswitch => 1,
        GateKind::Uninteract => 1,
    }
}

#[tactic(auto, unfolding(crate::specs::Forms::gate_entry))]
fn gate_entry_of(feed: &Feed, line: &Line, keyword: &[u8]) -> Option<CircuitLine>
    requires line { IsLine feed.now line.now }
    requires first { slice_get (words_of (line_bytes feed.now line.now)) 0 ≡ Some keyword.now }
    ensures { result ≡ gate_entry (words_of (line_bytes feed.now line.now)) }
{
    let kind = gate_kind_of(feed, line, keyword)?;
    let from = words_before_names(kind);
    let (ins, outs) = feed.names_beside_arrow(line, from, kind.ins(), kind.outs())?;
    Some(CircuitLine {
        kind: CircuitLineKind::Gate(kind),
        ins,
        outs,
    })
}

// The kind of a line of a keyword and a name.
fn kind_of_lone_name_keyword(keyword: &[u8]) -> Option<CircuitLineKind>
    ensures { result ≡ (if bytes_eq keyword.now (codes "input") then Some Input
        else if bytes_eq keyword.now (codes "output") then Some Output
        else if bytes_eq keyword.now (codes "spill") then Some Spill else None) }
{
    if is_keyword(keyword, b"input") {
        Some(CircuitLineKind::Input)
    } else if is_keyword(keyword, b"output") {
        Some(CircuitLineKind::Output)
    } else if is_keyword(keyword, b"spill") {
        Some(CircuitLineKind::Spill)
    } else {
        None
    }
}

// The form of a line by its words, if it has one.
#[tactic(auto, unfolding(crate::specs::Forms::form_of, section_text::specs::Words::is_word_at))]
fn line_form_by_words(feed: &Feed, line: &Line) -> Option<Form<(), CircuitLine>>
    requires { IsLine feed.now line.now }
    ensures { result ≡ form_of (words_of (line_bytes feed.now line.now)) }
{
    let keyword = feed.first_word(line);
    if is_keyword(keyword, b"circuit") {
        return feed.if_one_word(line, Form::Header(()));
    }
    if is_keyword(keyword, b"end") {
        return feed.if_one_word(line, Form::End);
    }
    match kind_of_lone_name_keyword(keyword) {
        Some(kind) => Some(Form::Item(CircuitLine::of_one_name(
            kind,
            feed.name_after_keyword(line)?,
        ))),
        None => Some(Form::Item(gate_entry_of(feed, line, keyword)?)),
    }
}

// The form of an input, output or spill line, by what stands behind its keyword and a space.
#[inline(always)]
fn lone_name_form(kind: CircuitLineKind, name: &[u8]) -> Option<Form<(), CircuitLine>>
    ensures { result ≡ option_map
        (λ n. Item (entry kind (if is_input kind then [] else n ∷ [])
        (if is_input kind then n ∷ [] else []))) (name_of name.now) }
{
    let name = Name::of(name)?;
    Some(Form::Item(CircuitLine::of_one_name(kind, name)))
}

// Whether a line begins with `input` and a space.
fn begins_as_input(line: &[u8]) -> bool
    ensures { result ≡ bytes_eq (take 6 line.now) (codes "input ") }
{
    match line {
        [b'i', b'n', b'p', b'u', b't', b' ', ..] => true,
        _ => false,
    }
}

// Whether a line begins with `output` and a space.
fn begins_as_output(line: &[u8]) -> bool
    ensures { result ≡ bytes_eq (take 7 line.now) (codes "output ") }
{
    match line {
        [b'o', b'u', b't', b'p', b'u', b't', b' ', ..] => true,
        _ => false,
    }
}

// Whether a line begins with `spill` and a space.
fn begins_as_spill(line: &[u8]) -> bool
    ensures { result ≡ bytes_eq (take 6 line.now) (codes "spill ") }
{
    match line {
        [b's', b'p', b'i', b'l', b'l', b' ', ..] => true,
        _ => false,
    }
}

/// Returns the form of a line, if it has one. A name has no space, so an input, output or spill line is not split.
pub fn line_form(feed: &Feed, line: &Line) -> Option<Form<(), CircuitLine>>
    requires { IsLine feed.now line.now }
    ensures { result ≡ form_of (words_of (line_bytes feed.now line.now)) }
{
    let bytes = feed.line(line);
    if begins_as_output(bytes) {
        return lone_name_form(CircuitLineKind::Output, &bytes[7..]);
    }
    if begins_as_input(bytes) {
        return lone_name_form(CircuitLineKind::Input, &bytes[6..]);
    }
    if begins_as_spill(bytes) {
        return lone_name_form(CircuitLineKind::Spill, &bytes[6..]);
    }
    line_form_by_words(feed, line)
}
