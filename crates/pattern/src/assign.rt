//! The assign section: which names are on.
ghost use Rattle.std.specs.Prelude.{◌≡◌, ℕ, true, [], List};
ghost use Rattle.section_text.specs.Words.{words_of, has};
ghost use Rattle.section_text.specs.Feeds.{IsLine, line_bytes};
ghost use Rattle.section_text.specs.Section.{Reads};
ghost use Rattle.pattern.specs.Assign.{form_in_assign_section, assign_grammar, assign_section, name_on_fault};

use crate::names::name_set;
use indexmap::IndexSet;
use section_text::{
    Feed, Form, Line, LineFault, Name, ReadFault, RefusalCode, Section, Seed, is_keyword,
    read_section,
};
use std::alloc::Global;

#[tactic(auto, unfolding(crate::specs::Assign::form_in_assign_section, section_text::specs::Words::is_word_at))]
fn line_form(feed: &Feed, line: &Line) -> Option<Form<(), Name>>
    requires { IsLine feed.now line.now }
    ensures { result ≡ form_in_assign_section (words_of (line_bytes feed.now line.now)) }
{
    let keyword = feed.first_word(line);
    if is_keyword(keyword, b"assign") {
        feed.if_one_word(line, Form::Header(()))
    } else if is_keyword(keyword, b"on") {
        Some(Form::Item(feed.name_after_keyword(line)?))
    } else if is_keyword(keyword, b"end") {
        feed.if_one_word(line, Form::End)
    } else {
        None
    }
}

// The names that may be on, and those that are.
#[derive(Drop)]
struct AssignReader<'a> {
    ins: &'a [Name],
    known: IndexSet<Name, Seed>,
    on: IndexSet<Name, Seed>,
    ghost indexed: { (n : List ℕ) → has known.keys n ≡ has ins.now n },
}

impl<'a> Section for AssignReader<'a> {
    type Header = ();

    type Item = Name;

    ghost grammar = { λ r. assign_grammar r.ins.now };

    ghost header = { λ _. tt };

    ghost items = { λ r. r.on.keys };

    fn form(&self, feed: &Feed, line: &Line) -> Option<Form<(), Name>> {
        line_form(feed, line)
    }

    fn begin(&mut self, _head: ()) -> Result<(), LineFault> {
        Ok(())
    }

    #[tactic(auto, unfolding(crate::specs::Assign::name_on_fault))]
    fn add(&mut self, name: Name) -> Result<(), LineFault> {
        if !self.known.contains(&name) {
            return Err(LineFault::Code(RefusalCode::UnknownName));
        }
        match self.on.insert(name) {
            Ok(true) => Ok(()),
            Ok(false) => Err(LineFault::Code(RefusalCode::DefinedTwice)),
            Err(_) => Err(LineFault::Memory),
        }
    }

    fn missing(&self) -> Option<RefusalCode> {
        None
    }
}

// Reads the section, and lists the names that are on.
fn read_assigned_names(
    alloc: Global,
    feed: &mut Feed,
    reading: &mut AssignReader,
) -> Result<Vec<Name>, ReadFault>
    requires text_closed { feed.old.closed ≡ true }
    requires none_on { reading.old.on.keys ≡ [] }
    ensures { Reads (assign_grammar reading.old.ins.now) (λ names. assign_section names.items)
        feed.old feed.new result }
{
    read_section(feed, reading)?;
    match reading.on.as_slice().to_vec(alloc) {
        Ok(names) => Ok(names),
        Err(_) => Err(feed.starve()),
    }
}

/// Reads an assign section, in which the names of `ins` may be on, each once.
///
/// It returns the names that are on, in the order of their lines.
///
/// # Errors
///
/// Out of memory, or the first line that is refused, counted from 1 over the whole feed. The feed keeps its fault. The
/// code is that of the first test that the line fails:
///
/// - 12: it is not there or not ended;
/// - 1: it has none of the forms of this section;
/// - 6: it is out of its place;
/// - 3: the name is none of `ins`;
/// - 4: the name is on already.
pub fn read_assign(alloc: Global, feed: &mut Feed, ins: &[Name]) -> Result<Vec<Name>, ReadFault>
    requires { feed.old.closed ≡ true }
    ensures reads { Reads (assign_grammar ins.now) (λ names. assign_section names.items) feed.old
        feed.new result }
{
    let Ok(known) = name_set(alloc, feed.seed(), ins) else {
        return Err(feed.starve());
    };
    let on = IndexSet::with_hasher(alloc, feed.seed());
    let mut reading = AssignReader { ins, known, on };
    read_assigned_names(alloc, feed, &mut reading)
}
