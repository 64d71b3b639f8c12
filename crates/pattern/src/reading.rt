//! The reader of the layout section.
ghost use Rattle.std.specs.Prelude.{◌≡◌, ◌||◌, ◌<◌, ℕ, true, [], List, IfOk};
ghost use Rattle.std.specs.List.{list_all};
ghost use Rattle.pattern.specs.Layout.{parts_of};
ghost use Rattle.indexmap.specs.IndexSet.{spare};
ghost use Rattle.section_text.specs.Section.{Reads};
ghost use Rattle.section_text.specs.Ports.{port_name_lists};
ghost use Rattle.section_text.specs.Words.{has};
ghost use Rattle.section_text.specs.declared.limits.Limits.TheVariants.{First};
ghost use Rattle.pattern.specs.Lines.{ArePortsNamed, allows_any_name, is_input_cell_named, is_output_cell_named, may_name_input, may_name_output, line_fault, name_fault};
ghost use Rattle.pattern.specs.Grammars.{layout_grammar, layout_section};

use crate::draft::Draft;
use crate::form::line_form;
use crate::layout::Layout;
use crate::layout_line::{LayoutHeader, LayoutLine};
use crate::names::{name_set, put_name_if_room};
use indexmap::IndexSet;
use section_text::{
    Feed, Form, Limits, Line, LineFault, Name, NameHints, PortNames, ReadFault, RefusalCode,
    Section, Seed, read_section,
};
use std::alloc::{AllocError, Global};
use std::marker::Model;

// A layout that is read, and the names of its ports.
#[derive(Drop)]
struct Reading<'a> {
    alloc: Global,
    limits: Limits,
    ports: &'a PortNames,
    // the names that ports may have, where not all are good
    known_ins: IndexSet<Name, Seed>,
    known_outs: IndexSet<Name, Seed>,
    known_hints: NameHints,
    // those that have a port, where not all are good
    seen_ins: IndexSet<Name, Seed>,
    seen_outs: IndexSet<Name, Seed>,
    seen_hints: NameHints,
    draft: Draft,
}

impl<'a> Model for Reading<'a> {
    ghost use Rattle.pattern.specs.Readings.{ReadingView};

    ghost Value = { ReadingView };

    ghost use Rattle.pattern.specs.ReadingView.{reading_view, AreReadingFields};

    ghost view = { reading_view };

    ghost invariant = { AreReadingFields };
}

fn allows_any_name(ports: &PortNames) -> bool
    ensures { result ≡ allows_any_name (port_name_lists ports.now) }
{
    match ports {
        PortNames::Any => true,
        PortNames::Only { ins: _, outs: _ } => false,
    }
}

// Whether the set has the name, for hints by which it is likely found.
fn has_name(set: &IndexSet<Name, Seed>, hints: &NameHints, name: &Name) -> bool
    ensures { result ≡ has set.now.keys name.now }
{
    let place = hints.guess(name);
    match set.as_slice().get(place) {
        Some(likely) if *likely == *name => true,
        _ => set.contains(name),
    }
}

// Whether the set has all these names.
fn has_all_names(set: &IndexSet<Name, Seed>, hints: &NameHints, names: &[Name]) -> bool
    ensures { result ≡ list_all (λ n. has set.now.keys n) names.now }
{
    for name in names {
        if !has_name(set, hints, name) {
            return false;
        }
    }
    true
}

// Notes that the name of a port has one.
fn note_port_name_seen(
    ins: &mut IndexSet<Name, Seed>,
    outs: &mut IndexSet<Name, Seed>,
    hints: &mut NameHints,
    part: &LayoutLine,
)
    requires room_in { 0 < spare ins.old }
    requires room_out { 0 < spare outs.old }
    ensures ins { (n : List ℕ) →
        has ins.new.keys n ≡ (has ins.old.keys n || is_input_cell_named n part.now) }
    ensures outs { (n : List ℕ) →
        has outs.new.keys n ≡ (has outs.old.keys n || is_output_cell_named n part.now) }
{
    match part {
        LayoutLine::In(port) => {
            hints.note_all(&[port.name], ins.len());
            put_name_if_room(ins, port.name);
        }
        LayoutLine::Out(port) => {
            hints.note_all(&[port.name], outs.len());
            put_name_if_room(outs, port.name);
        }
        LayoutLine::Mirror(_) => {}
        LayoutLine::Ball(_) => {}
        LayoutLine::Waste(_) => {}
    }
}

impl<'a> Reading<'a> {
    // No lines. The size is that of the smallest layout, until the first line is read.
    #[tactic(auto, unfolding(crate::specs::Lines::size_fault))]
    fn new(
        alloc: Global,
        limits: Limits,
        seed: Seed,
        ports: &'a PortNames,
    ) -> Result<Reading<'a>, AllocError>
        ensures limits { IfOk result (λ reading. reading.limits ≡ limits) }
        ensures ports { IfOk result (λ reading. reading.ports ≡ port_name_lists ports.now) }
        ensures parts { IfOk result (λ reading. parts_of reading.layout ≡ []) }
    {
        let (known_ins, known_outs) = allowed_port_names(alloc, seed, ports)?;
        let known_hints = port_name_hints(alloc, ports);
        let seen_ins = IndexSet::with_hasher(alloc, seed);
        let seen_outs = IndexSet::with_hasher(alloc, seed);
        let smallest = LayoutHeader {
            w: 2,
            h: 2,
            steps: 0,
        };
        let draft = Draft::new(alloc, smallest)?;
        Ok(Reading {
            alloc,
            limits,
            ports,
            known_ins,
            known_outs,
            known_hints,
            seen_ins,
            seen_outs,
            seen_hints: NameHints::new(alloc),
            draft,
        })
    }

    fn into_layout(self) -> Layout
        ensures { result ≡ self.entry.layout }
    {
        let Reading {
            alloc: _,
            limits: _,
            ports: _,
            known_ins: _,
            known_outs: _,
            known_hints: _,
            seen_ins: _,
            seen_outs: _,
            seen_hints: _,
            draft,
        } = self;
        draft.into_layout()
    }

    // Code 3 where a port may not have its name.
    #[tactic(auto, unfolding(crate::specs::Lines::name_fault))]
    fn name_code(&self, part: &LayoutLine) -> Option<RefusalCode>
        ensures { result ≡ name_fault self.now.ports part.now }
    {
        let any = allows_any_name(self.ports);
        match part {
            LayoutLine::In(port) => {
                if any || has_name(&self.known_ins, &self.known_hints, &port.name) {
                    return None;
                }
                Some(RefusalCode::UnknownName)
            }
            LayoutLine::Out(port) => {
                if any || has_name(&self.known_outs, &self.known_hints, &port.name) {
                    return None;
                }
                Some(RefusalCode::UnknownName)
            }
            _ => None,
        }
    }

    // The code of the first test that a line fails before those of its cells.
    #[tactic(auto, unfolding(crate::specs::Lines::line_fault))]
    fn line_code(&self, part: &LayoutLine) -> Option<RefusalCode>
        ensures { result ≡ line_fault self.now.ports (parts_of self.now.layout) part.now }
    {
        if let Some(code) = self.draft.order_code(part) {
            return Some(code);
        }
        if let Some(code) = part.largest_limit_code() {
            return Some(code);
        }
        self.name_code(part)
    }
}

// The names that ports may have, where not all are good.
fn allowed_port_names(
    alloc: Global,
    seed: Seed,
    ports: &PortNames,
) -> Result<(IndexSet<Name, Seed>, IndexSet<Name, Seed>), AllocError>
    ensures ins { IfOk result (λ known. (n : List ℕ) →
        may_name_input (port_name_lists ports.now) n
        ≡ (allows_any_name (port_name_lists ports.now) || has known.0.keys n)) }
    ensures outs { IfOk result (λ known. (n : List ℕ) →
        may_name_output (port_name_lists ports.now) n
        ≡ (allows_any_name (port_name_lists ports.now) || has known.1.keys n)) }
{
    match ports {
        PortNames::Any => Ok((name_set(alloc, seed, &[])?, name_set(alloc, seed, &[])?)),
        PortNames::Only { ins, outs } => {
            let ins = name_set(alloc, seed, ins)?;
            let outs = name_set(alloc, seed, outs)?;
            Ok((ins, outs))
        }
    }
}

// Hints for the names that ports may have. A name of an input and an output has the place of the output.
fn port_name_hints(alloc: Global, ports: &PortNames) -> NameHints {
    let mut hints = NameHints::new(alloc);
    if let PortNames::Only { ins, outs } = ports {
        hints.note_all(ins.as_slice(), 0);
        hints.note_all(outs.as_slice(), 0);
    }
    hints
}

impl<'a> Section for Reading<'a> {
    type Header = LayoutHeader;

    type Item = LayoutLine;

    ghost grammar = { λ r. layout_grammar r.limits r.ports };

    ghost header = { λ r. r.layout.size };

    ghost items = { λ r. parts_of r.layout };

    fn form(&self, feed: &Feed, line: &Line) -> Option<Form<LayoutHeader, LayoutLine>> {
        line_form(feed, line)
    }

    fn begin(&mut self, size: LayoutHeader) -> Result<(), LineFault> {
        if let Some(code) = size.text_limit_code(self.limits) {
            return Err(LineFault::Code(code));
        }
        if let Some(code) = size.largest_limit_code() {
            return Err(LineFault::Code(code));
        }
        let Ok(draft) = Draft::new(self.alloc, size) else {
            return Err(LineFault::Memory);
        };
        self.draft = draft;
        Ok(())
    }

    #[tactic(auto, using(crate::proofs::ReadingLemmas::in_order, crate::proofs::ReadingLemmas::in_limits), unfolding(crate::specs::Lines::layout_line_fault))]
    fn add(&mut self, part: LayoutLine) -> Result<(), LineFault> {
        if let Some(code) = self.draft.order_code(&part) {
            return Err(LineFault::Code(code));
        }
        if let Some(code) = part.text_limit_code(self.limits) {
            return Err(LineFault::Code(code));
        }
        if let Some(code) = self.line_code(&part) {
            return Err(LineFault::Code(code));
        }
        if allows_any_name(self.ports) {
            return self.draft.add(part);
        }
        if self.seen_ins.reserve(1).is_err() || self.seen_outs.reserve(1).is_err() {
            return Err(LineFault::Memory);
        }
        self.draft.add(part)?;
        note_port_name_seen(
            &mut self.seen_ins,
            &mut self.seen_outs,
            &mut self.seen_hints,
            &part,
        );
        Ok(())
    }

    fn missing(&self) -> Option<RefusalCode> {
        match self.ports {
            PortNames::Any => None,
            PortNames::Only { ins, outs } => {
                let has_ins = has_all_names(&self.seen_ins, &self.seen_hints, ins);
                let has_outs = has_all_names(&self.seen_outs, &self.seen_hints, outs);
                if has_ins & has_outs {
                    None
                } else {
                    Some(RefusalCode::SomethingMissing)
                }
            }
        }
    }
}

/// Reads a layout section as `read_layout_within` does, of at most 512 by 512 cells and 65,536 steps.
pub fn read_layout(alloc: Global, feed: &mut Feed, ports: &PortNames) -> Result<Layout, ReadFault>
    requires { feed.old.closed ≡ true }
    ensures reads { Reads (layout_grammar First (port_name_lists ports.now)) layout_section
        feed.old feed.new result }
    ensures names { IfOk result (λ l. ArePortsNamed (port_name_lists ports.now) (parts_of l)) }
{
    read_layout_within(alloc, feed, Limits::First, ports)
}

/// Reads a layout section of a text with these limits: the size line, mirrors, balls, inputs, outputs and wastes in
/// this order, and `end`.
///
/// If the names of ports are given, an input cell has the name of an input, and an output cell that of an output. Each
/// of them has a cell.
///
/// # Errors
///
/// Out of memory, or the first line that is refused, counted from 1 over the whole feed. The feed keeps its fault. The
/// code is that of the first test that the line fails:
///
/// - 12: it is not there or not ended;
/// - 1: it has none of the forms of this section;
/// - 6: it is out of its place;
/// - 11: it is `end`, and an input or an output has no cell;
/// - 2: a number is outside its limits;
/// - 3: a port may not have this name;
/// - 7: a cell is outside the layout, or is taken.
pub fn read_layout_within(
    alloc: Global,
    feed: &mut Feed,
    limits: Limits,
    ports: &PortNames,
) -> Result<Layout, ReadFault>
    requires { feed.old.closed ≡ true }
    ensures reads { Reads (layout_grammar limits (port_name_lists ports.now)) layout_section
        feed.old feed.new result }
    ensures names { IfOk result (λ l. ArePortsNamed (port_name_lists ports.now) (parts_of l)) }
{
    let Ok(mut reading) = Reading::new(alloc, limits, feed.seed(), ports) else {
        return Err(feed.starve());
    };
    let read = read_section(feed, &mut reading);
    let layout = reading.into_layout();
    match read {
        Ok(()) => Ok(layout),
        Err(fault) => Err(fault),
    }
}
