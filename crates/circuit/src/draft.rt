//! Circuits, line by line.
ghost use Rattle.std.specs.Prelude.{◌≡◌, ◌==◌, ◌+◌, ◌-◌, true, false, [], ◌∷◌, ◌++◌, ◌≤◌, map, is_some, length, position, take, ◌<◌, Option, None, Some, OnOk, OnErr, IfOk, IfErr, IfSome};
ghost use Rattle.std.specs.Str.{bytes_eq};
ghost use Rattle.circuit.specs.Entries.{entry, defined};
ghost use Rattle.circuit.specs.Gates.{uses, defines};
ghost use Rattle.circuit.specs.declared.circuit_line.CircuitLineKind.TheVariants.{Input, Gate, Output, Spill};
ghost use Rattle.circuit.specs.declared.circuit_line.GateKind.TheVariants.{Source};
ghost use Rattle.circuit.specs.Rules.{exceeds_largest_limit, exceeds_text_limit, is_wrong_delay, is_gate, gate_count, consumed, consume_fault, first_unconsumed};
ghost use Rattle.circuit.specs.DraftView.{draft_fault, with_line};
ghost use Rattle.circuit.specs.Wiring.{gate_of, gate_with_outs_from};
ghost use Rattle.circuit.specs.Meaning.{number};
ghost use Rattle.section_text.specs.Words.{has};
ghost use Rattle.section_text.specs.declared.limits.Limits.TheVariants.{First};
ghost use Rattle.section_text.specs.Adding.{HasRefusalCode};
ghost use Rattle.circuit.specs.Bridge.{HasNameCountOfKind, IsNoInputAfterGate};
ghost use Rattle.lemmas.specs.Bounds.{max_wires};

use crate::circuit_line::{CircuitLine, CircuitLineKind, GateKind};
use crate::netlist::{Circuit, is_name_at};
use crate::number::WireNo;
use crate::sets::{define_wires, mark_wires_consumed};
use crate::wiring::{GateWires, push_gate_of_line};
use indexmap::IndexSet;
use section_text::{
    Limits, LineFault, MAX_GATES, MAX_WIRES, Name, NameHints, Names, RefusalCode, Seed,
};
use std::alloc::{AllocError, Global};
use std::marker::Model;

/// A circuit to which lines are added: inputs, then gates, outputs and spills.
///
/// Contracts see the limits on its wires and gates, and the lines so far.
#[derive(Drop)]
pub struct Draft {
    limits: Limits,
    wires: IndexSet<Name, Seed>,
    hints: NameHints,
    // for each wire, by its number, whether a line consumes it
    consumed: Vec<bool>,
    entries: Vec<CircuitLine>,
    wired: Vec<GateWires>,
    gates: usize,
}

impl Model for Draft {
    ghost use Rattle.circuit.specs.DraftView.{DraftView};

    ghost Value = { DraftView };

    ghost use Rattle.circuit.specs.DraftView.{AreDraftFields, draft_view};

    ghost view = { draft_view };

    ghost invariant = { AreDraftFields };
}

/// A draft that is no circuit, and its first wire, in order of definition, that no line consumes.
#[derive(Drop)]
pub struct Unused {
    pub draft: Draft,
    pub wire: Name,
}

fn has_wrong_delay(kind: CircuitLineKind) -> bool
    ensures { result ≡ is_wrong_delay kind }
{
    match kind {
        CircuitLineKind::Gate(GateKind::Delay(n)) => n == 0 || n > 4096,
        _ => false,
    }
}

fn is_gate_kind(kind: CircuitLineKind) -> bool
    ensures { result ≡ is_gate kind }
{
    match kind {
        CircuitLineKind::Gate(_) => true,
        _ => false,
    }
}

// Keeps a line and its gate. An error changes nothing.
fn push_line_and_gate(
    entries: &mut Vec<CircuitLine>,
    wired: &mut Vec<GateWires>,
    entry: CircuitLine,
    ins: [WireNo; 4],
    first: u16,
) -> Result<(), AllocError>
    requires { first ≤ max_wires }
    ensures line { OnOk result (entries.new.items ≡ entries.old.items ++ entry ∷ []) }
    ensures gate { OnOk result (map gate_of wired.new.items
        ≡ map gate_of wired.old.items ++ gate_with_outs_from entry.kind ins first) }
    ensures err { OnErr result ((entries.new.items ≡ entries.old.items)
        × (wired.new.items ≡ wired.old.items)) }
{
    let before = wired.len();
    push_gate_of_line(wired, entry.kind, ins, first)?;
    if entries.push(entry).is_err() {
        wired.truncate(before);
        return Err(AllocError);
    }
    Ok(())
}

impl Draft {
    /// Creates a draft without lines, of at most 4096 wires and 1024 gates.
    ///
    /// For more of them, and for names that another person chose, use `seeded`.
    pub fn new(alloc: Global) -> Draft
        ensures { result ≡ record { limits = First; lines = [] } }
    {
        Draft::seeded(alloc, Limits::First, Seed::known())
    }

    /// Creates a draft without lines, with these limits, whose table of names hashes by the seed.
    ///
    /// The seed changes no result.
    #[tactic(auto, unfolding(crate::proofs::Imports::AreGoodAfter))]
    pub fn seeded(alloc: Global, limits: Limits, seed: Seed) -> Draft
        ensures { result ≡ record { limits = limits; lines = [] } }
    {
        Draft {
            limits,
            wires: IndexSet::with_hasher(alloc, seed),
            hints: NameHints::new(alloc),
            consumed: Vec::new(alloc),
            entries: Vec::new(alloc),
            wired: Vec::new(alloc),
            gates: 0,
        }
    }

    // Whether a delay, the count of wires or the count of gates would pass the largest limit.
    fn exceeds_largest_limit(&self, entry: &CircuitLine) -> bool
        ensures { result ≡ exceeds_largest_limit self.now.lines entry.now }
    {
        has_wrong_delay(entry.kind)
            || self.wires.len() + entry.outs.as_slice().len() > MAX_WIRES
            || (is_gate_kind(entry.kind) && self.gates >= MAX_GATES)
    }

    // Whether the count of wires or the count of gates would pass a limit of the draft.
    fn exceeds_text_limit(&self, entry: &CircuitLine) -> bool
        ensures { result ≡ exceeds_text_limit self.now.limits self.now.lines entry.now }
    {
        self.wires.len() + entry.outs.as_slice().len() > self.limits.most_wires()
            || (is_gate_kind(entry.kind) && self.gates >= self.limits.most_gates())
    }

    // The number of the wire of a name, if a line defines it.
    #[inline(always)]
    fn wire_number(&self, name: &Name) -> Option<usize>
        ensures number { result ≡ position (bytes_eq name.now) (defined self.now.lines) }
        ensures found { is_some result ≡ has (defined self.now.lines) name.now }
        ensures within { IfSome result (λ i. i < length (defined self.now.lines)) }
    {
        let likely = self.hints.guess(name);
        if is_name_at(self.wires.as_slice(), likely, name) {
            return Some(likely);
        }
        self.wires.get_index_of(name)
    }

    // The wire of a name, if no line consumes it yet, else the code.
    #[tactic(auto, using(crate::proofs::Places::found_number, crate::proofs::Drafts::mark_of_line))]
    fn unconsumed_wire(&self, name: &Name) -> Result<WireNo, RefusalCode>
        ensures is_defined { OnOk result (has (defined self.now.lines) name.now ≡ true) }
        ensures is_unconsumed { OnOk result (has (consumed self.now.lines) name.now ≡ false) }
        ensures wire { IfOk result (λ w. w ≡ number (defined self.now.lines) name.now) }
        ensures err { IfErr result (λ code. consume_fault (defined self.now.lines)
            (consumed self.now.lines) (name.now ∷ []) ≡ Some code) }
    {
        let Some(index) = self.wire_number(name) else {
            return Err(RefusalCode::UnknownName);
        };
        if self.consumed[index] {
            return Err(RefusalCode::ConsumedTwice);
        }
        Ok(WireNo::of(index as u16))
    }

    // The wires that a line with these inputs consumes, else the code of the first input that it may not consume.
    fn unconsumed_wires(&self, names: &[Name]) -> Result<[WireNo; 4], RefusalCode>
        requires { length names.now ≤ 4 }
        ensures ok { OnOk result (consume_fault (defined self.now.lines) (consumed self.now.lines)
            names.now ≡ None) }
        ensures wires { IfOk result (λ ins.
            take (length names.now) ins ≡ map (number (defined self.now.lines)) names.now) }
        ensures err { IfErr result (λ code. consume_fault (defined self.now.lines)
            (consumed self.now.lines) names.now ≡ Some code) }
    {
        let mut ins = [WireNo::of(0); 4];
        for (place, name) in names.iter().enumerate() {
            let wire = self.unconsumed_wire(name)?;
            if ins[..place].contains(&wire) {
                return Err(RefusalCode::ConsumedTwice);
            }
            ins[place] = wire;
        }
        Ok(ins)
    }

    // Adds a line, whatever the kinds of the lines before it. A fault changes nothing.
    #[tactic(auto, unfolding(crate::specs::Rules::limit_or_name_code))]
    pub(crate) fn add(&mut self, entry: CircuitLine) -> Result<(), LineFault>
        requires fits { HasNameCountOfKind entry }
        requires inputs_first { IsNoInputAfterGate self.old.lines entry }
        ensures ok { OnOk result ((draft_fault self.old entry ≡ None)
            × (self.new ≡ with_line self.old entry)) }
        ensures err { OnErr result (self.new ≡ self.old) }
        ensures fault { IfErr result (λ e. HasRefusalCode e (draft_fault self.old entry)) }
    {
        if self.exceeds_text_limit(&entry) {
            return Err(LineFault::Code(RefusalCode::PastLimit));
        }
        if self.exceeds_largest_limit(&entry) {
            return Err(LineFault::Code(RefusalCode::PastLimit));
        }
        let ins = match self.unconsumed_wires(entry.ins.as_slice()) {
            Ok(ins) => ins,
            Err(code) => return Err(LineFault::Code(code)),
        };
        let used = entry.ins.as_slice().len();
        let wires = self.wires.len();
        define_wires(&mut self.wires, &mut self.consumed, entry.outs.as_slice())?;
        self.hints.note_all(entry.outs.as_slice(), wires);
        let is_gate = is_gate_kind(entry.kind);
        if push_line_and_gate(
            &mut self.entries,
            &mut self.wired,
            entry,
            ins,
            wires as u16,
        ).is_err()
        {
            self.wires.truncate(wires);
            self.consumed.truncate(wires);
            return Err(LineFault::Memory);
        }
        mark_wires_consumed(&mut self.consumed, &ins[..used]);
        if is_gate {
            self.gates += 1;
        }
        Ok(())
    }

    /// Returns whether inputs may still be added: no gate, and no source, was added yet.
    pub fn may_add_inputs(&self) -> bool
        ensures { result ≡ (gate_count self.now.lines == 0) }
    {
        self.gates == 0
    }

    /// Adds an input, which defines a wire, if `may_add_inputs()`.
    ///
    /// # Errors
    ///
    /// An error changes nothing. The code is
    ///
    /// - 2 if there would be more wires than the limits allow,
    /// - 4 if the name is defined already.
    pub fn add_input(&mut self, name: Name) -> Result<(), LineFault>
        requires { gate_count self.old.lines ≡ 0 }
        ensures ok { OnOk result ((draft_fault self.old (entry Input [] (name ∷ [])) ≡ None)
            × (self.new ≡ with_line self.old (entry Input [] (name ∷ [])))) }
        ensures err { OnErr result (self.new ≡ self.old) }
        ensures fault { IfErr result (λ e. HasRefusalCode e
            (draft_fault self.old (entry Input [] (name ∷ [])))) }
    {
        self.add(CircuitLine::of_one_name(CircuitLineKind::Input, name))
    }

    /// Adds a source, a gate without inputs whose wire has the value `bit`.
    ///
    /// # Errors
    ///
    /// An error changes nothing. The code is
    ///
    /// - 2 if there would be more wires or gates than the limits allow,
    /// - 4 if the name is defined already.
    pub fn add_source(&mut self, bit: bool, name: Name) -> Result<(), LineFault>
        ensures ok { OnOk result ((draft_fault self.old (entry (Gate (Source bit)) [] (name ∷ []))
            ≡ None) × (self.new ≡ with_line self.old (entry (Gate (Source bit)) [] (name ∷ [])))) }
        ensures err { OnErr result (self.new ≡ self.old) }
        ensures fault { IfErr result (λ e. HasRefusalCode e
            (draft_fault self.old (entry (Gate (Source bit)) [] (name ∷ [])))) }
    {
        self.add(CircuitLine::source(bit, name))
    }

    /// Adds a gate, which consumes the wires `ins` and defines the wires `outs`, as many as its kind has.
    ///
    /// # Errors
    ///
    /// An error changes nothing. The code is that of the first test that fails:
    ///
    /// - 2: a delay is not 1 to 4096, or there would be more wires or gates than the limits allow;
    /// - then, from left to right, 3: a name of `ins` is not defined, and 5: it is consumed already;
    /// - 4: a name of `outs` is defined already.
    pub fn add_gate(&mut self, kind: GateKind, ins: &[Name], outs: &[Name]) -> Result<(), LineFault>
        requires ins { length ins.now ≡ uses kind }
        requires outs { length outs.now ≡ defines kind }
        ensures ok { OnOk result ((draft_fault self.old (entry (Gate kind) ins.now outs.now) ≡ None)
            × (self.new ≡ with_line self.old (entry (Gate kind) ins.now outs.now))) }
        ensures err { OnErr result (self.new ≡ self.old) }
        ensures fault { IfErr result (λ e. HasRefusalCode e
            (draft_fault self.old (entry (Gate kind) ins.now outs.now))) }
    {
        let few_ins = kind.ins();
        let few_outs = kind.outs();
        prove!(few_ins <= 4 && few_outs <= 4);
        self.add(CircuitLine {
            kind: CircuitLineKind::Gate(kind),
            ins: Names::of(ins),
            outs: Names::of(outs),
        })
    }

    /// Adds an output, which consumes a wire.
    ///
    /// # Errors
    ///
    /// An error changes nothing. The code is
    ///
    /// - 3 if the name is not defined,
    /// - 5 if the wire is consumed already.
    pub fn add_output(&mut self, name: Name) -> Result<(), LineFault>
        ensures ok { OnOk result ((draft_fault self.old (entry Output (name ∷ []) []) ≡ None)
            × (self.new ≡ with_line self.old (entry Output (name ∷ []) []))) }
        ensures err { OnErr result (self.new ≡ self.old) }
        ensures fault { IfErr result (λ e. HasRefusalCode e
            (draft_fault self.old (entry Output (name ∷ []) []))) }
    {
        self.add(CircuitLine::of_one_name(CircuitLineKind::Output, name))
    }

    /// Adds a spill, which consumes a wire that is no output.
    ///
    /// # Errors
    ///
    /// An error changes nothing. The code is
    ///
    /// - 3 if the name is not defined,
    /// - 5 if the wire is consumed already.
    pub fn add_spill(&mut self, name: Name) -> Result<(), LineFault>
        ensures ok { OnOk result ((draft_fault self.old (entry Spill (name ∷ []) []) ≡ None)
            × (self.new ≡ with_line self.old (entry Spill (name ∷ []) []))) }
        ensures err { OnErr result (self.new ≡ self.old) }
        ensures fault { IfErr result (λ e. HasRefusalCode e
            (draft_fault self.old (entry Spill (name ∷ []) []))) }
    {
        self.add(CircuitLine::of_one_name(CircuitLineKind::Spill, name))
    }

    // The first wire that nobody consumes.
    pub(crate) fn first_unconsumed_name(&self) -> Option<Name>
        ensures { result ≡ first_unconsumed (consumed self.now.lines) (defined self.now.lines) }
    {
        for (number, name) in self.wires.as_slice().iter().enumerate() {
            if !self.consumed[number] {
                return Some(*name);
            }
        }
        None
    }

    /// Makes the circuit of these lines. It takes no memory.
    ///
    /// # Errors
    ///
    /// The first wire that no line consumes, if there is one, with the draft.
    pub fn finish(self) -> Result<Circuit, Unused>
        ensures ok { IfOk result (λ c. (c ≡ self.lines)
            × (first_unconsumed (consumed self.lines) (defined self.lines) ≡ None)) }
        ensures err { IfErr result (λ u. (u.draft ≡ self)
            × (first_unconsumed (consumed self.lines) (defined self.lines) ≡ Some u.wire)) }
    {
        if let Some(wire) = self.first_unconsumed_name() {
            return Err(Unused { draft: self, wire });
        }
        let Draft {
            limits: _,
            wires,
            hints,
            consumed: _,
            entries,
            wired,
            gates: _,
        } = self;
        Ok(Circuit {
            wires,
            hints,
            entries,
            wired,
        })
    }
}
