//! A certificate that is read, line by line.
ghost use Rattle.std.specs.Prelude.{◌≡◌, ◌++◌, ◌∷◌, [], None, Option, Some, List, ℕ, length, OnErr, OnOk, IfOk, IfErr, IfSome};
ghost use Rattle.section_text.specs.Adding.{HasRefusalCode};
ghost use Rattle.std.specs.List.{All};
ghost use Rattle.std.specs.Option.{is_some, option_and_then, option_map};
ghost use Rattle.circuit.specs.Meaning.{wire_of};
ghost use Rattle.certificate_lines.specs.Entries.{ModuleLines, known, modules_of, last_module, wire_name_in_line};
ghost use Rattle.certificate_lines.specs.Modules.{IsWithinLineLimit};
ghost use Rattle.certificate_lines.specs.StoredModules.{HasCircuitWires, lines_of_modules, module_lines};
ghost use Rattle.certificate_lines.specs.Rules.{timed_line_count, border_or_stop_line_code, entry_fault, end_fault, module_box_code, module_line_code, body_line_code, code_but_for_order, is_last_module_incomplete, module_limit_fault};
ghost use Rattle.certificate_lines.specs.BuilderView.{IsModuleOwnerTable, BuilderView, IsEdgeHaloOrStopLine, IsBodyLine};
ghost use Rattle.certificate_lines.specs.declared.certificate_line.CertificateLine.TheVariants.{Module};

use crate::certificate_line::CertificateLine;
use crate::line_tables::LineTables;
use crate::local_wires::{make_room_for_wires, move_wires_to_earlier, push_line_wires};
use crate::order::{LineKey, key_of, may_follow, module_line_key};
use crate::rules::{
    border_or_stop_code, cut_code, has_odd_corner_or_is_outside, is_bad_box_side, keep_code,
    may_edge_have_place_and_time, may_halo_have_place_and_time, may_stop_have_place_and_time,
    use_code,
};
use crate::stars::{
    has_starred_line_at, make_room_if_starred_border_line, note_if_starred_border_line,
};
use crate::stored_module::{StoredModule, push_line_in_last_module};
use crate::wire_list::WireList;
use bbm_rule::Cell;
use indexmap::IndexSet;
use module_box::{Box2, Owners};
use section_text::{Limits, LineFault, MAX_MODULES, RefusalCode};
use std::alloc::{AllocError, Global};
use std::marker::Model;

/// A certificate to which lines are added.
///
/// It has the circuit and the layout that the certificate is for, the lines so far, and what they say of the modules
/// and of the last one.
#[derive(Drop)]
pub struct Builder<'a> {
    pub(crate) tables: LineTables<'a>,
    pub(crate) modules: Vec<StoredModule>,
    // which module so far has each cell
    pub(crate) owners: Owners,
    // the wires that are local in each module before the last, behind none
    pub(crate) earlier: Vec<Vec<u16>>,
    // the key of the last line
    last: LineKey,
    // of the last module: its local wires, and its cells with a `*`
    pub(crate) known: WireList,
    edges: IndexSet<Cell>,
    halos: IndexSet<Cell>,
}

/// The modules of a certificate that was read, and which of them has each cell of the layout.
#[derive(Drop)]
pub struct BuiltParts {
    pub modules: Vec<StoredModule>,
    pub owners: Owners,
}

impl<'a> Model for Builder<'a> {
    ghost use Rattle.certificate_lines.specs.BuilderView.{BuilderView};

    ghost Value = { BuilderView };

    ghost use Rattle.certificate_lines.specs.BuilderView.{builder_view, AreBuilderFields};

    ghost view = { builder_view };

    ghost invariant = { AreBuilderFields };
}

impl<'a> Builder<'a> {
    /// Creates a builder without lines.
    pub fn new(alloc: Global, tables: LineTables<'a>) -> Result<Builder<'a>, AllocError>
        ensures { IfOk result (λ b. b ≡ record { setting = tables.entry; entries = [] }) }
    {
        let size = tables.size();
        let owners = Owners::new(alloc, size.w, size.h)?;
        Ok(Builder {
            tables,
            modules: Vec::new(alloc),
            owners,
            earlier: Vec::new(alloc),
            last: module_line_key(),
            known: WireList::new(alloc),
            edges: IndexSet::new(alloc),
            halos: IndexSet::new(alloc),
        })
    }

    // The last module.
    #[inline(always)]
    fn last_module(&self) -> Option<&StoredModule>
        ensures module { option_map (λ m. module_lines self.now.setting.circuit m.now) result
            ≡ last_module self.now.entries }
        ensures within_limit { IfSome result (λ m. IsWithinLineLimit
            (module_lines self.now.setting.circuit m.now)) }
    {
        self.modules.last()
    }

    // Whether a port in the box of the last module has a wire that is not local.
    fn has_nonlocal_port(&self) -> bool
        ensures { result
            ≡ is_last_module_incomplete self.now.setting (last_module self.now.entries) }
    {
        self.tables.prove_valid();
        match self.last_module() {
            Some(last) => self.tables.has_nonlocal_port(&self.known, last.area),
            None => false,
        }
    }

    // The code of an edge, halo or stop line, by `border_or_stop_code` with the wires of the last module.
    #[inline(always)]
    #[tactic(auto, using(crate::proofs::StoredLemmas::timed_count))]
    fn border_or_stop_code(
        &self,
        last: &StoredModule,
        placed: bool,
        named: bool,
        wire: Option<u16>,
    ) -> Option<RefusalCode>
        requires { IsWithinLineLimit (module_lines self.now.setting.circuit last.now) }
        ensures { (m : ModuleLines) (signal : Option (List ℕ)) →
            last_module self.now.entries ≡ Some m →
            m ≡ module_lines self.now.setting.circuit last.now →
            named ≡ is_some signal →
            wire ≡ option_and_then (wire_of self.now.setting.circuit) signal →
            result ≡ border_or_stop_line_code self.now.setting.circuit (timed_line_count m)
            (known self.now.setting.circuit m) placed signal }
    {
        let borders = last.edges.len() + last.halos.len() + last.stops.len();
        border_or_stop_code(borders, &self.known, placed, named, wire)
    }

    // The code of the tests that come after that of the order, for a line of the last module.
    #[inline(always)]
    #[tactic(auto, using(crate::proofs::StoredLemmas::cut_count, crate::proofs::StoredLemmas::used_gates))]
    fn code_but_for_order(
        &self,
        last: &StoredModule,
        entry: &CertificateLine,
        wire: Option<u16>,
    ) -> Option<RefusalCode>
        requires within_limit { IsWithinLineLimit (module_lines self.now.setting.circuit
            last.now) }
        requires wire { wire
            ≡ option_and_then (wire_of self.now.setting.circuit) (wire_name_in_line entry.now) }
        ensures { (m : ModuleLines) → last_module self.now.entries ≡ Some m →
            m ≡ module_lines self.now.setting.circuit last.now →
            result ≡ code_but_for_order self.now.setting m entry.now }
    {
        let size = self.tables.size();
        match entry {
            CertificateLine::Module(_) => None,
            CertificateLine::Cut(_) => cut_code(last.cuts.len(), &self.known, wire),
            CertificateLine::Use(number) => use_code(
                &self.tables,
                last.gates.len(),
                &self.known,
                *number,
            ),
            CertificateLine::Keep(number) => keep_code(
                &self.tables,
                last.gates.as_slice(),
                *number,
            ),
            CertificateLine::Edge(border) => {
                let starred = has_starred_line_at(&self.edges, border.cell);
                let placed = may_edge_have_place_and_time(size, last.area, starred, border);
                self.border_or_stop_code(last, placed, border.signal.is_some(), wire)
            }
            CertificateLine::Halo(border) => {
                let starred = has_starred_line_at(&self.halos, border.cell);
                let placed = may_halo_have_place_and_time(size, last.area, starred, border);
                self.border_or_stop_code(last, placed, border.signal.is_some(), wire)
            }
            CertificateLine::Stop(stop) => {
                let placed = may_stop_have_place_and_time(size, last.area, stop);
                self.border_or_stop_code(last, placed, true, wire)
            }
        }
    }

    // The code of a line of a module. `wire` is the wire that the line names, if it names one.
    #[inline(always)]
    fn body_line_code(&self, entry: &CertificateLine, wire: Option<u16>) -> Option<RefusalCode>
        requires inner { IsBodyLine entry.now }
        requires wire { wire
            ≡ option_and_then (wire_of self.now.setting.circuit) (wire_name_in_line entry.now) }
        ensures { result
            ≡ body_line_code self.now.setting (last_module self.now.entries) entry.now }
    {
        let Some(last) = self.last_module() else {
            return Some(RefusalCode::OutOfOrder);
        };
        if !may_follow(self.last, entry) {
            return Some(RefusalCode::OutOfOrder);
        }
        self.code_but_for_order(last, entry, wire)
    }
}

impl<'a> Builder<'a> {
    // Adds an edge, halo or stop line, or answers the code of the first test that it fails.
    //
    // It is inlined where the kind of line is known, so that no test asks for the kind.
    #[inline(always)]
    #[tactic(auto, using(crate::proofs::Keeping::good_line, crate::proofs::Keeping::with_border))]
    fn add_border_or_stop(&mut self, entry: &CertificateLine) -> Result<(), LineFault>
        requires { IsEdgeHaloOrStopLine entry.now }
        ensures ok { OnOk result ((body_line_code self.old.setting (last_module self.old.entries)
            entry.now ≡ None) × (self.new
            ≡ record self.old { entries = self.old.entries ++ entry.now ∷ [] })) }
        ensures fault { IfErr result (λ e. HasRefusalCode e
            (body_line_code self.old.setting (last_module self.old.entries) entry.now)) }
        ensures unchanged_on_error { OnErr result (self.new ≡ self.old) }
    {
        let wire = self.tables.wire_in(entry);
        if let Some(code) = self.body_line_code(entry, wire) {
            return Err(LineFault::Code(code));
        }
        if make_room_if_starred_border_line(&mut self.edges, &mut self.halos, entry).is_err() {
            return Err(LineFault::Memory);
        }
        push_line_in_last_module(&mut self.modules, entry, wire)?;
        note_if_starred_border_line(&mut self.edges, &mut self.halos, entry);
        self.last = key_of(entry);
        Ok(())
    }

    // Adds a line of a module, or answers the code of the first test that it fails.
    #[inline(never)]
    #[tactic(auto, using(crate::proofs::Keeping::good_line, crate::proofs::Keeping::with_inner))]
    fn add_body_line(&mut self, entry: CertificateLine) -> Result<(), LineFault>
        requires { IsBodyLine entry }
        ensures ok { OnOk result ((body_line_code self.old.setting (last_module self.old.entries)
            entry ≡ None) × (self.new
            ≡ record self.old { entries = self.old.entries ++ entry ∷ [] })) }
        ensures fault { IfErr result (λ e. HasRefusalCode e
            (body_line_code self.old.setting (last_module self.old.entries) entry)) }
        ensures unchanged_on_error { OnErr result (self.new ≡ self.old) }
    {
        let wire = self.tables.wire_in(&entry);
        if let Some(code) = self.body_line_code(&entry, wire) {
            return Err(LineFault::Code(code));
        }
        if make_room_for_wires(&mut self.known, &self.tables, &entry).is_err() {
            return Err(LineFault::Memory);
        }
        if make_room_if_starred_border_line(&mut self.edges, &mut self.halos, &entry).is_err() {
            return Err(LineFault::Memory);
        }
        push_line_in_last_module(&mut self.modules, &entry, wire)?;
        push_line_wires(&mut self.known, &self.tables, &entry, wire);
        note_if_starred_border_line(&mut self.edges, &mut self.halos, &entry);
        self.last = key_of(&entry);
        Ok(())
    }
}

impl<'a> Builder<'a> {
    // How many modules there are.
    #[tactic(auto, using(crate::proofs::StoredLemmas::count_stored))]
    fn module_count(&self) -> usize
        ensures { result ≡ length (modules_of self.now.entries) }
    {
        self.modules.len()
    }

    // The code of the tests of a box by itself.
    #[tactic(auto, unfolding(crate::specs::Rules::module_box_code))]
    fn module_code_but_for_overlap(&self, area: Box2) -> Option<RefusalCode>
        ensures { result
            ≡ module_box_code self.now.setting (length (modules_of self.now.entries))
            (last_module self.now.entries) area }
    {
        let size = self.tables.size();
        if self.has_nonlocal_port() {
            return Some(RefusalCode::SomethingMissing);
        }
        let bad_width = is_bad_box_side(area.w);
        let bad_height = is_bad_box_side(area.h);
        if bad_width | bad_height | (self.module_count() >= MAX_MODULES) {
            return Some(RefusalCode::PastLimit);
        }
        if has_odd_corner_or_is_outside(size, area) {
            return Some(RefusalCode::MisplacedBox);
        }
        None
    }

    // The code of the first test that the box of a module fails, by itself and among the earlier ones.
    #[tactic(auto, using(crate::proofs::BuiltLemmas::passes_alone))]
    fn module_code(&self, area: Box2) -> Option<RefusalCode>
        ensures { result ≡ module_line_code self.now.setting (modules_of self.now.entries)
            (last_module self.now.entries) area }
    {
        if let Some(code) = self.module_code_but_for_overlap(area) {
            return Some(code);
        }
        if !self.owners.is_box_free(area) {
            return Some(RefusalCode::MisplacedBox);
        }
        None
    }

    fn add_module(&mut self, alloc: Global, area: Box2) -> Result<(), LineFault>
        ensures ok { OnOk result ((module_line_code self.old.setting (modules_of self.old.entries)
            (last_module self.old.entries) area ≡ None)
            × (self.new ≡ record self.old { entries = self.old.entries ++ Module area ∷ [] })) }
        ensures fault { IfErr result (λ e. HasRefusalCode e
            (module_line_code self.old.setting (modules_of self.old.entries)
            (last_module self.old.entries) area)) }
        ensures unchanged_on_error { OnErr result (self.new ≡ self.old) }
    {
        if let Some(code) = self.module_code(area) {
            return Err(LineFault::Code(code));
        }
        let before = self.modules.len();
        let Ok(()) = self.modules.push(StoredModule::new(alloc, area)) else {
            return Err(LineFault::Memory);
        };
        let Ok(()) = move_wires_to_earlier(alloc, &mut self.earlier, &mut self.known) else {
            self.modules.truncate(before);
            return Err(LineFault::Memory);
        };
        self.owners.put(area, before);
        self.last = module_line_key();
        self.edges.truncate(0);
        self.halos.truncate(0);
        Ok(())
    }

    /// Returns code 2 if the line is one module too many for the limits of its text.
    ///
    /// If a port of the last module has a wire that is not local, it returns none: `add` answers code 11 first.
    #[tactic(auto, unfolding(crate::specs::Rules::module_limit_fault))]
    pub fn module_limit_code(&self, limits: Limits, entry: &CertificateLine) -> Option<RefusalCode>
        ensures { result
            ≡ module_limit_fault limits self.now.setting self.now.entries entry.now }
    {
        match entry {
            CertificateLine::Module(_) => {
                if self.module_count() >= limits.most_modules() && !self.has_nonlocal_port() {
                    Some(RefusalCode::PastLimit)
                } else {
                    None
                }
            }
            _ => None,
        }
    }

    /// Adds a line.
    ///
    /// Most lines are edge, halo and stop lines. Each of the three has a call of its own, in which the compiler knows
    /// the kind.
    ///
    /// # Errors
    ///
    /// Out of memory, or the code of the first test that the line fails.
    #[tactic(auto, unfolding(crate::specs::Rules::entry_fault))]
    pub fn add(&mut self, alloc: Global, entry: CertificateLine) -> Result<(), LineFault>
        ensures ok { OnOk result ((entry_fault self.old.setting self.old.entries entry ≡ None)
            × (self.new ≡ record self.old { entries = self.old.entries ++ entry ∷ [] })) }
        ensures fault { IfErr result (λ e. HasRefusalCode e
            (entry_fault self.old.setting self.old.entries entry)) }
        ensures unchanged_on_error { OnErr result (self.new ≡ self.old) }
    {
        match entry {
            CertificateLine::Module(area) => self.add_module(alloc, area),
            CertificateLine::Edge(_) => self.add_border_or_stop(&entry),
            CertificateLine::Halo(_) => self.add_border_or_stop(&entry),
            CertificateLine::Stop(_) => self.add_border_or_stop(&entry),
            _ => self.add_body_line(entry),
        }
    }

    /// Returns code 11 if a port of the last module has a wire that is not local, or if the boxes leave a gap.
    pub fn missing(&self) -> Option<RefusalCode>
        ensures { result ≡ end_fault self.now.setting self.now.entries }
    {
        let lacks = self.has_nonlocal_port();
        let full = self.owners.are_all_blocks_taken();
        if lacks | !full {
            Some(RefusalCode::SomethingMissing)
        } else {
            None
        }
    }

    /// Returns the modules, and which of them has each cell.
    pub fn into_parts(self) -> BuiltParts
        ensures entries { lines_of_modules self.entry.setting.circuit result.modules.items
            ≡ self.entry.entries }
        ensures wires { All (HasCircuitWires self.entry.setting.circuit) result.modules.items }
        ensures owners { IsModuleOwnerTable self.entry.setting (modules_of self.entry.entries)
            result.owners }
    {
        let Builder {
            modules,
            owners,
            ..
        } = self;
        BuiltParts { modules, owners }
    }
}
