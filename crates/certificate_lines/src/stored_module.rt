//! A module as a certificate keeps it: its lines by their kinds, with the numbers of their wires.
ghost use Rattle.std.specs.Prelude.{◌≡◌, ◌<◌, ◌++◌, ◌∷◌, [], List, true, length, map, IfErr, IfOk, IfSome, OnErr, OnOk};
ghost use Rattle.std.specs.List.{All};
ghost use Rattle.bbm_rule.specs.declared.block.Cell.{Cell};
ghost use Rattle.circuit.specs.Meaning.{Circuit};
ghost use Rattle.section_text.specs.declared.section.LineFault.TheVariants.{Memory};
ghost use Rattle.certificate_lines.specs.BuilderView.{IsWireOfLine, IsWithinMaxSize, MayBeStored};
ghost use Rattle.certificate_lines.specs.Entries.{last_of, line_counts_of, module_with_line};
ghost use Rattle.certificate_lines.specs.Orders.{may_follow};
ghost use Rattle.certificate_lines.specs.StoredModules.{HasCircuitWires, cell_at, lines_of_modules, module_lines};

use crate::certificate_line::{BorderLine, CertificateLine, Counts, StopLine};
use bbm_rule::Cell;
use circuit::{GateNo, WireNo};
use module_box::Box2;
use section_text::LineFault;
use std::alloc::{AllocError, Global};
use std::mem::size_of;

/// An edge or halo line, with its wire's number, or `None` for the constant `1`.
///
/// It takes 16 bytes, since a certificate may have a million of them.
#[derive(Clone, Copy)]
pub struct StoredBorder {
    pub time: Option<u32>,
    pub column: u16,
    pub row: u16,
    pub wire: Option<u16>,
}

const _: () = prove!(size_of::<StoredBorder>() == 16);

/// A stop, with its wire's number.
#[derive(Clone, Copy)]
pub struct StoredStop {
    pub time: u32,
    pub column: u16,
    pub row: u16,
    pub wire: u16,
}

/// A module: its box, and its lines by their kinds.
#[derive(Drop)]
pub struct StoredModule {
    pub area: Box2,
    pub cuts: Vec<WireNo>,
    pub gates: Vec<GateNo>,
    pub keeps: Vec<GateNo>,
    pub edges: Vec<StoredBorder>,
    pub halos: Vec<StoredBorder>,
    pub stops: Vec<StoredStop>,
}

fn cell_at(column: u16, row: u16) -> Cell
    ensures { result ≡ cell_at column row }
{
    Cell {
        x: i32::from(column),
        y: i32::from(row),
    }
}

impl StoredBorder {
    /// Returns the cell.
    #[inline(always)]
    pub fn cell(&self) -> Cell
        ensures { result ≡ cell_at self.now.column self.now.row }
    {
        cell_at(self.column, self.row)
    }
}

impl StoredStop {
    /// Returns the cell.
    pub fn cell(&self) -> Cell
        ensures { result ≡ cell_at self.now.column self.now.row }
    {
        cell_at(self.column, self.row)
    }
}

// Adds an edge or halo line. Room is made first: a push without it hands the line back, which costs more.
#[inline(always)]
fn push_border(lines: &mut Vec<StoredBorder>, line: StoredBorder) -> Result<(), AllocError>
    ensures ok { OnOk result (lines.new.items ≡ lines.old.items ++ line ∷ []) }
    ensures err { OnErr result (lines.new.items ≡ lines.old.items) }
{
    lines.reserve(1)?;
    lines.push_reserved(line);
    Ok(())
}

// The edge or halo line of this wire.
#[inline(always)]
fn stored_border(border: &BorderLine, wire: Option<u16>) -> StoredBorder
    requires { IsWithinMaxSize border.now.cell }
    ensures time { result.time ≡ border.now.time }
    ensures cell { cell_at result.column result.row ≡ border.now.cell }
    ensures wire { result.wire ≡ wire }
{
    StoredBorder {
        time: border.time,
        column: border.cell.x as u16,
        row: border.cell.y as u16,
        wire,
    }
}

// The stop of this wire.
fn stored_stop(stop: &StopLine, wire: u16) -> StoredStop
    requires { IsWithinMaxSize stop.now.cell }
    ensures time { result.time ≡ stop.now.time }
    ensures cell { cell_at result.column result.row ≡ stop.now.cell }
    ensures wire { result.wire ≡ wire }
{
    StoredStop {
        time: stop.time,
        column: stop.cell.x as u16,
        row: stop.cell.y as u16,
        wire,
    }
}

impl StoredModule {
    // A module without lines.
    pub(crate) fn new(alloc: Global, area: Box2) -> StoredModule
        ensures lines { (c : Circuit) → module_lines c result
            ≡ record { area = area; lines = [] } }
        ensures wires { (c : Circuit) → HasCircuitWires c result }
    {
        StoredModule {
            area,
            cuts: Vec::new(alloc),
            gates: Vec::new(alloc),
            keeps: Vec::new(alloc),
            edges: Vec::new(alloc),
            halos: Vec::new(alloc),
            stops: Vec::new(alloc),
        }
    }

    /// Returns the box, and how many lines of each kind there are.
    #[tactic(auto, using(crate::proofs::StoredLemmas::counts_stored))]
    pub fn counts(&self) -> Counts
        ensures { (c : Circuit) → result ≡ line_counts_of (module_lines c self.now) }
    {
        Counts {
            area: self.area,
            cuts: self.cuts.len(),
            gates: self.gates.len(),
            edges: self.edges.len(),
            halos: self.halos.len(),
            stops: self.stops.len(),
        }
    }

    // Adds a line behind those of its kind. The lines that it may follow are of no later kind.
    #[inline(always)]
    fn push(&mut self, entry: &CertificateLine, wire: Option<u16>) -> Result<(), AllocError>
        requires { MayBeStored entry.now wire }
        ensures lines { OnOk result ((c : Circuit) → IsWireOfLine c entry.now wire →
            may_follow (module_lines c self.old).lines entry.now ≡ true →
            module_lines c self.new ≡ module_with_line entry.now (module_lines c self.old)) }
        ensures lines_on_error { OnErr result ((c : Circuit) →
            module_lines c self.new ≡ module_lines c self.old) }
        ensures wires { (c : Circuit) → IsWireOfLine c entry.now wire → HasCircuitWires c self.old →
            HasCircuitWires c self.new }
    {
        match (entry, wire) {
            (CertificateLine::Cut(_), Some(wire)) => self.cuts.push(WireNo::of(wire))?,
            (CertificateLine::Use(number), _) => self.gates.push(GateNo::of(*number as u16))?,
            (CertificateLine::Keep(number), _) => self.keeps.push(GateNo::of(*number as u16))?,
            (CertificateLine::Edge(border), _) => {
                push_border(&mut self.edges, stored_border(border, wire))?;
            }
            (CertificateLine::Halo(border), _) => {
                push_border(&mut self.halos, stored_border(border, wire))?;
            }
            (CertificateLine::Stop(stop), Some(wire)) => self.stops.push(stored_stop(stop, wire))?,
            _ => unreachable!(),
        }
        Ok(())
    }
}

/// Adds a line to the last module, behind the lines of its kind.
#[inline(always)]
#[tactic(auto, using(crate::proofs::StoredLemmas::line_added, crate::proofs::StoredLemmas::lines_left, crate::proofs::StoredLemmas::last_is_at))]
pub(crate) fn push_line_in_last_module(
    modules: &mut Vec<StoredModule>,
    entry: &CertificateLine,
    wire: Option<u16>,
) -> Result<(), LineFault>
    requires some_module { 0 < length modules.old.items }
    requires line { MayBeStored entry.now wire }
    ensures lines { OnOk result ((c : Circuit) → IsWireOfLine c entry.now wire →
        IfSome (last_of modules.old.items)
        (λ m. may_follow (module_lines c m).lines entry.now ≡ true) →
        lines_of_modules c modules.new.items
        ≡ lines_of_modules c modules.old.items ++ entry.now ∷ []) }
    ensures lines_on_error { OnErr result ((c : Circuit) →
        lines_of_modules c modules.new.items ≡ lines_of_modules c modules.old.items) }
    ensures wires { (c : Circuit) → IsWireOfLine c entry.now wire →
        All (HasCircuitWires c) modules.old.items → All (HasCircuitWires c) modules.new.items }
    ensures memory { IfErr result (λ e. e ≡ Memory) }
{
    let at = modules.len() - 1;
    match modules[at].push(entry, wire) {
        Ok(()) => Ok(()),
        Err(_) => Err(LineFault::Memory),
    }
}

/// Returns the boxes of modules.
pub fn boxes_of(alloc: Global, modules: &[StoredModule]) -> Result<Vec<Box2>, AllocError>
    ensures { IfOk result (λ boxes. boxes.items ≡ map (λ m. m.area) modules.now) }
{
    let mut boxes = Vec::with_capacity(alloc, modules.len())?;
    for module in modules {
        boxes.push(module.area)?;
    }
    Ok(boxes)
}
