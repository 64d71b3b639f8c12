//! Layouts.
ghost use Rattle.std.specs.Prelude.{◌≡◌, ◌++◌, [], ◌∷◌, None, OnOk, OnErr};
ghost use Rattle.pattern.specs.Layout.{HaveDistinctCells, parts_of};
ghost use Rattle.pattern.specs.Lines.{AreGoodAfter, cell_fault, largest_limit_code, has_later_kind_before, order_fault, size_fault};

use crate::layout_line::{LayoutHeader, LayoutLine, Port};
use bbm_rule::{Box2, Cell};
use section_text::RefusalCode;
use std::alloc::{AllocError, Global};
use std::marker::Model;

/// A layout: a rectangle of cells, and its contents. Contracts see its size and its lists, as a `Pattern`.
///
/// Width and height are even, 2 to 4096, and the steps are at most 1,048,576. All cells lie inside. Mirrors, balls and
/// input cells share no cell. Mirrors, output cells and waste cells share no cell.
#[derive(Drop)]
pub struct Layout {
    pub(crate) size: LayoutHeader,
    pub(crate) mirrors: Vec<Box2>,
    pub(crate) balls: Vec<Cell>,
    pub(crate) ins: Vec<Port>,
    pub(crate) outs: Vec<Port>,
    pub(crate) wastes: Vec<Cell>,
}

impl Model for Layout {
    ghost use Rattle.pattern.specs.Layout.{Pattern};

    ghost Value = { Pattern };

    ghost use Rattle.pattern.specs.LayoutView.{pattern_of, AreLayoutFields};

    ghost view = { pattern_of };

    ghost invariant = { AreLayoutFields };
}

impl Layout {
    // A layout in which nothing stands.
    pub(crate) fn new(alloc: Global, size: LayoutHeader) -> Layout
        requires { size_fault size ≡ None }
        ensures size { result.size ≡ size }
        ensures parts { parts_of result ≡ [] }
    {
        Layout {
            size,
            mirrors: Vec::new(alloc),
            balls: Vec::new(alloc),
            ins: Vec::new(alloc),
            outs: Vec::new(alloc),
            wastes: Vec::new(alloc),
        }
    }

    // Whether a line of a later kind stands already.
    #[tactic(auto, using(crate::proofs::Orders::late_mirror, crate::proofs::Orders::late_ball, crate::proofs::Orders::late_in, crate::proofs::Orders::late_out, crate::proofs::Orders::late_waste))]
    fn has_line_of_later_kind(&self, part: &LayoutLine) -> bool
        ensures { result ≡ has_later_kind_before (parts_of self.now) part.now }
    {
        let waste = !self.wastes.is_empty();
        let output = !self.outs.is_empty() | waste;
        let input = !self.ins.is_empty() | output;
        let ball = !self.balls.is_empty() | input;
        match part {
            LayoutLine::Mirror(_) => ball,
            LayoutLine::Ball(_) => input,
            LayoutLine::In(_) => output,
            LayoutLine::Out(_) => waste,
            LayoutLine::Waste(_) => false,
        }
    }

    // Code 6 where a line of a later kind stands already.
    #[tactic(auto, unfolding(crate::specs::Lines::order_fault))]
    pub(crate) fn order_code(&self, part: &LayoutLine) -> Option<RefusalCode>
        ensures { result ≡ order_fault (parts_of self.now) part.now }
    {
        if self.has_line_of_later_kind(part) {
            Some(RefusalCode::OutOfOrder)
        } else {
            None
        }
    }

    // Adds a line that is good after the others. Without memory for it nothing changes.
    pub(crate) fn add(&mut self, part: LayoutLine) -> Result<(), AllocError>
        requires order { order_fault (parts_of self.old) part ≡ None }
        requires limit { largest_limit_code part ≡ None }
        requires cells { cell_fault self.old.size (parts_of self.old) part ≡ None }
        ensures size { self.new.size ≡ self.old.size }
        ensures parts { OnOk result (parts_of self.new ≡ parts_of self.old ++ part ∷ []) }
        ensures err { OnErr result (self.new ≡ self.old) }
    {
        match part {
            LayoutLine::Mirror(rectangle) => self.mirrors.push(rectangle)?,
            LayoutLine::Ball(cell) => self.balls.push(cell)?,
            LayoutLine::In(port) => self.ins.push(port)?,
            LayoutLine::Out(port) => self.outs.push(port)?,
            LayoutLine::Waste(cell) => self.wastes.push(cell)?,
        }
        Ok(())
    }

    /// Returns the width and the height, in cells, and the steps: even sides of 2 to 4096, and at most 1,048,576 steps.
    pub fn size(&self) -> LayoutHeader
        ensures size { result ≡ self.now.size }
        ensures limits { size_fault result ≡ None }
        ensures parts_good { AreGoodAfter result [] (parts_of self.now) }
    {
        self.size
    }

    /// Shows what holds of each layout. It does nothing.
    #[inline(always)]
    pub fn prove_valid(&self)
        ensures limits { size_fault self.now.size ≡ None }
        ensures parts_good { AreGoodAfter self.now.size [] (parts_of self.now) }
    {
        let _ = &self.mirrors;
    }

    /// Returns the mirrors, in the order of their lines.
    pub fn mirrors(&self) -> &[Box2]
        ensures { result.now ≡ self.now.mirrors }
    {
        self.mirrors.as_slice()
    }

    /// Returns the cells that are live at the start whatever is on, in the order of their lines.
    pub fn balls(&self) -> &[Cell]
        ensures { result.now ≡ self.now.balls }
    {
        self.balls.as_slice()
    }

    /// Returns the input cells, in the order of their lines. No two are the same cell.
    pub fn ins(&self) -> &[Port]
        ensures same_ports { result.now ≡ self.now.ins }
        ensures cells_distinct { HaveDistinctCells result.now }
    {
        self.ins.as_slice()
    }

    /// Returns the output cells, in the order of their lines. No two are the same cell.
    pub fn outs(&self) -> &[Port]
        ensures same_ports { result.now ≡ self.now.outs }
        ensures cells_distinct { HaveDistinctCells result.now }
    {
        self.outs.as_slice()
    }

    /// Returns the waste cells, which may be live or dead at the end, in the order of their lines.
    pub fn wastes(&self) -> &[Cell]
        ensures { result.now ≡ self.now.wastes }
    {
        self.wastes.as_slice()
    }
}
