//! A layout to which lines are added.
ghost use Rattle.std.specs.Prelude.{◌≡◌, ◌++◌, [], ◌∷◌, None, OnOk, OnErr, IfOk, IfErr};
ghost use Rattle.section_text.specs.Adding.{HasRefusalCode};
ghost use Rattle.pattern.specs.Layout.{parts_of};
ghost use Rattle.pattern.specs.Lines.{cell_fault, largest_limit_code, order_fault, size_fault};

use crate::layout::Layout;
use crate::layout_line::{LayoutHeader, LayoutLine};
use crate::taken_cells::{is_any_cell_taken, take_cells_if};
use bbm_rule::Grid;
use section_text::{LineFault, RefusalCode};
use std::alloc::{AllocError, Global};
use std::marker::Model;

/// The layout of the lines so far, with the cells that are taken at the start and at the end.
#[derive(Drop)]
pub(crate) struct Draft {
    layout: Layout,
    cells_taken_at_start: Grid,
    cells_taken_at_end: Grid,
}

impl Model for Draft {
    ghost use Rattle.pattern.specs.Layout.{Pattern};

    ghost Value = { Pattern };

    ghost use Rattle.pattern.specs.DraftView.{pattern_of, AreDraftFields};

    ghost view = { pattern_of };

    ghost invariant = { AreDraftFields };
}

impl Draft {
    /// Creates a draft without lines after the first.
    #[tactic(auto, using(crate::proofs::TakenLemmas::is_sized), unfolding(crate::proofs::Imports::cells_taken_at_end, crate::proofs::Imports::cells_taken_at_start))]
    pub(crate) fn new(alloc: Global, size: LayoutHeader) -> Result<Draft, AllocError>
        requires { size_fault size ≡ None }
        ensures size { IfOk result (λ draft. draft.size ≡ size) }
        ensures parts { IfOk result (λ draft. parts_of draft ≡ []) }
    {
        let cells_taken_at_start = Grid::new(alloc, size.w, size.h)?;
        let cells_taken_at_end = Grid::new(alloc, size.w, size.h)?;
        Ok(Draft {
            layout: Layout::new(alloc, size),
            cells_taken_at_start,
            cells_taken_at_end,
        })
    }

    /// Returns the layout of the lines.
    pub(crate) fn into_layout(self) -> Layout
        ensures { result ≡ self }
    {
        let Draft {
            layout,
            cells_taken_at_start: _,
            cells_taken_at_end: _,
        } = self;
        layout
    }

    /// Returns code 6 if there is a line of a later kind already.
    pub(crate) fn order_code(&self, part: &LayoutLine) -> Option<RefusalCode>
        ensures { result ≡ order_fault (parts_of self.now) part.now }
    {
        self.layout.order_code(part)
    }

    // The code of a line with a cell that is outside or taken.
    fn cell_code(&self, part: &LayoutLine) -> Option<RefusalCode>
        ensures { result ≡ cell_fault self.now.size (parts_of self.now) part.now }
    {
        if !part.is_inside(self.layout.size()) {
            return Some(RefusalCode::TakenCell);
        }
        if is_any_cell_taken(&self.cells_taken_at_start, &self.cells_taken_at_end, part) {
            return Some(RefusalCode::TakenCell);
        }
        None
    }

    /// Adds a line that is in its place and keeps the limits. A fault changes nothing.
    pub(crate) fn add(&mut self, part: LayoutLine) -> Result<(), LineFault>
        requires order { order_fault (parts_of self.old) part ≡ None }
        requires limit { largest_limit_code part ≡ None }
        ensures cells_free { OnOk result (cell_fault self.old.size (parts_of self.old) part
            ≡ None) }
        ensures size { self.new.size ≡ self.old.size }
        ensures parts { OnOk result (parts_of self.new ≡ parts_of self.old ++ part ∷ []) }
        ensures err { OnErr result (self.new ≡ self.old) }
        ensures fault { IfErr result (λ e. HasRefusalCode e
            (cell_fault self.old.size (parts_of self.old) part)) }
    {
        self.layout.prove_valid();
        if let Some(code) = self.cell_code(&part) {
            return Err(LineFault::Code(code));
        }
        let Ok(()) = self.layout.add(part) else {
            return Err(LineFault::Memory);
        };
        take_cells_if(
            part.takes_cells_at_start(),
            &mut self.cells_taken_at_start,
            &part,
        );
        take_cells_if(
            part.takes_cells_at_end(),
            &mut self.cells_taken_at_end,
            &part,
        );
        Ok(())
    }
}
