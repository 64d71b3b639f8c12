//! Which box has each cell of a rectangle.

ghost use Rattle.std.specs.Prelude.{◌≡◌, ◌≤◌, ◌%◌, ◌↔◌, [], List, IfOk, IsTrue};
ghost use Rattle.bbm_rule.specs.Boxes.{in_box, IsEvenBox};
ghost use Rattle.bbm_rule.specs.declared.block.Box2.{Box2};
ghost use Rattle.module_box.specs.Tiling.{IsPartialOwnerTable, AreAllBlocksTaken, IsFreeBox, IsInside, IsOwnerOrNone, MayAddBox, PutsBox, owner_of, rectangle};
ghost use Rattle.lemmas.specs.Bounds.{max_side};

use crate::taking::{fill_box_until_taken, first_free_place, is_box_free};
use bbm_rule::{Box2, Cell};
use std::alloc::{AllocError, Global};
use std::marker::Model;

// A rectangle has at most 4,194,304 blocks, so no box that takes some of them has this number.
const NO_OWNER: usize = 4_194_304;

/// A table of the box that has each cell of a rectangle, whose upper left corner is the cell (0, 0).
///
/// [`owner_table`](crate::owner_table) makes it of all boxes, and [`Owners::new`] without boxes.
// the number of a box for each block of two by two cells, row by row, or `NO_OWNER`
#[derive(Drop)]
pub struct Owners {
    pub(crate) width: u32,
    pub(crate) height: u32,
    pub(crate) numbers: Vec<usize>,
}

impl Model for Owners {
    ghost use Rattle.module_box.specs.Tiling.{OwnersView};

    ghost Value = { OwnersView };

    ghost use Rattle.module_box.specs.OwnersView.{owners_view, AreOwnersFields};

    ghost view = { owners_view };

    ghost invariant = { AreOwnersFields };
}

impl Owners {
    /// Creates a table without boxes.
    #[tactic(auto, using(crate::proofs::PartOwners::no_box))]
    pub fn new(alloc: Global, width: u32, height: u32) -> Result<Owners, AllocError>
        requires width { (2 ≤ width) × (width ≤ max_side) × (width % 2 ≡ 0) }
        requires height { (2 ≤ height) × (height ≤ max_side) × (height % 2 ≡ 0) }
        ensures width { IfOk result (λ owners. owners.width ≡ width) }
        ensures height { IfOk result (λ owners. owners.height ≡ height) }
        ensures no_box { IfOk result (λ owners. IsPartialOwnerTable owners []) }
    {
        let numbers = vec![in alloc; NO_OWNER; height as usize / 2 * (width as usize / 2)]?;
        Ok(Owners {
            width,
            height,
            numbers,
        })
    }

    /// Returns whether no box so far has a cell of this box.
    #[tactic(auto, using(crate::proofs::PartOwners::block_within))]
    pub fn is_box_free(&self, area: Box2) -> bool
        requires even { IsEvenBox area }
        requires inside { IsInside self.now.width self.now.height area }
        ensures { IsTrue result ↔ IsFreeBox self.now area }
    {
        is_box_free(&self.numbers, self.width as usize / 2, area, NO_OWNER)
    }

    /// Adds a box that is free, by its number.
    pub fn put(&mut self, area: Box2, number: usize)
        requires { MayAddBox self.old area }
        ensures { PutsBox area number self.old self.new }
    {
        let columns = self.width as usize / 2;
        let _stop = fill_box_until_taken(&mut self.numbers, columns, area, NO_OWNER, number);
    }

    /// Returns whether the boxes so far have each cell of the rectangle.
    pub fn are_all_blocks_taken(&self) -> bool
        ensures { IsTrue result ↔ AreAllBlocksTaken self.now }
    {
        first_free_place(&self.numbers, NO_OWNER) == self.numbers.len()
    }

    /// Returns the number of the box that has the cell, if one has it so far.
    pub fn owner_if_any(&self, cell: Cell) -> Option<usize>
        ensures { (boxes : List Box2) → IsPartialOwnerTable self.now boxes →
            IsOwnerOrNone boxes cell.x cell.y result }
    {
        let whole = Box2 {
            x: 0,
            y: 0,
            w: self.width,
            h: self.height,
        };
        if !whole.holds(cell) {
            return None;
        }
        let number = self.owner(cell);
        if number == NO_OWNER {
            return None;
        }
        Some(number)
    }

    /// Returns the number of the box that has the cell. The cell is in the rectangle.
    pub fn owner(&self, cell: Cell) -> usize
        requires { IsTrue (in_box (rectangle self.now) cell.x cell.y) }
        ensures { result ≡ owner_of self.now cell.x cell.y }
    {
        let row = cell.y.unsigned_abs() as usize / 2;
        let column = cell.x.unsigned_abs() as usize / 2;
        self.numbers[row * (self.width as usize / 2) + column]
    }
}
