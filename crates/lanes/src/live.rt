//! Marks on the cells of planes that may be live.
//!
//! A cell without a mark is dead, so its words need not be read.

ghost use Rattle.bbm_rule.specs.Bits.{bit};
ghost use Rattle.lanes.specs.Live.{AreFirstCellsMarked, AreCellsMarkedUnlessInBoth, AreBlockCellsUnmarked, AreNumberCellsUnmarked, HasRoomForBlockCells, HasRoomForCellMarks, HasSameCellMarkRoom, HasAtMostOneDiagonalMark, MarksChangedCells, SetsCellMark, SwapsDiagonalMarks};
ghost use Rattle.std.specs.Prelude.{ℕ, ◌≡◌, ◌/◌, ◌<◌, ◌≤◌, ◌%◌, ◌+◌, ◌*◌, length, IfOk, true, false};

use crate::blocks::{BlockPlaces, Diagonal};
use crate::marks::{is_marked, mark_if, set_mark, set_marks_to_not_both, swap_two_marks};
use crate::words::ChangedDiagonals;
use bbm_rule::marks::mark_all;
use std::alloc::{AllocError, Global};

/// For each plane a bit for each of its cells: one without a mark is dead under each assignment.
#[derive(Drop)]
pub struct LiveMarks {
    /// Those of the plane `odd`.
    pub odd: Vec<u64>,
    /// Those of the plane `right`.
    pub right: Vec<u64>,
    /// Those of the plane `down`.
    pub down: Vec<u64>,
    /// Those of the plane `even`.
    pub even: Vec<u64>,
}

impl LiveMarks {
    /// Marks on no cell, in `long` words for each plane.
    pub fn new(alloc: Global, long: usize) -> Result<LiveMarks, AllocError>
        requires { long ≤ 64 }
        ensures size { IfOk result (λ l. HasRoomForCellMarks (64 * long) l) }
        ensures no_cell_marked { IfOk result (λ l. (u : ℕ) → AreNumberCellsUnmarked l u) }
    {
        Ok(LiveMarks {
            odd: vec![in alloc; 0u64; long]?,
            right: vec![in alloc; 0u64; long]?,
            down: vec![in alloc; 0u64; long]?,
            even: vec![in alloc; 0u64; long]?,
        })
    }

    /// Marks all cells.
    pub fn mark_all(&mut self)
        ensures same_room { HasSameCellMarkRoom self.old self.new }
        ensures all { (n : ℕ) → HasRoomForCellMarks n self.old → AreFirstCellsMarked n self.new }
    {
        mark_all(&mut self.odd);
        mark_all(&mut self.right);
        mark_all(&mut self.down);
        mark_all(&mut self.even);
    }

    /// Marks all cells but those whose number has a mark in both lists.
    pub fn set_marks_to_not_both(&mut self, first: &[u64], second: &[u64])
        ensures same_room { HasSameCellMarkRoom self.old self.new }
        ensures marked { (n : ℕ) → HasRoomForCellMarks n self.old → n ≤ 64 * length first.now →
            n ≤ 64 * length second.now →
            AreCellsMarkedUnlessInBoth n first.now second.now self.new }
    {
        set_marks_to_not_both(&mut self.odd, first, second);
        set_marks_to_not_both(&mut self.right, first, second);
        set_marks_to_not_both(&mut self.down, first, second);
        set_marks_to_not_both(&mut self.even, first, second);
    }

    /// Returns a word of marks on the numbers of which a cell has a mark.
    #[inline(always)]
    pub fn word(&self, k: usize) -> u64
        requires { HasRoomForCellMarks (64 * k + 1) self.now }
        ensures { (u : ℕ) → u / 64 ≡ k → bit result (u % 64) ≡ false →
            AreNumberCellsUnmarked self.now u }
    {
        (self.odd[k] | self.right[k]) | (self.down[k] | self.even[k])
    }

    /// Returns whether no cell of a block has a mark.
    #[inline(always)]
    pub fn are_block_cells_unmarked(&self, block: BlockPlaces) -> bool
        requires { HasRoomForBlockCells self.now block }
        ensures { result ≡ true → AreBlockCellsUnmarked self.now block }
    {
        !is_marked(&self.odd, block.odd)
            && !is_marked(&self.right, block.right)
            && !is_marked(&self.down, block.down)
            && !is_marked(&self.even, block.even)
    }

    /// Returns whether no cell of a block has a mark but one of a diagonal.
    #[inline(always)]
    pub fn has_at_most_one_diagonal_mark(&self, diagonal: Diagonal, block: BlockPlaces) -> bool
        requires { HasRoomForBlockCells self.now block }
        ensures { result ≡ true → HasAtMostOneDiagonalMark diagonal self.now block }
    {
        match diagonal {
            Diagonal::Main => {
                !is_marked(&self.right, block.right)
                    && !is_marked(&self.down, block.down)
                    && !(is_marked(&self.odd, block.odd) && is_marked(&self.even, block.even))
            }
            Diagonal::Anti => {
                !is_marked(&self.odd, block.odd)
                    && !is_marked(&self.even, block.even)
                    && !(is_marked(&self.right, block.right) && is_marked(&self.down, block.down))
            }
        }
    }

    /// Marks the cells of a block that are on a diagonal that changes.
    #[inline]
    pub fn mark_changed_cells(&mut self, block: BlockPlaces, changes: ChangedDiagonals)
        requires { HasRoomForBlockCells self.old block }
        ensures cells { MarksChangedCells changes.main changes.anti block self.old self.new }
        ensures same_room { HasSameCellMarkRoom self.old self.new }
    {
        mark_if(&mut self.odd, block.odd, changes.main);
        mark_if(&mut self.right, block.right, changes.anti);
        mark_if(&mut self.down, block.down, changes.anti);
        mark_if(&mut self.even, block.even, changes.main);
    }

    /// Gives a cell a mark, or takes its mark off. Column and row are counted from the halo, and u is the cell's
    /// number.
    #[tactic(auto, using(lemmas::proofs::Common::with_items_is, crate::proofs::PutLemmas::sets_odd_mark, crate::proofs::PutLemmas::sets_down_mark, crate::proofs::PutLemmas::sets_right_mark, crate::proofs::PutLemmas::sets_even_mark))]
    #[inline(always)]
    pub fn set(&mut self, x: usize, y: usize, u: usize, is_marked: bool)
        requires { HasRoomForCellMarks (u + 1) self.old }
        ensures mark_set { SetsCellMark x y u is_marked self.old self.new }
        ensures same_room { HasSameCellMarkRoom self.old self.new }
    {
        if x % 2 == 0 {
            if y % 2 == 0 {
                set_mark(&mut self.odd, u, is_marked);
            } else {
                set_mark(&mut self.down, u, is_marked);
            }
        } else if y % 2 == 0 {
            set_mark(&mut self.right, u, is_marked);
        } else {
            set_mark(&mut self.even, u, is_marked);
        }
    }

    /// Exchanges the marks of the cells of a block's diagonal.
    #[inline]
    pub fn swap(&mut self, diagonal: Diagonal, block: BlockPlaces)
        requires { HasRoomForBlockCells self.old block }
        ensures swapped { SwapsDiagonalMarks diagonal block self.old self.new }
        ensures same_room { HasSameCellMarkRoom self.old self.new }
    {
        match diagonal {
            Diagonal::Main => swap_two_marks(&mut self.odd, &mut self.even, block.odd, block.even),
            Diagonal::Anti => swap_two_marks(
                &mut self.right,
                &mut self.down,
                block.right,
                block.down,
            ),
        }
    }
}
