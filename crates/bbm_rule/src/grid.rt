//! A rectangle of cells as bits, and its step.
//!
//! A step passes over the pairs of rows that are known to stay: those that stayed when they were turned last, and in
//! which no cell has changed since.

ghost use Rattle.std.specs.Prelude.{◌≡◌, ◌≤◌, ◌%◌, ◌<◌, ◌+◌, ◌||◌, IsTrue, IfOk, OnOk, OnErr, true, false, pos, ℕ, ℤ};
ghost use Rattle.bbm_rule.specs.Spans.{in_area};
ghost use Rattle.bbm_rule.specs.Board.{Board, live, is_inside, HasSameSize, IsStep, LeavesBoard, SetsCell};
ghost use Rattle.lemmas.specs.Bounds.{max_side};

use crate::block::Cell;
use crate::cells::{cell_bit, fill_cells, has_live_margin, place_with_margin, put_cell, row_of};
use crate::marks::{mark, next_marked, next_unmarked};
use crate::rows::{turn_all_aligned, turn_all_shifted};
use std::alloc::{AllocError, Global};
use std::marker::Model;

/// The error of [`Grid::step`]: a cell outside the grid would become live.
#[derive(Clone, Copy, Debug, PartialEq, Eq)]
pub struct Left;

/// A rectangle of cells of the plane, each live or dead.
///
/// Its upper left corner is the cell (0, 0), and the cells outside it are dead. Width and height are even, from 2 to
/// 4096.
// A row is `stride` words of bits, and a margin of one cell is kept around the rectangle: the cell (x, y) is bit x + 1
// of row y + 1, counted from the first bit of the row. So no block of either partition is cut by the border.
#[derive(Drop)]
pub struct Grid {
    width: usize,
    height: usize,
    // the words of a row: there is room for a margin on both sides
    stride: usize,
    words: Vec<u64>,
    // a bit for each pair of rows whose blocks a turn of the even, and of the odd partition may change
    even_marks: Vec<u64>,
    odd_marks: Vec<u64>,
}

impl Model for Grid {
    ghost use Rattle.bbm_rule.specs.Board.{Board};

    ghost Value = { Board };

    ghost use Rattle.bbm_rule.specs.GridView.{AreGridFields, board_of};

    ghost view = { board_of };

    ghost invariant = { AreGridFields };
}

impl Grid {
    /// Creates a grid without a live cell.
    ///
    /// No other function of a grid takes memory.
    #[tactic(auto, using(crate::proofs::BandLemmas::none_calm, crate::proofs::GridLemmas::zeroes_dead, crate::proofs::GridLemmas::all_dead))]
    pub fn new(alloc: Global, width: u32, height: u32) -> Result<Grid, AllocError>
        requires width { (2 ≤ width) × (width ≤ max_side) × (width % 2 ≡ 0) }
        requires height { (2 ≤ height) × (height ≤ max_side) × (height % 2 ≡ 0) }
        ensures size { IfOk result (λ g. (g.width ≡ width) × (g.height ≡ height)) }
        ensures all_cells_dead { IfOk result (λ g. (x y : ℤ) → live g x y ≡ false) }
    {
        let width = width as usize;
        let height = height as usize;
        let stride = width / 64 + 1;
        let words = vec![in alloc; 0u64; stride * (height + 2)]?;
        let even_marks = vec![in alloc; 0u64; height / 128 + 1]?;
        let odd_marks = vec![in alloc; 0u64; height / 128 + 1]?;
        Ok(Grid {
            width,
            height,
            stride,
            words,
            even_marks,
            odd_marks,
        })
    }

    /// Returns whether `cell` is inside the grid.
    ///
    /// Columns run from 0 to below the width, and rows from 0 to below the height.
    pub fn holds(&self, cell: Cell) -> bool
        ensures { result ≡ is_inside self.now cell.x cell.y }
    {
        0 <= cell.x
            && 0 <= cell.y
            && (cell.x as usize) < self.width
            && (cell.y as usize) < self.height
    }

    /// Returns whether `cell` is live. It must be inside the grid.
    #[tactic(auto, using(crate::proofs::GridLemmas::cell_read))]
    pub fn get(&self, cell: Cell) -> bool
        requires { IsTrue (is_inside self.now cell.x cell.y) }
        ensures { result ≡ live self.now cell.x cell.y }
    {
        cell_bit(&self.words, place_with_margin(self.stride, cell))
    }

    /// Returns the first column from `from` on whose cell in row `y` is live, or `end` if all cells before `end` are
    /// dead. Columns are counted from 0; `end` is at most the width.
    pub fn next_live_column(&self, y: u32, from: u32, end: u32) -> u32
        requires row { y < self.now.height }
        requires columns { (from ≤ end) × (end ≤ self.now.width) }
        ensures range { (from ≤ result) × (result ≤ end) }
        ensures all_dead { (x : ℕ) → from ≤ x → x < result → live self.now (pos x) (pos y) ≡ false }
        ensures found_live { result < end → live self.now (pos result) (pos y) ≡ true }
    {
        let first = 64 * self.stride * (y as usize + 1) + 1;
        let place = next_marked(&self.words, first + from as usize, first + end as usize);
        (place - first) as u32
    }

    /// Returns the first column from `from` on whose cell in row `y` is dead, or `end` if all cells before `end` are
    /// live. Columns are counted from 0; `end` is at most the width.
    pub fn next_dead_column(&self, y: u32, from: u32, end: u32) -> u32
        requires row { y < self.now.height }
        requires columns { (from ≤ end) × (end ≤ self.now.width) }
        ensures range { (from ≤ result) × (result ≤ end) }
        ensures all_live { (x : ℕ) → from ≤ x → x < result → live self.now (pos x) (pos y) ≡ true }
        ensures found_dead { result < end → live self.now (pos result) (pos y) ≡ false }
    {
        let first = 64 * self.stride * (y as usize + 1) + 1;
        let place = next_unmarked(&self.words, first + from as usize, first + end as usize);
        (place - first) as u32
    }

    /// Makes `cell` live if `value` is true, and dead if not. It must be inside the grid.
    pub fn set(&mut self, cell: Cell, value: bool)
        requires { IsTrue (is_inside self.old cell.x cell.y) }
        ensures cells { SetsCell cell.x cell.y value self.old self.new }
        ensures size { HasSameSize self.old self.new }
    {
        let at = place_with_margin(self.stride, cell);
        put_cell(&mut self.words, at, value);
        let row = row_of(cell);
        mark(&mut self.even_marks, row / 2);
        mark(&mut self.odd_marks, (row + 1) / 2);
    }

    /// Makes `width` cells of row `y` live, from column `x` on. They are inside the grid.
    pub fn fill_row(&mut self, x: u32, y: u32, width: u32)
        requires columns { x + width ≤ self.old.width }
        requires row { y < self.old.height }
        ensures cells { (u v : ℤ) →
            live self.new u v ≡ (live self.old u v || in_area x y width 1 u v) }
        ensures size { HasSameSize self.old self.new }
    {
        let first = 64 * self.stride * (y as usize + 1) + (x as usize + 1);
        fill_cells(&mut self.words, first, width as usize);
        mark(&mut self.even_marks, y as usize / 2);
        mark(&mut self.odd_marks, (y as usize + 1) / 2);
    }

    /// Makes the step at time `t`: every block of that time's partition turns, also those that lie across the border.
    ///
    /// # Errors
    ///
    /// [`Left`] if a cell outside the grid would become live. The grid is then unchanged. No block lies across the
    /// border at an even time, so a step at an even time makes no error.
    #[tactic(auto, using(crate::proofs::GridLemmas::aligned_room, crate::proofs::GridLemmas::shifted_room))]
    pub fn step(&mut self, t: u32) -> Result<(), Left>
        ensures stepped { OnOk result (IsStep t self.old self.new) }
        ensures cell_leaves_on_error { OnErr result (LeavesBoard t self.old) }
        ensures unchanged_on_error { OnErr result (self.new ≡ self.old) }
        ensures size { HasSameSize self.old self.new }
    {
        if t % 2 == 0 {
            turn_all_shifted(
                &mut self.words,
                &mut self.even_marks,
                &mut self.odd_marks,
                self.stride,
                self.height / 2,
            );
            return Ok(());
        }
        let pairs = self.height / 2 + 1;
        turn_all_aligned(
            &mut self.words,
            &mut self.odd_marks,
            &mut self.even_marks,
            self.stride,
            pairs,
        );
        if has_live_margin(
            &self.words,
            &self.odd_marks,
            self.stride,
            self.width,
            self.height,
        ) {
            // A turn undoes itself.
            turn_all_aligned(
                &mut self.words,
                &mut self.odd_marks,
                &mut self.even_marks,
                self.stride,
                pairs,
            );
            return Err(Left);
        }
        Ok(())
    }
}
