//! Blocks that no step changes.
//!
//! A block stays as it is if each of its diagonals has a cell that is always live, as in a mirror, or if its four cells
//! are always dead. A cell is always the same if both its blocks stay. The greatest set of blocks that hold one another
//! in this way never changes, and steps that turn whole planes pass over it.

ghost use Rattle.bbm_rule.specs.Marks.{IsNumberUnmarked};
ghost use Rattle.bbm_rule.specs.Rows.{cell_at};
ghost use Rattle.lanes.specs.Blocks.{IsNotRowEndBlock, block_number_count, marks_of};
ghost use Rattle.lanes.specs.Frozen.{AreBlocksFrozenIfFound, AreMarkedBlocksFrozen, AreMarkedBlocksHeld, HasRoomForAllBlockMarks, IsBlockHeld, IsBlockHeldAndEmpty, IsNumberBeforeMarked, IsOtherBlockOfCellMarked};
ghost use Rattle.std.specs.Prelude.{ℕ, ◌≡◌, ◌+◌, ◌*◌, ◌/◌, ◌<◌, ◌≤◌, length, vec_len, true, false};

use crate::block_marks::BlockMarks;
use crate::blocks::Partition;
use crate::held_cells::CellConditions;
use crate::marks::{fill, is_marked};
use crate::planes::Planes;
use bbm_rule::marks::mark;
use std::alloc::Global;

/// Marks on the blocks of a set that no step changes, if it was looked for and found.
#[derive(Drop)]
pub struct FrozenBlocks {
    // whether the marks are those of a set that no step changes
    pub(crate) is_found: bool,
    // the last blocks of rows of the even partition, which are not turned, have marks too
    pub(crate) marks: BlockMarks,
    // a bit for each block of the odd partition that is empty
    pub(crate) empty: Vec<u64>,
    // about how many blocks of a partition have no mark
    pub(crate) active_block_count: usize,
}

// Up to how many times all blocks are looked at. In a box of 64 by 64 cells with walls 20 times are enough.
const MAX_SWEEPS: u32 = 64;

// Whether the number that is less than `at` by the distance has a mark, if there is one.
#[inline(always)]
fn is_number_before_marked(marks: &[u64], at: usize, distance: usize) -> bool
    requires { at / 64 < length marks.now }
    ensures { result ≡ true → IsNumberBeforeMarked marks.now distance at }
{
    at < distance || is_marked(marks, at - distance)
}

impl FrozenBlocks {
    /// Returns marks of no set: it is not found yet.
    pub fn not_found_yet(alloc: Global) -> FrozenBlocks
        ensures { result.is_found ≡ false }
    {
        FrozenBlocks {
            is_found: false,
            marks: BlockMarks {
                odd: Vec::new(alloc),
                even: Vec::new(alloc),
            },
            empty: Vec::new(alloc),
            active_block_count: 0,
        }
    }

    /// Returns whether the set is found.
    pub fn is_found(&self) -> bool
        ensures { result ≡ self.now.is_found }
    {
        self.is_found
    }

    /// Returns about how many of that many blocks of a partition may change.
    pub fn active_block_count(&self, cells: usize) -> usize
        ensures { result ≤ cells }
    {
        if self.is_found {
            self.active_block_count.min(cells)
        } else {
            cells
        }
    }

    /// Returns about how many of that many columns and rows have cells of ring and halo that may be live.
    ///
    /// Frozen blocks are mostly those of walls, and of what lies beyond them.
    pub fn active_columns_plus_rows(&self, columns_plus_rows: usize) -> usize
        ensures { result ≤ columns_plus_rows }
    {
        if self.is_found {
            columns_plus_rows / 4
        } else {
            columns_plus_rows
        }
    }

    /// Gives the set up, if block u of the odd partition is in it.
    pub fn give_up_if_frozen(&mut self, u: usize)
        requires room { self.old.is_found ≡ true → u / 64 < vec_len self.old.marks.odd }
        ensures { self.new.is_found ≡ true →
            (self.new ≡ self.old) × IsNumberUnmarked self.old.marks.odd.items u }
    {
        if self.is_found && is_marked(&self.marks.odd, u) {
            self.is_found = false;
        }
    }

    /// Looks for the set. If there is no memory for its marks, it is not found.
    #[tactic(auto, using(crate::proofs::FrozenLemmas::found_again))]
    pub fn find(&mut self, planes: &Planes)
        ensures { AreBlocksFrozenIfFound self.new planes.now }
    {
        self.is_found = false;
        let long = planes.cells_per_plane().div_ceil(64);
        if !self.mark_all(long) {
            return;
        }
        'sweeps: for _ in 0..MAX_SWEEPS {
            let is_odd = self.unmark_unheld(planes, Partition::Odd);
            let is_even = self.unmark_unheld(planes, Partition::Even);
            if !is_odd && !is_even {
                break;
            }
        }
        self.mark_empty(planes);
        self.is_found = self.are_marks_correct(planes);
    }

    /// Marks all blocks, in `long` words for each partition, and none as empty. Returns whether there was memory for
    /// it.
    pub(crate) fn mark_all(&mut self, long: usize) -> bool
        ensures found { self.new.is_found ≡ self.old.is_found }
        ensures room { result ≡ true → (vec_len self.new.marks.odd ≡ long)
            × (vec_len self.new.marks.even ≡ long) × (vec_len self.new.empty ≡ long) }
    {
        self.marks.fill(long) && fill(&mut self.empty, long, 0)
    }

    // For each cell of block u of a partition, whether its block of the other partition has a mark, if there is one.
    #[inline(always)]
    fn marked_around(&self, planes: &Planes, partition: Partition, u: usize) -> CellConditions
        requires room { HasRoomForAllBlockMarks self.now planes.now }
        requires place { u < block_number_count partition planes.now }
        ensures odd { result.odd ≡ true →
            IsOtherBlockOfCellMarked partition self.now.marks planes.now (λ b. b.odd) u }
        ensures right { result.right ≡ true →
            IsOtherBlockOfCellMarked partition self.now.marks planes.now (λ b. b.right) u }
        ensures down { result.down ≡ true →
            IsOtherBlockOfCellMarked partition self.now.marks planes.now (λ b. b.down) u }
        ensures even { result.even ≡ true →
            IsOtherBlockOfCellMarked partition self.now.marks planes.now (λ b. b.even) u }
    {
        let stride = planes.stride();
        match partition {
            Partition::Odd => CellConditions {
                odd: is_number_before_marked(&self.marks.even, u, stride + 1),
                right: is_number_before_marked(&self.marks.even, u, stride),
                down: is_number_before_marked(&self.marks.even, u, 1),
                even: is_number_before_marked(&self.marks.even, u, 0),
            },
            Partition::Even => CellConditions {
                odd: is_marked(&self.marks.odd, u + stride + 1),
                right: is_marked(&self.marks.odd, u + stride),
                down: is_marked(&self.marks.odd, u + 1),
                even: is_marked(&self.marks.odd, u),
            },
        }
    }

    // Whether block u of a partition is empty, and stays so if the blocks with marks stay.
    fn is_block_held_and_empty(&self, planes: &Planes, u: usize) -> bool
        requires room { HasRoomForAllBlockMarks self.now planes.now }
        requires place { u < planes.now.stride * planes.now.rows }
        ensures { result ≡ true → IsBlockHeldAndEmpty Partition.Odd self.now.marks planes.now u }
    {
        planes.is_block_held_and_empty(
            planes.block_places(Partition::Odd, u),
            self.marked_around(planes, Partition::Odd, u),
        )
    }

    // Whether block u of a partition stays if the blocks with marks stay.
    #[tactic(auto, using(crate::proofs::HeldLemmas::live_if))]
    #[inline(always)]
    fn is_block_held(&self, planes: &Planes, partition: Partition, u: usize) -> bool
        requires room { HasRoomForAllBlockMarks self.now planes.now }
        requires place { u < block_number_count partition planes.now }
        ensures { result ≡ true → IsBlockHeld partition self.now.marks planes.now u }
    {
        let block = planes.block_places(partition, u);
        let met = self.marked_around(planes, partition, u);
        planes.has_always_live_diagonals(block, met) || planes.is_block_held_and_empty(block, met)
    }

    // Takes the marks off the blocks of a partition that are not held, and returns whether there were some. It counts
    // the blocks without a mark.
    #[inline(always)]
    fn unmark_unheld(&mut self, planes: &Planes, partition: Partition) -> bool
        requires room { HasRoomForAllBlockMarks self.old planes.now }
        ensures room { HasRoomForAllBlockMarks self.new planes.now }
        ensures found { self.new.is_found ≡ self.old.is_found }
    {
        let mut is_some = false;
        let mut active_block_count = 0;
        for u in 0..planes.block_number_count(partition) {
            if !is_marked(self.marks.marks_of(partition), u) {
                active_block_count += 1;
            } else if !planes.is_row_end(partition, u)
                && !self.is_block_held(planes, partition, u)
            {
                self.marks.unmark(partition, u);
                is_some = true;
            }
        }
        self.active_block_count = active_block_count;
        is_some
    }

    // Marks the blocks of the odd partition that are empty and stay.
    fn mark_empty(&mut self, planes: &Planes)
        requires room { HasRoomForAllBlockMarks self.old planes.now }
        ensures room { HasRoomForAllBlockMarks self.new planes.now }
        ensures found { self.new.is_found ≡ self.old.is_found }
    {
        for u in 0..planes.cells_per_plane() {
            if is_marked(&self.marks.odd, u) && self.is_block_held_and_empty(planes, u) {
                mark(&mut self.empty, u);
            }
        }
    }

    // Whether each block with a mark is frozen, and each with a mark as empty is empty.
    fn are_marks_correct(&self, planes: &Planes) -> bool
        requires { HasRoomForAllBlockMarks self.now planes.now }
        ensures { result ≡ true → AreMarkedBlocksFrozen self.now planes.now }
    {
        self.are_marked_blocks_held(planes, Partition::Odd)
            && self.are_marked_blocks_held(planes, Partition::Even)
            && self.are_blocks_empty(planes)
    }

    // Whether block u of a partition stays if those with marks do, where it has a mark, and has one if it is the last
    // of its row.
    #[inline(always)]
    fn is_mark_correct(&self, planes: &Planes, partition: Partition, u: usize) -> bool
        requires room { HasRoomForAllBlockMarks self.now planes.now }
        requires place { u < block_number_count partition planes.now }
        ensures marked_block_held { result ≡ true → IsNotRowEndBlock partition planes.now.stride u →
            cell_at (marks_of partition self.now.marks) u ≡ true →
            IsBlockHeld partition self.now.marks planes.now u }
        ensures row_end_marked { result ≡ true →
            (IsNotRowEndBlock partition planes.now.stride u → ⊥) →
            cell_at (marks_of partition self.now.marks) u ≡ true }
    {
        let is_marked = is_marked(self.marks.marks_of(partition), u);
        if planes.is_row_end(partition, u) {
            return is_marked;
        }
        !is_marked || self.is_block_held(planes, partition, u)
    }

    // Whether each block of a partition with a mark stays if those with marks do, and the last ones of the rows have
    // marks.
    #[inline(always)]
    fn are_marked_blocks_held(&self, planes: &Planes, partition: Partition) -> bool
        requires { HasRoomForAllBlockMarks self.now planes.now }
        ensures { result ≡ true → AreMarkedBlocksHeld partition self.now.marks planes.now }
    {
        for u in 0..planes.block_number_count(partition) {
            if !self.is_mark_correct(planes, partition, u) {
                return false;
            }
        }
        true
    }

    // Whether each block that is marked as empty is empty.
    fn are_blocks_empty(&self, planes: &Planes) -> bool
        requires { HasRoomForAllBlockMarks self.now planes.now }
        ensures { result ≡ true → (u : ℕ) → u < planes.now.stride * planes.now.rows →
            cell_at self.now.empty.items u ≡ true →
            IsBlockHeldAndEmpty Partition.Odd self.now.marks planes.now u }
    {
        for u in 0..planes.cells_per_plane() {
            if is_marked(&self.empty, u) && !self.is_block_held_and_empty(planes, u) {
                return false;
            }
        }
        true
    }
}
