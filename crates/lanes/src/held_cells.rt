//! Cells that are always the same, and runs of blocks between the blocks that they hold.

ghost use Rattle.lanes.specs.Blocks.{AreCellNumbers, block_number_count};
ghost use Rattle.lanes.specs.Held.{HasValueUnderEachAssignment, HasLiveCellOnEachDiagonal, IsEmptyBlock, cell_word_bit};
ghost use Rattle.std.specs.Prelude.{ℕ, ◌≡◌, ◌+◌, ◌-◌, ◌*◌, ◌^◌, ◌<◌, ◌≤◌, length, slice_index, false, true};

use crate::blocks::{BlockPlaces, Partition};
use crate::planes::Planes;
use crate::words::has_word_other_than;
use bbm_rule::marks::{next_marked, next_unmarked};

/// For each cell of a block whether it meets a condition.
#[derive(Clone, Copy)]
pub struct CellConditions {
    /// Whether the cell in the plane `odd` meets it.
    pub odd: bool,
    /// Whether the cell in the plane `right` meets it.
    pub right: bool,
    /// Whether the cell in the plane `down` meets it.
    pub down: bool,
    /// Whether the cell in the plane `even` meets it.
    pub even: bool,
}

// Shows that words have 64 bits each. It does nothing.
#[inline(always)]
fn prove_cells_are_words(cells: &[u64])
    ensures { (k : ℕ) → slice_index cells.now k < 2 ^ 64 }
{
    let _long = cells.len();
}

// Whether a cell meets its condition and is live under each assignment.
#[tactic(auto, using(crate::proofs::HeldLemmas::all_live))]
#[inline(always)]
fn meets_condition_and_is_always_live(is_met: bool, cells: &[u64], at: usize, words: usize) -> bool
    requires { words * at + words ≤ length cells.now }
    ensures { result ≡ true →
        (is_met ≡ true) × HasValueUnderEachAssignment true words
        (cell_word_bit words cells.now at) }
{
    is_met && !has_word_other_than(cells, words * at, 0xFFFF_FFFF_FFFF_FFFF, words)
}

// Whether a cell meets its condition and is dead under each assignment.
#[tactic(auto, using(crate::proofs::HeldLemmas::all_dead))]
#[inline(always)]
fn meets_condition_and_is_always_dead(is_met: bool, cells: &[u64], at: usize, words: usize) -> bool
    requires { words * at + words ≤ length cells.now }
    ensures { result ≡ true →
        (is_met ≡ true) × HasValueUnderEachAssignment false words
        (cell_word_bit words cells.now at) }
{
    is_met && !has_word_other_than(cells, words * at, 0, words)
}

impl Planes {
    ghost use Rattle.lanes.specs.Frozen.{ArePlaneWordsInRange, AreMarkedBlocksStable, KeepsCellsOutsideBlocks};
    ghost use Rattle.lanes.specs.Lanes.{HasWordsStrideRows};
    ghost use Rattle.lanes.specs.Sweeps.{TurnsNumberedBlocksBetween};

    /// Returns whether each diagonal of a block has a cell that meets its condition and is live under each assignment.
    pub(crate) fn has_always_live_diagonals(&self, block: BlockPlaces, met: CellConditions) -> bool
        requires { AreCellNumbers block self.now }
        ensures { result ≡ true → HasLiveCellOnEachDiagonal self.now.words (met.odd ≡ true)
            (met.right ≡ true) (met.down ≡ true) (met.even ≡ true)
            (cell_word_bit self.now.words self.now.odd.items block.odd)
            (cell_word_bit self.now.words self.now.right.items block.right)
            (cell_word_bit self.now.words self.now.down.items block.down)
            (cell_word_bit self.now.words self.now.even.items block.even) }
    {
        let words = self.words;
        (meets_condition_and_is_always_live(met.odd, &self.odd, block.odd, words)
            || meets_condition_and_is_always_live(met.even, &self.even, block.even, words))
            && (meets_condition_and_is_always_live(met.right, &self.right, block.right, words)
                || meets_condition_and_is_always_live(met.down, &self.down, block.down, words))
    }

    /// Returns whether the cells of a block meet their conditions and are dead under each assignment.
    pub(crate) fn is_block_held_and_empty(&self, block: BlockPlaces, met: CellConditions) -> bool
        requires { AreCellNumbers block self.now }
        ensures { result ≡ true → IsEmptyBlock self.now.words (met.odd ≡ true) (met.right ≡ true)
            (met.down ≡ true) (met.even ≡ true)
            (cell_word_bit self.now.words self.now.odd.items block.odd)
            (cell_word_bit self.now.words self.now.right.items block.right)
            (cell_word_bit self.now.words self.now.down.items block.down)
            (cell_word_bit self.now.words self.now.even.items block.even) }
    {
        let words = self.words;
        meets_condition_and_is_always_dead(met.odd, &self.odd, block.odd, words)
            && meets_condition_and_is_always_dead(met.right, &self.right, block.right, words)
            && meets_condition_and_is_always_dead(met.down, &self.down, block.down, words)
            && meets_condition_and_is_always_dead(met.even, &self.even, block.even, words)
    }

    /// Shows that the words of the planes have 64 bits each. It does nothing.
    #[inline(always)]
    pub(crate) fn prove_planes_are_words(&self)
        ensures { ArePlaneWordsInRange self.now }
    {
        prove_cells_are_words(&self.odd);
        prove_cells_are_words(&self.right);
        prove_cells_are_words(&self.down);
        prove_cells_are_words(&self.even);
    }

    /// Turns the blocks of a partition. Those with a mark stay, and are passed over.
    #[tactic(auto, using(crate::proofs::RunLemmas::run_skipped, crate::proofs::RunLemmas::none_turned, crate::proofs::RunLemmas::first_none, bbm_rule::proofs::BitLemmas::by_lt_or_le))]
    #[inline(always)]
    pub(crate) fn step_between_marks(&mut self, partition: Partition, marks: &[u64])
        requires room { self.old.stride * self.old.rows ≤ 64 * length marks.now }
        requires marked_blocks_stable { AreMarkedBlocksStable partition marks.now self.old }
        ensures turned { TurnsNumberedBlocksBetween partition 0
            (block_number_count partition self.old) self.old self.new }
        ensures outside_cells_kept { KeepsCellsOutsideBlocks partition self.old self.new }
        ensures size { HasWordsStrideRows self.old.words self.old.stride self.old.rows self.new }
    {
        let blocks = self.block_number_count(partition);
        let mut at = next_unmarked(marks, 0, blocks);
        while at < blocks {
            let end = next_marked(marks, at, blocks);
            self.turn_block_range(partition, at, end);
            at = next_unmarked(marks, end, blocks);
        }
    }
}
