//! The turns of single blocks, by their marks.

ghost use Rattle.lanes.specs.Blocks.{AreCellNumbers, IsNotRowEndBlock, IsNumberOfBlock, block_at, block_number_count};
ghost use Rattle.lanes.specs.Settled.{AreSettledBlocksUnchanged};
ghost use Rattle.std.specs.Prelude.{◌≡◌, ◌+◌, ◌*◌, ◌<◌, ◌≤◌, true, false};

use crate::blocks::{BlockPlaces, Diagonal, Partition};
use crate::marked_planes::MarkedPlanes;
use crate::marks::is_marked;
use crate::words::ChangedDiagonals;

// For how many odd times the words of all blocks are read, once the crowded blocks are too many.
const WORD_READ_TIMES: u32 = 31;

// How many more blocks may have two live cells than one or none, before the words of all blocks are read.
const MAX_CROWDED_BLOCKS: u32 = 64;

impl MarkedPlanes {
    ghost use Rattle.lanes.specs.Live.{AreBlockCellsUnmarked, HasAtMostOneDiagonalMark};
    ghost use Rattle.lanes.specs.Turns.{TurnsBlock};
    ghost use Rattle.lanes.specs.Lanes.{HasWordsStrideRows};

    // Counts a block that may have two live cells: three times if it was turned, since `settle_crowded_blocks` takes
    // each block that a step turned off twice at the end of the step.
    fn count_crowded_block(&mut self, is_turned: bool)
        ensures planes { self.new.planes ≡ self.old.planes }
        ensures settled { AreSettledBlocksUnchanged self.old self.new }
    {
        self.crowded_blocks = self.crowded_blocks.saturating_add(1);
        if is_turned {
            self.crowded_blocks = self.crowded_blocks.saturating_add(2);
        }
    }

    /// Counts the blocks that a step turned: each with one live cell, and the dead one that this cell left in the step
    /// before. If most blocks have two live cells, it costs less to read their words at once.
    pub(crate) fn settle_crowded_blocks(&mut self, turned: usize)
        requires { turned ≤ 4096 }
        ensures planes { self.new.planes ≡ self.old.planes }
        ensures settled { AreSettledBlocksUnchanged self.old self.new }
    {
        self.crowded_blocks = self.crowded_blocks.saturating_sub(2 * turned as u32);
        if self.crowded_blocks > MAX_CROWDED_BLOCKS {
            self.crowded_blocks = 0;
            self.word_read_times = WORD_READ_TIMES;
            self.is_exact = false;
        }
    }

    // Turns a block of which no cell is live but one of a diagonal: they change places.
    #[tactic(auto, using(crate::proofs::LiveLemmas::lone_turned, crate::proofs::CalmLemmas::cells_of))]
    #[inline(always)]
    fn swap_lone(&mut self, partition: Partition, u: usize, diagonal: Diagonal)
        requires block { IsNumberOfBlock partition self.old.planes u }
        requires diagonal_lone { HasAtMostOneDiagonalMark diagonal self.old.live_marks
            (block_at partition self.old.planes.stride u) }
        ensures turned { TurnsBlock (block_at partition self.old.planes.stride u) self.old.planes
            self.new.planes }
        ensures size { HasWordsStrideRows self.old.planes.words self.old.planes.stride
            self.old.planes.rows self.new.planes }
        ensures settled_if_even { partition ≡ Partition.Even →
            AreSettledBlocksUnchanged self.old self.new }
    {
        let stride = self.planes.stride();
        let block = self.planes.block_places(partition, u);
        self.block_marks
            .mark_block_and_neighbours(partition, u, stride, ChangedDiagonals::of(diagonal));
        self.live_marks.swap(diagonal, block);
        self.planes.swap(diagonal, block);
    }

    // Turns a block, unless it stays, and tells whether it turned it.
    #[tactic(auto, using(crate::proofs::FrozenLemmas::still_frozen, crate::proofs::FrozenLemmas::one_may_turn, crate::proofs::TurnLemmas::stable_turned))]
    #[inline(always)]
    fn turn_block_unless_stable(&mut self, partition: Partition, u: usize) -> bool
        requires { IsNumberOfBlock partition self.old.planes u }
        ensures turned { TurnsBlock (block_at partition self.old.planes.stride u) self.old.planes
            self.new.planes }
        ensures size { HasWordsStrideRows self.old.planes.words self.old.planes.stride
            self.old.planes.rows self.new.planes }
        ensures unchanged_if_false { result ≡ false → self.new.planes ≡ self.old.planes }
        ensures settled_if_even { partition ≡ Partition.Even →
            AreSettledBlocksUnchanged self.old self.new }
    {
        let block = self.planes.block_places(partition, u);
        let changes = self.planes.block_changes(block);
        if changes.is_none() {
            self.block_marks.unmark(partition, u);
            return false;
        }
        let stride = self.planes.stride();
        self.block_marks
            .mark_block_and_neighbours(partition, u, stride, changes);
        self.live_marks.mark_changed_cells(block, changes);
        self.planes.turn_block(block);
        true
    }

    // Whether each cell of a block is known to be dead.
    #[inline(always)]
    fn is_block_known_dead(&self, block: BlockPlaces) -> bool
        requires { AreCellNumbers block self.now.planes }
        ensures { result ≡ true → AreBlockCellsUnmarked self.now.live_marks block }
    {
        self.live_marks.are_block_cells_unmarked(block)
    }

    // Takes the mark off block n of the even partition, if its cells are known to be dead, and tells whether they are.
    #[tactic(auto, using(crate::proofs::CalmLemmas::still_stable_unmarked, crate::proofs::LiveLemmas::dead_block, crate::proofs::CalmLemmas::cells_of))]
    #[inline]
    fn unmark_even_block_if_dead(&mut self, n: usize) -> bool
        requires { n < block_number_count Partition.Even self.old.planes }
        ensures planes { self.new.planes ≡ self.old.planes }
        ensures marks_unchanged { self.new.live_marks ≡ self.old.live_marks }
        ensures settled { AreSettledBlocksUnchanged self.old self.new }
        ensures turned { result ≡ true →
            TurnsBlock (block_at Partition.Even self.old.planes.stride n) self.old.planes
            self.new.planes }
    {
        let is_block_known_dead = self.is_block_known_dead(
            self.planes.block_places(Partition::Even, n),
        );
        if is_block_known_dead {
            self.block_marks.unmark(Partition::Even, n);
        }
        is_block_known_dead
    }

    // Takes the mark off the block of the even partition that a cell of a diagonal of block u of the odd partition has
    // left, if nothing else is in it. So the next step does not come to it.
    #[inline(always)]
    fn unmark_vacated_block(&mut self, u: usize, diagonal: Diagonal)
        requires { u < self.old.planes.stride * self.old.planes.rows }
        ensures { self.new.planes ≡ self.old.planes }
    {
        let stride = self.planes.stride();
        let cells = self.planes.cells_per_plane();
        match diagonal {
            Diagonal::Main if is_marked(&self.live_marks.odd, u) => {
                if u + stride + 1 < cells {
                    self.unmark_even_block_if_dead(u);
                }
            }
            Diagonal::Main => {
                if u > stride {
                    self.unmark_even_block_if_dead(u - stride - 1);
                }
            }
            Diagonal::Anti if is_marked(&self.live_marks.right, u) => {
                if u > 0 && u + stride < cells {
                    self.unmark_even_block_if_dead(u - 1);
                }
            }
            Diagonal::Anti => {
                if u >= stride && u + 1 < cells {
                    self.unmark_even_block_if_dead(u - stride);
                }
            }
        }
    }

    // Turns a block of which no cell is live but one of a diagonal, unless all are dead and it is known to stay. Tells
    // whether it turned it.
    #[inline(always)]
    fn turn_lone(&mut self, partition: Partition, u: usize, diagonal: Diagonal) -> bool
        requires block { IsNumberOfBlock partition self.old.planes u }
        requires diagonal_lone { HasAtMostOneDiagonalMark diagonal self.old.live_marks
            (block_at partition self.old.planes.stride u) }
        ensures turned { TurnsBlock (block_at partition self.old.planes.stride u) self.old.planes
            self.new.planes }
        ensures size { HasWordsStrideRows self.old.planes.words self.old.planes.stride
            self.old.planes.rows self.new.planes }
        ensures unchanged_if_false { result ≡ false → self.new.planes ≡ self.old.planes }
        ensures settled_if_even { partition ≡ Partition.Even →
            AreSettledBlocksUnchanged self.old self.new }
    {
        if let (Partition::Even, Diagonal::Main) = (partition, diagonal) {
            if self.unmark_even_block_if_dead(u) {
                return false;
            }
        }
        self.swap_lone(partition, u, diagonal);
        if let Partition::Odd = partition {
            self.unmark_vacated_block(u, diagonal);
        }
        true
    }

    // Takes the marks off the dead cells of block u after its words were read, and counts it.
    #[inline(always)]
    fn unmark_and_count(&mut self, partition: Partition, u: usize, is_turned: bool)
        requires { u < block_number_count partition self.old.planes }
        ensures planes { self.new.planes ≡ self.old.planes }
        ensures settled { AreSettledBlocksUnchanged self.old self.new }
    {
        if self.word_read_times == 0 {
            self.unmark_dead_cells(partition, u);
            self.count_crowded_block(is_turned);
            return;
        }
        if let Partition::Odd = partition {
            if !is_turned && !self.planes.is_live_in_first_word(u) {
                self.unmark_dead_cells(partition, u);
            }
        }
    }

    // Turns a block, unless it stays, and tells whether it turned it. Its words are read only if two of its cells may
    // be live.
    #[inline(always)]
    fn turn_block_in_box(&mut self, partition: Partition, u: usize) -> bool
        requires { IsNumberOfBlock partition self.old.planes u }
        ensures turned { TurnsBlock (block_at partition self.old.planes.stride u) self.old.planes
            self.new.planes }
        ensures size { HasWordsStrideRows self.old.planes.words self.old.planes.stride
            self.old.planes.rows self.new.planes }
        ensures unchanged_if_false { result ≡ false → self.new.planes ≡ self.old.planes }
        ensures settled_if_even { partition ≡ Partition.Even →
            AreSettledBlocksUnchanged self.old self.new }
    {
        let block = self.planes.block_places(partition, u);
        if self.is_exact
            && self
                .live_marks
                .has_at_most_one_diagonal_mark(Diagonal::Main, block)
        {
            return self.turn_lone(partition, u, Diagonal::Main);
        }
        if self.is_exact
            && self
                .live_marks
                .has_at_most_one_diagonal_mark(Diagonal::Anti, block)
        {
            return self.turn_lone(partition, u, Diagonal::Anti);
        }
        let is_turned = self.turn_block_unless_stable(partition, u);
        self.unmark_and_count(partition, u, is_turned);
        is_turned
    }

    // Whether a block of the even partition is the last of its row. A division takes long, so most blocks are known to
    // be others by their lack of a mark.
    #[inline(always)]
    fn is_row_end(&self, partition: Partition, u: usize) -> bool
        requires { u < self.now.planes.stride * self.now.planes.rows }
        ensures is_row_end { result ≡ true → IsNotRowEndBlock partition self.now.planes.stride u →
            ⊥ }
        ensures not_row_end { result ≡ false → IsNotRowEndBlock partition self.now.planes.stride u }
    {
        is_marked(&self.border_marks, u) && self.planes.is_row_end(partition, u)
    }

    /// Turns block u of a partition, unless it stays, and returns whether it turned it.
    ///
    /// The last block of a row of the even partition is not in the box and stays: its cells are in the halo, at the
    /// right end of two rows and at the left end of the next two.
    #[inline(always)]
    pub(crate) fn turn_block(&mut self, partition: Partition, u: usize) -> bool
        requires { u < block_number_count partition self.old.planes }
        ensures turned { IsNotRowEndBlock partition self.old.planes.stride u →
            TurnsBlock (block_at partition self.old.planes.stride u) self.old.planes
            self.new.planes }
        ensures size { HasWordsStrideRows self.old.planes.words self.old.planes.stride
            self.old.planes.rows self.new.planes }
        ensures row_end_unchanged { (IsNotRowEndBlock partition self.old.planes.stride u → ⊥) →
            self.new.planes ≡ self.old.planes }
        ensures unchanged_if_false { result ≡ false → self.new.planes ≡ self.old.planes }
        ensures settled_if_even { partition ≡ Partition.Even →
            AreSettledBlocksUnchanged self.old self.new }
    {
        if self.is_row_end(partition, u) {
            self.block_marks.unmark(partition, u);
            return false;
        }
        self.turn_block_in_box(partition, u)
    }
}
