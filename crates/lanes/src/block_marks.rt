//! Marks on the blocks of both partitions.

ghost use Rattle.lanes.specs.Blocks.{block_at, marks_of};
ghost use Rattle.lanes.specs.Calm.{AreBlocksMarkedUnlessIn, AreFirstBlocksMarked, HasRoomForBlockMarks, HasSameBlockMarkRoom, MarksBlocksSharingCell, UnmarksAtMostBlock};
ghost use Rattle.std.specs.Prelude.{ℕ, ◌≡◌, ◌+◌, ◌*◌, ◌^◌, ◌<◌, ◌≤◌, vec_len, IfOk, true};

use crate::blocks::Partition;
use crate::marks::{fill, mark_even_neighbours, mark_odd_neighbours, set_marks_to_not_both};
use crate::words::ChangedDiagonals;
use bbm_rule::marks::{mark, mark_all, unmark};
use std::alloc::{AllocError, Global};

/// A bit for each block of the odd partition, and for each block of the even partition.
#[derive(Drop)]
pub struct BlockMarks {
    pub(crate) odd: Vec<u64>,
    pub(crate) even: Vec<u64>,
}

impl BlockMarks {
    /// Creates marks on no block, in `long` words for each partition.
    pub fn new(alloc: Global, long: usize) -> Result<BlockMarks, AllocError>
        ensures { IfOk result (λ m. HasRoomForBlockMarks (64 * long) m) }
    {
        Ok(BlockMarks {
            odd: vec![in alloc; 0u64; long]?,
            even: vec![in alloc; 0u64; long]?,
        })
    }

    /// Returns the marks on the blocks of a partition.
    #[inline(always)]
    pub fn marks_of(&self, partition: Partition) -> &[u64]
        ensures { result.now ≡ marks_of partition self.now }
    {
        match partition {
            Partition::Odd => &self.odd,
            Partition::Even => &self.even,
        }
    }

    /// Marks all blocks, in `long` words for each partition. Returns whether there was memory for it.
    pub fn fill(&mut self, long: usize) -> bool
        ensures { result ≡ true → (vec_len self.new.odd ≡ long) × (vec_len self.new.even ≡ long) }
    {
        fill(&mut self.odd, long, 0xFFFF_FFFF_FFFF_FFFF)
            && fill(&mut self.even, long, 0xFFFF_FFFF_FFFF_FFFF)
    }

    /// Marks all blocks, in as many words as before.
    pub fn mark_all(&mut self)
        ensures all { (n : ℕ) → HasRoomForBlockMarks n self.old → AreFirstBlocksMarked n self.new }
        ensures room { HasSameBlockMarkRoom self.old self.new }
    {
        mark_all(&mut self.odd);
        mark_all(&mut self.even);
    }

    /// Marks the blocks that have no mark among other marks, as far as both reach, and unmarks the others.
    pub fn set_to_complement_of(&mut self, other: &BlockMarks)
        ensures marked { (n : ℕ) → HasRoomForBlockMarks n self.old →
            HasRoomForBlockMarks n other.now → AreBlocksMarkedUnlessIn n other.now self.new }
        ensures room { HasSameBlockMarkRoom self.old self.new }
    {
        set_marks_to_not_both(&mut self.odd, &other.odd, &other.odd);
        set_marks_to_not_both(&mut self.even, &other.even, &other.even);
    }

    /// Takes the mark off a block.
    #[inline(always)]
    pub fn unmark(&mut self, partition: Partition, u: usize)
        requires { HasRoomForBlockMarks (u + 1) self.old }
        ensures unmarked { UnmarksAtMostBlock partition u self.old self.new }
        ensures room { HasSameBlockMarkRoom self.old self.new }
    {
        match partition {
            Partition::Odd => unmark(&mut self.odd, u),
            Partition::Even => unmark(&mut self.even, u),
        }
    }

    /// Marks block u of a partition, and those of the other partition that share a cell of a changed diagonal with it.
    #[inline]
    pub fn mark_block_and_neighbours(
        &mut self,
        partition: Partition,
        u: usize,
        stride: usize,
        changes: ChangedDiagonals,
    )
        requires room { HasRoomForBlockMarks (u + 1) self.old }
        requires odd { let b = block_at partition stride u in
            (b.odd < 64 * vec_len self.old.odd) × (b.odd < 2 ^ 32) }
        requires stride { stride ≤ 64 }
        ensures marked { MarksBlocksSharingCell changes.main changes.anti stride
            (block_at partition stride u) self.old self.new }
        ensures room { HasSameBlockMarkRoom self.old self.new }
    {
        match partition {
            Partition::Odd => {
                mark(&mut self.odd, u);
                mark_even_neighbours(&mut self.even, u, stride, changes);
            }
            Partition::Even => {
                mark(&mut self.even, u);
                mark_odd_neighbours(&mut self.odd, u, stride, changes);
            }
        }
    }
}
