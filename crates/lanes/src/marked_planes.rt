//! Planes whose steps pass over the blocks that are known to stay.
//!
//! A block stays if under no assignment exactly one of its diagonals has a live cell: an empty one, one in a mirror,
//! one with two balls side by side. A block that was seen to stay does so until one of its cells changes, so a step
//! looks only at the blocks near cells that changed. It turns word by word only blocks in which two cells may be live.
//! After a step in which many blocks change, some steps turn whole planes.

ghost use Rattle.bbm_rule.specs.Marks.{IsNumberUnmarked};
ghost use Rattle.lanes.specs.Borders.{AreBorderNumbersMarked, AreBorderNumbersMarked-prop, AreNumbersSkippableBetween};
ghost use Rattle.lanes.specs.Calm.{AreUnmarkedBlocksStable, AreUnmarkedBlocksStable-prop, HasRoomForBlockMarks};
ghost use Rattle.lanes.specs.Blocks.{block_number_count};
ghost use Rattle.lanes.specs.Frozen.{AreBlocksFrozenIfFound};
ghost use Rattle.lanes.specs.Live.{AreAllUnmarkedCellsDead, AreAllUnmarkedCellsDead-prop, HasRoomForCellMarks};
ghost use Rattle.std.specs.Prelude.{ℕ, ◌≡◌, ◌+◌, ◌*◌, ◌/◌, ◌%◌, ◌<◌, ◌≤◌, ◌⊎◌, length, vec_len, IfOk, true, false};

use crate::block_marks::BlockMarks;
use crate::blocks::Partition;
use crate::frozen::FrozenBlocks;
use crate::live::LiveMarks;
use crate::marked_steps::DENSE_STEPS_BEFORE_SEARCH;
use crate::marks::{
    is_marked, mark_ring_and_halo_numbers, marked_in_first_and_other, marked_in_word_and_any,
};
use crate::phases::WholePlaneSteps;
use crate::planes::{Planes, WordSource};
use crate::words::ChangedDiagonals;
use std::alloc::{AllocError, Global};

/// The planes of a run, with marks on the blocks that a turn may change.
#[derive(Drop)]
pub struct MarkedPlanes {
    pub(crate) planes: Planes,
    pub(crate) block_marks: BlockMarks,
    // a bit for each cell: those without a mark are dead
    pub(crate) live_marks: LiveMarks,
    // whether each cell with a mark is known to be live, so that one that is alone in its block may move unread
    pub(crate) is_exact: bool,
    // For how many more odd times the words of all blocks that a step looks at are read. That costs less than single
    // marks where most of them have two live cells.
    pub(crate) word_read_times: u32,
    // how many more of the blocks up to now had two live cells than had one or none
    pub(crate) crowded_blocks: u32,
    // and for the numbers of cells of ring and halo
    pub(crate) border_marks: Vec<u64>,
    // Whether each block of the odd partition without a mark is as it was before the last odd step. It is, if there was
    // an odd step and no even step after it turned whole planes.
    pub(crate) is_settled: bool,
    // how many of the next steps turn whole planes, without the blocks that no step changes
    pub(crate) whole_plane_steps: WholePlaneSteps,
    pub(crate) frozen: FrozenBlocks,
    // After this many more steps in which many blocks change, the blocks that no step changes are looked for.
    pub(crate) steps_until_search: u32,
    // how often they may still be looked for
    pub(crate) searches_left: u32,
    ghost block_room: { HasRoomForBlockMarks (planes.stride * planes.rows) block_marks },
    ghost live_room: { HasRoomForCellMarks (planes.stride * planes.rows) live_marks },
    ghost border_room: { planes.stride * planes.rows ≤ 64 * vec_len border_marks },
    ghost calm: { AreUnmarkedBlocksStable block_marks planes } by { AreUnmarkedBlocksStable-prop block_marks planes },
    ghost all_dead: { AreAllUnmarkedCellsDead live_marks planes } by { AreAllUnmarkedCellsDead-prop live_marks planes },
    ghost freezes: { AreBlocksFrozenIfFound frozen planes },
    ghost all_inner: { AreBorderNumbersMarked planes.stride planes.rows border_marks.items } by { AreBorderNumbersMarked-prop planes.stride planes.rows border_marks.items },
}

// How often the blocks that no step changes are looked for.
const MAX_FROZEN_SEARCHES: u32 = 4;

impl MarkedPlanes {
    ghost use Rattle.bbm_rule.specs.Bits.{bit};
    ghost use Rattle.lanes.specs.Settled.{AreSettledBlocksUnchanged, IsBlockSettled};
    ghost use Rattle.lanes.specs.Calm.{AreAllCellsDead, AreNumberedCellsDead};
    ghost use Rattle.lanes.specs.Lanes.{HasWordsStrideRows, lane};

    /// Creates planes of dead cells for a box of `width` by `height` cells, with `words` words for each cell. No block
    /// has a mark, since each stays.
    #[tactic(auto, using(crate::proofs::LiveLemmas::dead_blocks))]
    pub fn new(
        alloc: Global,
        width: usize,
        height: usize,
        words: usize,
    ) -> Result<MarkedPlanes, AllocError>
        requires width { (2 ≤ width) × (width ≤ 64) }
        requires height { (2 ≤ height) × (height ≤ 64) }
        requires words { (0 < words) × (words ≤ 64) }
        ensures size { IfOk result (λ m. HasWordsStrideRows words (width / 2 + 1)
            (height / 2 + 1) m.planes) }
        ensures all_cells_dead { IfOk result (λ m. AreAllCellsDead m.planes) }
        ensures none_settled { IfOk result (λ m. (u : ℕ) → IsBlockSettled m u → ⊥) }
    {
        let planes = Planes::new(alloc, width, height, words)?;
        let long = planes.cells_per_plane().div_ceil(64);
        let block_marks = BlockMarks::new(alloc, long)?;
        let live_marks = LiveMarks::new(alloc, long)?;
        let mut border_marks = vec![in alloc; 0u64; long]?;
        mark_ring_and_halo_numbers(&mut border_marks, planes.stride(), planes.rows());
        Ok(MarkedPlanes {
            planes,
            block_marks,
            live_marks,
            is_exact: true,
            word_read_times: 0,
            crowded_blocks: 0,
            border_marks,
            is_settled: false,
            whole_plane_steps: WholePlaneSteps::NONE,
            frozen: FrozenBlocks::not_found_yet(alloc),
            steps_until_search: DENSE_STEPS_BEFORE_SEARCH,
            searches_left: MAX_FROZEN_SEARCHES,
        })
    }

    /// Returns the planes.
    pub fn planes(&self) -> &Planes
        ensures { result.now ≡ self.now.planes }
    {
        &self.planes
    }

    /// Counts an odd time. After some of them the words of all blocks are no longer read.
    pub fn count_down_word_reads(&mut self)
        ensures planes { self.new.planes ≡ self.old.planes }
        ensures settled { AreSettledBlocksUnchanged self.old self.new }
    {
        if self.word_read_times == 0 {
            return;
        }
        self.word_read_times -= 1;
        if self.word_read_times == 0 {
            self.unmark_all_dead();
        }
    }

    /// Returns a word of marks on the numbers whose cells of ring and halo must be looked at.
    ///
    /// A number without a mark has one of three reasons. Its cells are neither in the ring nor in the halo. Or they are
    /// dead under each assignment and have no mark among the others. Or they are as they were before the last odd step
    /// and have no mark among the new and the last ones.
    #[inline(always)]
    pub fn border_marks_to_check(&self, others: &[u64], new: &[u64], last: &[u64], k: usize) -> u64
        requires word_within_planes { 64 * k < self.now.planes.stride * self.now.planes.rows }
        requires room { k < length others.now }
        requires room_new_last { (k < length new.now) × (k < length last.now) }
        ensures unset_need_no_look { (u : ℕ) → u / 64 ≡ k → bit result (u % 64) ≡ false →
            AreNumbersSkippableBetween u (u + 1) others.now self.now.planes
            ⊎ (IsBlockSettled self.now u × IsNumberUnmarked new.now u
            × IsNumberUnmarked last.now u) }
    {
        let word = marked_in_first_and_other(&self.border_marks, &self.live_marks, others, k);
        if self.is_settled {
            marked_in_word_and_any(word, &self.block_marks.odd, new, last, k)
        } else {
            word
        }
    }

    /// Returns whether a cell, counted from the halo, may be live under some assignment.
    #[tactic(auto, using(crate::proofs::PlaneWords::dead_odd, crate::proofs::PlaneWords::dead_down, crate::proofs::PlaneWords::dead_right, crate::proofs::PlaneWords::dead_even))]
    #[inline(always)]
    pub fn may_be_live(&self, x: usize, y: usize) -> bool
        requires { (x / 2 < self.now.planes.stride) × (y / 2 < self.now.planes.rows) }
        ensures { result ≡ false → (a : ℕ) → a < 64 * self.now.planes.words →
            lane self.now.planes a x y ≡ false }
    {
        let u = self.planes.cell_number(x, y);
        if x % 2 == 0 {
            if y % 2 == 0 {
                is_marked(&self.live_marks.odd, u)
            } else {
                is_marked(&self.live_marks.down, u)
            }
        } else if y % 2 == 0 {
            is_marked(&self.live_marks.right, u)
        } else {
            is_marked(&self.live_marks.even, u)
        }
    }

    /// Returns a word of marks on the numbers of which a cell may be live under some assignment.
    #[inline(always)]
    pub fn word_of_live_numbers(&self, k: usize) -> u64
        requires { 64 * k < self.now.planes.stride * self.now.planes.rows }
        ensures { (u : ℕ) → u / 64 ≡ k → bit result (u % 64) ≡ false →
            u < self.now.planes.stride * self.now.planes.rows →
            AreNumberedCellsDead u self.now.planes }
    {
        self.live_marks.word(k)
    }

    /// Takes the marks off the cells of block u of a partition that are dead.
    #[tactic(auto, using(crate::proofs::LiveLemmas::drops_dead))]
    pub(crate) fn unmark_dead_cells(&mut self, partition: Partition, u: usize)
        requires { u < block_number_count partition self.old.planes }
        ensures planes { self.new.planes ≡ self.old.planes }
        ensures settled { AreSettledBlocksUnchanged self.old self.new }
    {
        let block = self.planes.block_places(partition, u);
        self.planes.unmark_dead_cells(&mut self.live_marks, block);
    }

    // Takes the marks off all cells that are dead.
    fn unmark_all_dead(&mut self)
        ensures planes { self.new.planes ≡ self.old.planes }
        ensures settled { AreSettledBlocksUnchanged self.old self.new }
    {
        for u in 0..self.planes.cells_per_plane() {
            self.unmark_dead_cells(Partition::Odd, u);
        }
        self.is_exact = true;
    }
}

impl MarkedPlanes {
    ghost use Rattle.lanes.specs.Lanes.{HasSourceWords, SetsCell};
    ghost use Rattle.lanes.specs.Settled.{AreSettledBlocksUnchanged};

    /// Sets a cell, counted from the halo, to the words of a source.
    #[tactic(auto, using(crate::proofs::FrozenLemmas::room_found, crate::proofs::FrozenLemmas::freezes_put, crate::proofs::FrozenLemmas::given_up))]
    pub fn put(&mut self, x: usize, y: usize, list: &[u64], source: WordSource)
        requires place { (x / 2 < self.old.planes.stride) × (y / 2 < self.old.planes.rows) }
        requires source { HasSourceWords self.old.planes.words list.now source }
        ensures cell_set { SetsCell x y list.now source self.old.planes self.new.planes }
        ensures settled { AreSettledBlocksUnchanged self.old self.new }
    {
        let u = self.planes.cell_number(x, y);
        let stride = self.planes.stride();
        let is_live = self.planes.put(x, y, list, source);
        self.planes.prove_planes_are_words();
        self.live_marks.set(x, y, u, is_live);
        let changes = ChangedDiagonals::of_cell(x, y);
        self.block_marks
            .mark_block_and_neighbours(Partition::Odd, u, stride, changes);
        self.frozen.give_up_if_frozen(u);
    }
}
