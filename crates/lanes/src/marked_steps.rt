//! The steps of the planes, by marks or of whole planes.

ghost use Rattle.lanes.specs.Settled.{AreCellsSameAtNumber, AreSettledBlocksUnchanged, IsBlockSettled};
ghost use Rattle.std.specs.Prelude.{ℕ, ◌≡◌, ◌+◌, ◌*◌, ◌/◌, ◌%◌, ◌<◌, ◌≤◌, true, false};

use crate::blocks::Partition;
use crate::marked_planes::MarkedPlanes;
use crate::marks::take_first_mark;
use crate::phases::{WholePlaneSteps, is_turning_all_cheaper};

/// In how many steps many blocks must change before those that no step changes are looked for. A search costs as much
/// as some of these steps.
pub(crate) const DENSE_STEPS_BEFORE_SEARCH: u32 = 128;

// So many blocks are few for `is_turning_all_cheaper`, in boxes of 16 by 16 cells or more. In smaller ones all steps
// cost little.
const MAX_FEW_BLOCKS: usize = 4;

impl MarkedPlanes {
    ghost use Rattle.lanes.specs.Blocks.{block_number_count};
    ghost use Rattle.lanes.specs.Sweeps.{IsPassedBlock, TurnsBlocksSatisfying, TurnsNumberedBlocksBetween};
    ghost use Rattle.lanes.specs.Lanes.{HasWordsStrideRows, AreSameInBox, TurnsCellsOfPartition};

    // Looks whether the next steps are to turn whole planes, after a step by marks in which `changed` blocks changed.
    // Where few did, they are not, even if most blocks are frozen.
    #[inline(always)]
    fn plan_next_steps(&mut self, changed: usize)
        requires { changed ≤ 4096 }
        ensures planes { self.new.planes ≡ self.old.planes }
        ensures settled { AreSettledBlocksUnchanged self.old self.new }
    {
        self.settle_crowded_blocks(changed);
        if changed > MAX_FEW_BLOCKS
            && is_turning_all_cheaper(
                changed,
                self.planes.cells_per_plane() / 4,
                self.planes.words(),
                self.planes.columns_plus_rows() / 4,
            )
        {
            self.begin_phase_if_cheaper(changed);
        } else {
            self.whole_plane_steps = WholePlaneSteps::NONE;
        }
    }

    // Begins a phase of steps that turn whole planes, if it costs less than to go by marks.
    fn begin_phase_if_cheaper(&mut self, changed: usize)
        requires { changed ≤ 4096 }
        ensures planes { self.new.planes ≡ self.old.planes }
        ensures settled { AreSettledBlocksUnchanged self.old self.new }
    {
        self.count_dense_steps(1);
        let cells = self.planes.cells_per_plane();
        if is_turning_all_cheaper(
            changed,
            self.frozen.active_block_count(cells),
            self.planes.words(),
            self.frozen
                .active_columns_plus_rows(self.planes.columns_plus_rows()),
        ) {
            self.whole_plane_steps = self.whole_plane_steps.next_phase();
            self.count_dense_steps(self.whole_plane_steps.left);
        } else {
            self.whole_plane_steps = WholePlaneSteps::NONE;
        }
    }

    // Counts steps in which many blocks change, and looks for the blocks that no step changes after enough of them.
    fn count_dense_steps(&mut self, steps: u32)
        ensures planes { self.new.planes ≡ self.old.planes }
        ensures settled { AreSettledBlocksUnchanged self.old self.new }
    {
        if self.frozen.is_found() || self.searches_left == 0 {
            return;
        }
        if self.steps_until_search > steps {
            self.steps_until_search -= steps;
            return;
        }
        self.steps_until_search = DENSE_STEPS_BEFORE_SEARCH;
        self.searches_left -= 1;
        self.frozen.find(&self.planes);
    }

    // Returns a word of marks on the blocks of a partition that may change.
    #[inline(always)]
    fn blocks_to_turn(&self, partition: Partition, k: usize) -> u64
        requires { 64 * k < block_number_count partition self.now.planes }
        ensures calm { (end : ℕ) → end ≤ 64 * k + 64 →
            end ≤ block_number_count partition self.now.planes →
            TurnsBlocksSatisfying partition
            (IsPassedBlock partition self.now.planes.stride (64 * k) end result) self.now.planes
            self.now.planes }
    {
        let word = self.block_marks.marks_of(partition)[k];
        match partition {
            Partition::Odd => word & self.live_marks.word(k),
            Partition::Even => word,
        }
    }

    // Turns the blocks of a partition from `first` on to below `end` that have a mark in a word, where the others stay,
    // and returns how many it turned.
    //
    // The word was read before: the turn of a block changes marks of its partition and live marks at its own number
    // alone.
    #[inline(always)]
    fn turn_marked_blocks(
        &mut self,
        partition: Partition,
        word: u64,
        first: usize,
        end: usize,
    ) -> usize
        requires word { (first % 64 ≡ 0) × (first < end) × (end ≤ first + 64) }
        requires end_within_blocks { end ≤ block_number_count partition self.old.planes }
        requires passed_stable { TurnsBlocksSatisfying partition
            (IsPassedBlock partition self.old.planes.stride first end word) self.old.planes
            self.old.planes }
        ensures turned { TurnsNumberedBlocksBetween partition first end self.old.planes
            self.new.planes }
        ensures size { HasWordsStrideRows self.old.planes.words self.old.planes.stride
            self.old.planes.rows self.new.planes }
        ensures unchanged_if_zero { result ≡ 0 → self.new.planes ≡ self.old.planes }
        ensures count { first + result ≤ end }
        ensures settled_if_even { partition ≡ Partition.Even →
            AreSettledBlocksUnchanged self.old self.new }
    {
        let mut rest = word;
        let mut changed = 0;
        while rest != 0 {
            let (place, others) = take_first_mark(rest);
            let u = first + place;
            if u >= end {
                return changed;
            }
            rest = others;
            if self.turn_block(partition, u) {
                changed += 1;
            }
        }
        changed
    }

    // Turns the blocks of a partition that have marks, and returns how many it turned.
    #[tactic(auto, using(crate::proofs::CalmLemmas::same_count))]
    #[inline(always)]
    fn step_by_marks(&mut self, partition: Partition) -> usize
        ensures turned { TurnsCellsOfPartition partition self.old.planes self.new.planes }
        ensures size { HasWordsStrideRows self.old.planes.words self.old.planes.stride
            self.old.planes.rows self.new.planes }
        ensures unchanged_if_zero { result ≡ 0 → self.new.planes ≡ self.old.planes }
        ensures at_most_4096 { result ≤ 4096 }
        ensures settled_if_even { partition ≡ Partition.Even →
            AreSettledBlocksUnchanged self.old self.new }
    {
        let blocks = self.planes.block_number_count(partition);
        let mut changed = 0;
        for k in 0..blocks.div_ceil(64) {
            let word = self.blocks_to_turn(partition, k);
            if word == 0 {
                continue;
            }
            let end = (64 * k + 64).min(blocks);
            changed += self.turn_marked_blocks(partition, word, 64 * k, end);
        }
        changed
    }

    // Turns whole planes, but for the frozen blocks.
    #[inline(always)]
    fn turn_all_unfrozen(&mut self, partition: Partition)
        ensures turned { TurnsCellsOfPartition partition self.old.planes self.new.planes }
        ensures size { HasWordsStrideRows self.old.planes.words self.old.planes.stride
            self.old.planes.rows self.new.planes }
        ensures settled_flag_kept { self.new.is_settled ≡ self.old.is_settled }
    {
        self.whole_plane_steps.left = self.whole_plane_steps.left.saturating_sub(1);
        self.is_exact = false;
        self.frozen.step(partition, &mut self.planes);
        self.frozen
            .mark_active_blocks(&self.planes, &mut self.block_marks);
        self.frozen.mark_live(&self.planes, &mut self.live_marks);
    }

    /// Turns the blocks whose upper left corner is odd, which fill box and halo. Returns whether a block may have
    /// changed.
    pub fn odd_step(&mut self) -> bool
        ensures turned { TurnsCellsOfPartition Partition.Odd self.old.planes self.new.planes }
        ensures size { HasWordsStrideRows self.old.planes.words self.old.planes.stride
            self.old.planes.rows self.new.planes }
        ensures unchanged_if_false { result ≡ false → self.new.planes ≡ self.old.planes }
        ensures settled_are_same { (u : ℕ) → u < self.old.planes.stride * self.old.planes.rows →
            IsBlockSettled self.new u → AreCellsSameAtNumber u self.old.planes self.new.planes }
    {
        self.is_settled = true;
        if self.whole_plane_steps.left > 0 {
            self.turn_all_unfrozen(Partition::Odd);
            return true;
        }
        let changed = self.step_by_marks(Partition::Odd);
        // Where nothing was known all blocks had marks, and these fill box and halo.
        self.is_exact = self.word_read_times == 0;
        self.plan_next_steps(changed);
        changed > 0
    }

    /// Turns the blocks of the box whose upper left corner is even. Returns whether a cell of the box may have changed.
    ///
    /// It does not read the cells of the halo.
    pub fn even_step(&mut self) -> bool
        ensures turned { TurnsCellsOfPartition Partition.Even self.old.planes self.new.planes }
        ensures size { HasWordsStrideRows self.old.planes.words self.old.planes.stride
            self.old.planes.rows self.new.planes }
        ensures unchanged_if_false { result ≡ false → AreSameInBox self.old.planes self.new.planes }
        ensures settled { AreSettledBlocksUnchanged self.old self.new }
    {
        if self.whole_plane_steps.left > 0 {
            self.is_settled = false;
            self.turn_all_unfrozen(Partition::Even);
            return true;
        }
        let changed = self.step_by_marks(Partition::Even);
        self.plan_next_steps(changed);
        changed > 0
    }
}
