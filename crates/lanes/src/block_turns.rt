//! The turns of single blocks.

ghost use Rattle.lanes.specs.Blocks.{AreCellNumbers, block_at, block_number_count};
ghost use Rattle.lanes.specs.Turns.{IsAntiDiagonalStable, IsMainDiagonalStable, SwapsDiagonal, TurnsBlock, TurnsWordsFrom};
ghost use Rattle.std.specs.Prelude.{◌≡◌, ◌+◌, ◌-◌, ◌*◌, ◌<◌, ◌≤◌, vec_len, false};

use crate::blocks::{BlockPlaces, Diagonal, Partition};
use crate::live::LiveMarks;
use crate::marks::unmark_if_dead;
use crate::planes::Planes;
use crate::words::{ChangedDiagonals, part_changes, swap_part, turn_part, turn_word, word_changes};

impl Planes {
    ghost use Rattle.lanes.specs.Lanes.{HasWordsStrideRows};
    ghost use Rattle.lanes.specs.Live.{UnmarksOnlyDeadCells, HasRoomForBlockCells, HasSameCellMarkRoom};

    // The places of the first words of a block's cells.
    #[inline(always)]
    fn first_word_places(&self, block: BlockPlaces) -> BlockPlaces
        requires { AreCellNumbers block self.now }
        ensures main { (result.odd ≡ self.now.words * block.odd)
            × (result.even ≡ self.now.words * block.even) }
        ensures anti { (result.right ≡ self.now.words * block.right)
            × (result.down ≡ self.now.words * block.down) }
        ensures main_room { (result.odd + self.now.words ≤ vec_len self.now.odd)
            × (result.even + self.now.words ≤ vec_len self.now.even) }
        ensures anti_room { (result.right + self.now.words ≤ vec_len self.now.right)
            × (result.down + self.now.words ≤ vec_len self.now.down) }
    {
        BlockPlaces {
            odd: self.words * block.odd,
            right: self.words * block.right,
            down: self.words * block.down,
            even: self.words * block.even,
        }
    }

    /// Returns which diagonals of a block a turn may change under some assignment.
    #[tactic(auto, using(crate::proofs::LiveLemmas::times_one, lemmas::proofs::Common::get_or_read, crate::proofs::LiveLemmas::one_main, crate::proofs::LiveLemmas::one_anti))]
    #[inline]
    pub(crate) fn block_changes(&self, block: BlockPlaces) -> ChangedDiagonals
        requires { AreCellNumbers block self.now }
        ensures main { result.main ≡ false → IsMainDiagonalStable block self.now }
        ensures anti { result.anti ≡ false → IsAntiDiagonalStable block self.now }
    {
        // The loop over words costs more than one word.
        if self.words == 1 {
            return word_changes(
                self.odd[block.odd],
                self.right[block.right],
                self.down[block.down],
                self.even[block.even],
            );
        }
        let at = self.first_word_places(block);
        part_changes(
            &self.odd,
            &self.right,
            &self.down,
            &self.even,
            at,
            self.words,
        )
    }

    /// Turns a block.
    #[tactic(auto, using(lemmas::proofs::Common::with_items_is, crate::proofs::LiveLemmas::part_of_one))]
    #[inline]
    pub(crate) fn turn_block(&mut self, block: BlockPlaces)
        requires { AreCellNumbers block self.old }
        ensures turned { TurnsBlock block self.old self.new }
        ensures size { HasWordsStrideRows self.old.words self.old.stride self.old.rows self.new }
    {
        if self.words == 1 {
            turn_word(
                &mut self.odd,
                &mut self.right,
                &mut self.down,
                &mut self.even,
                block,
            );
            return;
        }
        let words = self.words;
        let at = self.first_word_places(block);
        turn_part(
            &mut self.odd,
            &mut self.right,
            &mut self.down,
            &mut self.even,
            at,
            words,
        );
    }

    /// Turns the blocks of a partition from `first` on to below `end`.
    #[inline]
    pub(crate) fn turn_block_range(&mut self, partition: Partition, first: usize, end: usize)
        requires { (first < end) × (end ≤ block_number_count partition self.old) }
        ensures part { TurnsWordsFrom (block_at partition self.old.stride first)
            (self.old.words * (end - first)) self.old self.new }
        ensures size { HasWordsStrideRows self.old.words self.old.stride self.old.rows self.new }
    {
        let at = self.first_word_places(self.block_places(partition, first));
        let long = self.words * (end - first);
        turn_part(
            &mut self.odd,
            &mut self.right,
            &mut self.down,
            &mut self.even,
            at,
            long,
        );
    }

    /// Exchanges the cells of a block's diagonal.
    #[inline]
    pub(crate) fn swap(&mut self, diagonal: Diagonal, block: BlockPlaces)
        requires { AreCellNumbers block self.old }
        ensures swapped { SwapsDiagonal diagonal block self.old self.new }
        ensures size { HasWordsStrideRows self.old.words self.old.stride self.old.rows self.new }
    {
        let words = self.words;
        let at = self.first_word_places(block);
        match diagonal {
            Diagonal::Main => swap_part(&mut self.odd, &mut self.even, at.odd, at.even, words),
            Diagonal::Anti => swap_part(&mut self.right, &mut self.down, at.right, at.down, words),
        }
    }

    /// Takes the marks off the cells of a block that are dead.
    #[inline]
    pub(crate) fn unmark_dead_cells(&self, live: &mut LiveMarks, block: BlockPlaces)
        requires marks { HasRoomForBlockCells live.old block }
        requires cells { AreCellNumbers block self.now }
        ensures unmarked { UnmarksOnlyDeadCells self.now block live.old live.new }
        ensures same_room { HasSameCellMarkRoom live.old live.new }
    {
        // Read once, as the compiler does not see that no mark lies there.
        let words = self.words;
        unmark_if_dead(&mut live.odd, block.odd, &self.odd, words);
        unmark_if_dead(&mut live.right, block.right, &self.right, words);
        unmark_if_dead(&mut live.down, block.down, &self.down, words);
        unmark_if_dead(&mut live.even, block.even, &self.even, words);
    }
}
