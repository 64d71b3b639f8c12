//! The cells of a box and of its halo under many assignments at once.
//!
//! They lie in four planes by the parities of their coordinates, so that a block of either partition has one cell in
//! each plane, and each step turns whole planes.

ghost use Rattle.lanes.specs.Across.{TurnsBlocksAcrossLists};
ghost use Rattle.std.specs.Prelude.{ℕ, ◌≡◌, ◌+◌, ◌-◌, ◌*◌, ◌/◌, ◌%◌, ◌<◌, ◌≤◌, ◌↔◌, length, slice_index, vec_len, IfOk, true, false, not};

use crate::blocks::{BlockPlaces, Partition};
use crate::words::{are_words_different, has_word_other_than};
use bbm_rule::turn_lanes;
use std::alloc::{AllocError, Global};

/// The words that a cell is set to: a constant, or words of a list.
#[derive(Clone, Copy)]
pub enum WordSource {
    /// Each word is this one.
    Constant(u64),
    /// The words are those of a list from this place on.
    From(usize),
}

/// The cells of a box and of its halo, under 64 assignments in each word of a cell: bit b of word k is assignment 64 k
/// + b.
///
/// Columns and rows are counted from the halo: the cell at column x and row y of the box has the place (x + 1, y + 1).
#[derive(Drop)]
pub struct Planes {
    // the words of a cell
    pub(crate) words: usize,
    // the cells of a row of a plane
    pub(crate) stride: usize,
    // the rows of a plane
    pub(crate) rows: usize,
    // the cells by column and row in the box: both odd; column even and row odd; column odd and row even; both even
    pub(crate) odd: Vec<u64>,
    pub(crate) right: Vec<u64>,
    pub(crate) down: Vec<u64>,
    pub(crate) even: Vec<u64>,
    ghost odd_long: { vec_len odd ≡ words * (stride * rows) },
    ghost right_long: { vec_len right ≡ words * (stride * rows) },
    ghost down_long: { vec_len down ≡ words * (stride * rows) },
    ghost even_long: { vec_len even ≡ words * (stride * rows) },
    ghost some: { (0 < words) × (words ≤ 64) × (2 ≤ stride) × (stride ≤ 64) × (2 ≤ rows) × (rows ≤ 64) },
}

impl Planes {
    ghost use Rattle.lanes.specs.Calm.{AreAllCellsDead};
    ghost use Rattle.lanes.specs.Lanes.{HasWordsStrideRows, TurnsCellsOfPartition};

    /// Creates planes of dead cells, for a box of `width` by `height` cells.
    pub(crate) fn new(
        alloc: Global,
        width: usize,
        height: usize,
        words: usize,
    ) -> Result<Planes, AllocError>
        requires width { (2 ≤ width) × (width ≤ 64) }
        requires height { (2 ≤ height) × (height ≤ 64) }
        requires words { (0 < words) × (words ≤ 64) }
        ensures size { IfOk result (λ p. HasWordsStrideRows words (width / 2 + 1) (height / 2 + 1)
            p) }
        ensures all_cells_dead { IfOk result (λ p. AreAllCellsDead p) }
    {
        let stride = width / 2 + 1;
        let rows = height / 2 + 1;
        let long = words * (stride * rows);
        Ok(Planes {
            words,
            stride,
            rows,
            odd: vec![in alloc; 0u64; long]?,
            right: vec![in alloc; 0u64; long]?,
            down: vec![in alloc; 0u64; long]?,
            even: vec![in alloc; 0u64; long]?,
        })
    }

    /// Turns the blocks whose upper left corner is odd, which fill box and halo.
    #[tactic(auto, using(lemmas::proofs::Common::with_items_is, crate::proofs::LaneLemmas::odd_lane))]
    pub(crate) fn odd_step(&mut self)
        ensures turned { TurnsCellsOfPartition Partition.Odd self.old self.new }
        ensures size { HasWordsStrideRows self.old.words self.old.stride self.old.rows self.new }
    {
        turn_lanes(
            &mut self.odd,
            &mut self.right,
            &mut self.down,
            &mut self.even,
        );
    }

    /// Turns the blocks of the box whose upper left corner is even. It does not read the cells of the halo.
    #[tactic(auto, using(lemmas::proofs::Common::with_items_is, crate::proofs::LaneLemmas::even_lane))]
    pub(crate) fn even_step(&mut self)
        ensures turned { TurnsCellsOfPartition Partition.Even self.old self.new }
        ensures size { HasWordsStrideRows self.old.words self.old.stride self.old.rows self.new }
    {
        turn_blocks_at_offsets(
            &mut self.even,
            &mut self.down,
            &mut self.right,
            &mut self.odd,
            self.words,
            self.words * self.stride,
        );
    }
}

// Turns the blocks of a word, that after `across` words, that after `below` words, and that after both.
#[tactic(auto, using(crate::proofs::LaneLemmas::across_turned))]
fn turn_blocks_at_offsets(
    even: &mut [u64],
    down: &mut [u64],
    right: &mut [u64],
    odd: &mut [u64],
    across: usize,
    below: usize,
)
    requires down { length down.old ≡ length even.old }
    requires right { length right.old ≡ length even.old }
    requires odd { length odd.old ≡ length even.old }
    requires cells_inside { below + across ≤ length even.old }
    ensures { TurnsBlocksAcrossLists across below even.old down.old right.old odd.old even.new
        down.new right.new odd.new }
{
    let long = even.len() - below - across;
    turn_lanes(
        &mut even[0..long],
        &mut down[across..across + long],
        &mut right[below..below + long],
        &mut odd[below + across..below + across + long],
    );
}

impl Planes {
    ghost use Rattle.lanes.specs.Blocks.{AreCellNumbers, IsNotRowEndBlock, block_at, block_number_count};
    ghost use Rattle.lanes.specs.Live.{AreWordsZeroAt};

    /// Returns how many cells a plane has. A block of the odd partition has the number of its cells, counted row by
    /// row.
    pub fn cells_per_plane(&self) -> usize
        ensures count_is_exact { result ≡ self.now.stride * self.now.rows }
        ensures between_4_and_4096 { (4 ≤ result) × (result ≤ 4096)
            × (self.now.stride + self.now.stride ≤ result) }
    {
        self.stride * self.rows
    }

    /// Returns how many numbers the blocks of a partition have.
    #[inline(always)]
    pub(crate) fn block_number_count(&self, partition: Partition) -> usize
        ensures count_is_exact { result ≡ block_number_count partition self.now }
        ensures at_most_4096 { (result ≤ 4096) × (result ≤ self.now.stride * self.now.rows) }
    {
        match partition {
            Partition::Odd => self.cells_per_plane(),
            Partition::Even => self.cells_per_plane() - self.stride - 1,
        }
    }

    /// Returns whether block u of a partition is the last of its row, and not in the box.
    #[inline(always)]
    pub(crate) fn is_row_end(&self, partition: Partition, u: usize) -> bool
        requires { u < self.now.stride * self.now.rows }
        ensures is_row_end { result ≡ true → IsNotRowEndBlock partition self.now.stride u → ⊥ }
        ensures not_row_end { result ≡ false → IsNotRowEndBlock partition self.now.stride u }
    {
        match partition {
            Partition::Odd => false,
            Partition::Even => (u + 1) % self.stride == 0,
        }
    }

    /// Returns the cells of block u of a partition.
    #[inline(always)]
    pub(crate) fn block_places(&self, partition: Partition, u: usize) -> BlockPlaces
        requires { u < block_number_count partition self.now }
        ensures block { result ≡ block_at partition self.now.stride u }
        ensures cells { AreCellNumbers result self.now }
        ensures below_4096 { result.odd < 4096 }
    {
        partition.block_places(u, self.stride)
    }

    /// Returns how many words a cell has.
    pub(crate) fn words(&self) -> usize
        ensures count_is_exact { result ≡ self.now.words }
        ensures between_1_and_64 { (0 < result) × (result ≤ 64) }
    {
        self.words
    }

    /// Returns how many cells a row of a plane has.
    pub(crate) fn stride(&self) -> usize
        ensures stride_is_exact { result ≡ self.now.stride }
        ensures between_2_and_64 { (2 ≤ result) × (result ≤ 64) }
    {
        self.stride
    }

    /// Returns how many rows a plane has.
    pub(crate) fn rows(&self) -> usize
        ensures count_is_exact { result ≡ self.now.rows }
        ensures between_2_and_64 { (2 ≤ result) × (result ≤ 64) }
    {
        self.rows
    }

    /// Returns how many cells a row has and how many rows there are, together.
    pub(crate) fn columns_plus_rows(&self) -> usize
        ensures { (result ≡ self.now.stride + self.now.rows) × (result ≤ 128) }
    {
        self.stride + self.rows
    }

    /// Returns the column and row of the cells with number u.
    pub fn column_and_row(&self, u: usize) -> (usize, usize)
        requires { u < self.now.stride * self.now.rows }
        ensures column { result.0 < self.now.stride }
        ensures row { result.1 < self.now.rows }
        ensures place_is_exact { self.now.stride * result.1 + result.0 ≡ u }
    {
        (u % self.stride, u / self.stride)
    }

    /// Returns the number of a cell, counted from the halo.
    pub fn cell_number(&self, x: usize, y: usize) -> usize
        requires { (x / 2 < self.now.stride) × (y / 2 < self.now.rows) }
        ensures number_is_exact { result ≡ self.now.stride * (y / 2) + x / 2 }
        ensures range { result < self.now.stride * self.now.rows }
    {
        self.stride * (y / 2) + x / 2
    }

    /// Returns whether some cell with number u is live under one of the first 64 assignments.
    pub(crate) fn is_live_in_first_word(&self, u: usize) -> bool
        requires { u < self.now.stride * self.now.rows }
        ensures { (result ≡ false) ↔ AreWordsZeroAt (self.now.words * u) self.now }
    {
        let at = self.words * u;
        (self.odd[at] | self.right[at] | self.down[at] | self.even[at]) != 0
    }
}

impl Planes {
    ghost use Rattle.bbm_rule.specs.Bits.{bit};
    ghost use Rattle.lanes.specs.Blocks.{block_at};
    ghost use Rattle.lanes.specs.Calm.{ChangesOnlyDiagonals};
    ghost use Rattle.lanes.specs.Turns.{is_on_main_diagonal};
    ghost use Rattle.lanes.specs.Lanes.{HasWordsStrideRows, lane, SetsCellWord};

    /// Returns word k of a cell, counted from the halo.
    #[tactic(auto, using(crate::proofs::LaneLemmas::place_below, crate::proofs::PlaneWords::lane_in_word, crate::proofs::PlaneWords::plane_odd, crate::proofs::PlaneWords::plane_down, crate::proofs::PlaneWords::plane_right, crate::proofs::PlaneWords::plane_even))]
    pub fn word(&self, x: usize, y: usize, k: usize) -> u64
        requires { (x / 2 < self.now.stride) × (y / 2 < self.now.rows) × (k < self.now.words) }
        ensures { (b : ℕ) → b < 64 → bit result b ≡ lane self.now (64 * k + b) x y }
    {
        let at = self.words * (self.stride * (y / 2) + x / 2) + k;
        if x % 2 == 0 {
            if y % 2 == 0 {
                self.odd[at]
            } else {
                self.down[at]
            }
        } else if y % 2 == 0 {
            self.right[at]
        } else {
            self.even[at]
        }
    }

    /// Returns whether some word of a cell, counted from the halo, is not that of a row of words from a place on.
    #[tactic(auto, using(crate::proofs::LaneLemmas::place_below, crate::proofs::PlaneWords::lane_in_word, crate::proofs::PlaneWords::plane_odd, crate::proofs::PlaneWords::plane_down, crate::proofs::PlaneWords::plane_right, crate::proofs::PlaneWords::plane_even))]
    pub fn differs_from_words(&self, x: usize, y: usize, row: &[u64], from: usize) -> bool
        requires place { (x / 2 < self.now.stride) × (y / 2 < self.now.rows) }
        requires row { from + self.now.words ≤ length row.now }
        ensures { result ≡ false → (k b : ℕ) → k < self.now.words → b < 64 →
            bit (slice_index row.now (from + k)) b ≡ lane self.now (64 * k + b) x y }
    {
        let words = self.words;
        let at = words * (self.stride * (y / 2) + x / 2);
        if x % 2 == 0 {
            if y % 2 == 0 {
                are_words_different(&self.odd, at, row, from, words)
            } else {
                are_words_different(&self.down, at, row, from, words)
            }
        } else if y % 2 == 0 {
            are_words_different(&self.right, at, row, from, words)
        } else {
            are_words_different(&self.even, at, row, from, words)
        }
    }

    /// Returns whether some word of a cell, counted from the halo, is not the given one.
    pub fn differs_from_word(&self, x: usize, y: usize, word: u64) -> bool
        requires { (x / 2 < self.now.stride) × (y / 2 < self.now.rows) }
        ensures { result ≡ false → (k b : ℕ) → k < self.now.words → b < 64 →
            bit word b ≡ lane self.now (64 * k + b) x y }
    {
        let words = self.words;
        let at = words * (self.stride * (y / 2) + x / 2);
        if x % 2 == 0 {
            if y % 2 == 0 {
                has_word_other_than(&self.odd, at, word, words)
            } else {
                has_word_other_than(&self.down, at, word, words)
            }
        } else if y % 2 == 0 {
            has_word_other_than(&self.right, at, word, words)
        } else {
            has_word_other_than(&self.even, at, word, words)
        }
    }

    /// Writes word k of a cell, counted from the halo.
    #[tactic(auto, using(crate::proofs::PlaneWords::other_word))]
    pub(crate) fn set_word(&mut self, x: usize, y: usize, k: usize, word: u64)
        requires { (x / 2 < self.old.stride) × (y / 2 < self.old.rows) × (k < self.old.words) }
        ensures word_set { SetsCellWord x y k word self.old self.new }
        ensures cells { ChangesOnlyDiagonals (is_on_main_diagonal x y)
            (not (is_on_main_diagonal x y))
            (block_at Partition.Odd self.old.stride (self.old.stride * (y / 2) + x / 2)) self.old
            self.new }
        ensures size { HasWordsStrideRows self.old.words self.old.stride self.old.rows self.new }
    {
        let at = self.words * (self.stride * (y / 2) + x / 2) + k;
        if x % 2 == 0 {
            if y % 2 == 0 {
                self.odd[at] = word;
            } else {
                self.down[at] = word;
            }
        } else if y % 2 == 0 {
            self.right[at] = word;
        } else {
            self.even[at] = word;
        }
    }
}

impl WordSource {
    ghost use Rattle.lanes.specs.Lanes.{HasSourceWords, word_of_source};

    /// Returns word k of the source, whose list this is.
    #[inline(always)]
    pub fn word(self, list: &[u64], k: usize) -> u64
        requires { HasSourceWords (k + 1) list.now self }
        ensures { result ≡ word_of_source list.now self k }
    {
        match self {
            WordSource::Constant(word) => word,
            WordSource::From(first) => list[first + k],
        }
    }
}

impl Planes {
    ghost use Rattle.lanes.specs.Blocks.{block_at};
    ghost use Rattle.lanes.specs.Calm.{ChangesOnlyDiagonals};
    ghost use Rattle.lanes.specs.Turns.{is_on_main_diagonal};
    ghost use Rattle.lanes.specs.Lanes.{HasSourceWords, SetsCell, word_of_source};

    /// Sets a cell, counted from the halo, to the words of a source. Returns whether one of them is not zero.
    #[tactic(auto, using(crate::proofs::TurnLemmas::none_first, crate::proofs::TurnLemmas::none_last, lemmas::proofs::Common::cases_lt))]
    pub(crate) fn put(&mut self, x: usize, y: usize, list: &[u64], source: WordSource) -> bool
        requires place { (x / 2 < self.old.stride) × (y / 2 < self.old.rows) }
        requires source { HasSourceWords self.old.words list.now source }
        ensures cell_set { SetsCell x y list.now source self.old self.new }
        ensures cells { ChangesOnlyDiagonals (is_on_main_diagonal x y)
            (not (is_on_main_diagonal x y))
            (block_at Partition.Odd self.old.stride (self.old.stride * (y / 2) + x / 2)) self.old
            self.new }
        ensures words_zero { result ≡ false → (k : ℕ) → k < self.old.words →
            word_of_source list.now source k ≡ 0 }
    {
        let words = self.words;
        // The loop costs more than one word.
        if words == 1 {
            let word = source.word(list, 0);
            self.set_word(x, y, 0, word);
            return word != 0;
        }
        let mut union = 0;
        for k in 0..words {
            let word = source.word(list, k);
            self.set_word(x, y, k, word);
            union |= word;
        }
        union != 0
    }
}
