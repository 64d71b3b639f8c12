//! Marks on the blocks around a block, and on the cells of ring and halo.

ghost use Rattle.bbm_rule.specs.Bits.{bit};
ghost use Rattle.bbm_rule.specs.Marks.{IsNumberUnmarked};
ghost use Rattle.bbm_rule.specs.Rows.{cell_at, SetsCellAtPlace};
ghost use Rattle.lanes.specs.Borders.{AreBorderNumbersMarked};
ghost use Rattle.lanes.specs.Live.{AreNumberCellsUnmarked, UnmarksOnlyIfDead, HasRoomForCellMarks, IsDeadCell, MarksCellIf, TakesMarkOfOther};
ghost use Rattle.lanes.specs.Blocks.{block_at};
ghost use Rattle.lanes.specs.Calm.{MarksPartitionBlocksSharing};
ghost use Rattle.std.specs.Int.{trailing_zeros, w64};
ghost use Rattle.std.specs.Prelude.{ℕ, ◌≡◌, ◌≢◌, ◌+◌, ◌*◌, ◌/◌, ◌%◌, ◌^◌, ◌<◌, ◌≤◌, ◌⊎◌, ◌&&◌, length, vec_len, not, true, false};

use crate::blocks::Partition;
use crate::live::LiveMarks;
use crate::words::ChangedDiagonals;
use bbm_rule::marks::{mark, mark_number_before, unmark};

/// Returns whether a number has a mark.
#[tactic(auto, using(bbm_rule::proofs::CellLemmas::cell_is))]
#[inline(always)]
pub fn is_marked(marks: &[u64], at: usize) -> bool
    requires { at / 64 < length marks.now }
    ensures { result ≡ cell_at marks.now at }
{
    (marks[at / 64] >> (at % 64)) & 1 == 1
}

/// Marks a number, if it changes.
#[inline(always)]
pub fn mark_if(marks: &mut [u64], at: usize, changes: bool)
    requires { at / 64 < length marks.old }
    ensures { MarksCellIf changes at marks.old marks.new }
{
    if changes {
        mark(marks, at);
    }
}

/// Gives a number a mark, or takes its mark off.
#[inline(always)]
pub fn set_mark(marks: &mut [u64], at: usize, is_marked: bool)
    requires { at / 64 < length marks.old }
    ensures { SetsCellAtPlace at is_marked marks.old marks.new }
{
    if is_marked {
        marks[at / 64] |= 1u64 << (at % 64);
    } else {
        marks[at / 64] &= !(1u64 << (at % 64));
    }
}

/// Fills marks with `long` copies of a word, and returns whether there was memory for it.
pub fn fill(marks: &mut Vec<u64>, long: usize, word: u64) -> bool
    ensures { result ≡ true → vec_len marks.new ≡ long }
{
    marks.clear();
    marks.resize(long, word).is_ok()
}

/// Marks the numbers that have no mark in one of two other lists, as far as both lists reach, and unmarks the others.
#[tactic(auto, using(crate::proofs::MarkFlips::lacking_bit))]
pub fn set_marks_to_not_both(marks: &mut [u64], first: &[u64], second: &[u64])
    ensures { (u : ℕ) → u / 64 < length marks.old → u / 64 < length first.now →
        u / 64 < length second.now →
        cell_at marks.new u ≡ not (cell_at first.now u && cell_at second.now u) }
{
    let long = marks.len().min(first.len()).min(second.len());
    for k in 0..long {
        // `!0 ^ a` stands for `!a`.
        marks[k] = 0xFFFF_FFFF_FFFF_FFFF ^ (first[k] & second[k]);
    }
}

// Gives a number a mark if it has none, and takes its mark off if it has one.
#[tactic(auto, using(crate::proofs::MarkFlips::flipped_there, crate::proofs::MarkFlips::flipped_elsewhere))]
#[inline(always)]
fn flip_mark(marks: &mut [u64], at: usize)
    requires { at / 64 < length marks.old }
    ensures mark_flipped { cell_at marks.new at ≡ not (cell_at marks.old at) }
    ensures other_marks_kept { (u : ℕ) → u ≢ at → cell_at marks.new u ≡ cell_at marks.old u }
{
    marks[at / 64] ^= 1u64 << (at % 64);
}

/// Exchanges the marks of a number in one list and of one in another.
#[tactic(auto, using(crate::proofs::MarkFlips::took, crate::proofs::MarkFlips::becomes_second, crate::proofs::MarkFlips::becomes_first))]
#[inline(always)]
pub fn swap_two_marks(first: &mut [u64], second: &mut [u64], a: usize, b: usize)
    requires { (a / 64 < length first.old) × (b / 64 < length second.old) }
    ensures first { TakesMarkOfOther a b first.old second.old first.new }
    ensures second { TakesMarkOfOther b a second.old first.old second.new }
{
    let is_first = is_marked(first, a);
    let is_second = is_marked(second, b);
    if is_first == is_second {
        return;
    }
    flip_mark(first, a);
    flip_mark(second, b);
}

// Whether the words of a cell are zero.
#[inline(always)]
fn are_cell_words_zero(cells: &[u64], at: usize, words: usize) -> bool
    requires { words * at + words ≤ length cells.now }
    ensures { result ≡ true → IsDeadCell words at cells.now }
{
    let first = words * at;
    for k in 0..words {
        if cells[first + k] != 0 {
            return false;
        }
    }
    true
}

/// Takes the mark off a cell, if it is dead.
#[inline(always)]
pub fn unmark_if_dead(marks: &mut [u64], at: usize, cells: &[u64], words: usize)
    requires mark { at / 64 < length marks.old }
    requires cell { words * at + words ≤ length cells.now }
    ensures { UnmarksOnlyIfDead words at cells.now marks.old marks.new }
{
    if is_marked(marks, at) && are_cell_words_zero(cells, at, words) {
        unmark(marks, at);
    }
}

/// Marks the blocks of the even partition that share a cell of a changed diagonal with block `at` of the odd partition.
pub fn mark_even_neighbours(marks: &mut [u64], at: usize, stride: usize, changes: ChangedDiagonals)
    requires { (at / 64 < length marks.old) × (stride ≤ 64) }
    ensures { MarksPartitionBlocksSharing Partition.Even changes.main changes.anti stride
        (block_at Partition.Odd stride at) marks.old marks.new }
{
    if changes.main {
        mark(marks, at);
        mark_number_before(marks, at, stride + 1);
    }
    if changes.anti {
        mark_number_before(marks, at, 1);
        mark_number_before(marks, at, stride);
    }
}

/// Marks the blocks of the odd partition that share a cell of a changed diagonal with block `at` of the even partition.
pub fn mark_odd_neighbours(marks: &mut [u64], at: usize, stride: usize, changes: ChangedDiagonals)
    requires { ((at + stride + 1) / 64 < length marks.old) × (at + stride + 1 < 2 ^ 32) }
    ensures { MarksPartitionBlocksSharing Partition.Odd changes.main changes.anti stride
        (block_at Partition.Even stride at) marks.old marks.new }
{
    if changes.main {
        mark(marks, at);
        mark(marks, at + stride + 1);
    }
    if changes.anti {
        mark(marks, at + 1);
        mark(marks, at + stride);
    }
}

/// Marks the numbers of the cells of ring and halo, for planes of this many columns and rows.
pub fn mark_ring_and_halo_numbers(marks: &mut [u64], stride: usize, rows: usize)
    requires room_for_marks { stride * rows ≤ 64 * length marks.old }
    requires size { (2 ≤ stride) × (stride ≤ 64) × (2 ≤ rows) × (rows ≤ 64) }
    ensures { AreBorderNumbersMarked stride rows marks.new }
{
    for row in 0..rows {
        mark(marks, stride * row);
        mark(marks, stride * row + stride - 1);
    }
    for column in 0..stride {
        mark(marks, column);
        mark(marks, stride * (rows - 1) + column);
    }
}

/// Returns a word of marks on the numbers that have a mark in the first list, and one among the others or among those
/// of live cells.
#[tactic(auto, using(crate::proofs::MarkSearch::lacks_mark))]
#[inline(always)]
pub fn marked_in_first_and_other(first: &[u64], live: &LiveMarks, others: &[u64], k: usize) -> u64
    requires live { HasRoomForCellMarks (64 * k + 1) live.now }
    requires room { (k < length first.now) × (k < length others.now) }
    ensures { (u : ℕ) → u / 64 ≡ k → bit result (u % 64) ≡ false →
        IsNumberUnmarked first.now u
        ⊎ (AreNumberCellsUnmarked live.now u × IsNumberUnmarked others.now u) }
{
    first[k] & (live.word(k) | others[k])
}

/// Returns the marks of a word on the numbers that have a mark in one of three lists too.
#[tactic(auto, using(crate::proofs::MarkSearch::lacks_in_three))]
#[inline(always)]
pub fn marked_in_word_and_any(
    word: u64,
    first: &[u64],
    second: &[u64],
    third: &[u64],
    k: usize,
) -> u64
    requires first { k < length first.now }
    requires others { (k < length second.now) × (k < length third.now) }
    ensures { (u : ℕ) → u / 64 ≡ k → bit result (u % 64) ≡ false →
        (bit word (u % 64) ≡ false)
        ⊎ (IsNumberUnmarked first.now u × IsNumberUnmarked second.now u
        × IsNumberUnmarked third.now u) }
{
    word & (first[k] | second[k] | third[k])
}

/// Returns the place of the first mark in a word of marks, and the word without it.
#[tactic(auto, using(crate::proofs::MarkFlips::clears_first))]
#[inline(always)]
pub fn take_first_mark(word: u64) -> (usize, u64)
    requires { word ≢ 0 }
    ensures first { (result.0 < 64) × (bit word result.0 ≡ true)
        × ((j : ℕ) → j < result.0 → bit word j ≡ false) }
    ensures rest { (bit result.1 result.0 ≡ false)
        × ((j : ℕ) → j ≢ result.0 → bit result.1 j ≡ bit word j) }
    ensures first_bit_lowest { (result.0 ≡ trailing_zeros w64 word)
        × (result.0 < trailing_zeros w64 result.1) }
{
    let place = word.trailing_zeros();
    (place as usize, word ^ (1u64 << place))
}
