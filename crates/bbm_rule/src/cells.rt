//! Single cells of a plane of bits.

ghost use Rattle.std.specs.Prelude.{◌≡◌, ◌+◌, ◌*◌, ◌/◌, ◌<◌, ◌≤◌, ◌^◌, ◌%◌, ℕ, length, false, ℤ, pos, ◌≤ℤ◌, ◌<ℤ◌};
ghost use Rattle.std.specs.Bool.{OnTrue};
ghost use Rattle.bbm_rule.specs.Marks.{IsNumberUnmarked};
ghost use Rattle.bbm_rule.specs.Rows.{cell_at, FillsRowPart, SetsCellAtPlace, place_with_margin, HasLiveMargin, HasDeadMargin, HasDeadMarginInRow};
ghost use Rattle.lemmas.specs.Bounds.{max_side, max_words_in_row};

use crate::block::Cell;
use crate::marks::next_marked;

// the place of a cell, in rows of `stride` words with a margin of one cell
#[inline(always)]
pub(crate) fn place_with_margin(stride: usize, cell: Cell) -> usize
    requires columns { (pos 0 ≤ℤ cell.x) × (cell.x <ℤ pos max_side) }
    requires rows { (pos 0 ≤ℤ cell.y) × (cell.y <ℤ pos max_side) }
    requires stride { stride ≤ max_words_in_row }
    ensures { result ≡ place_with_margin (64 * stride) cell.x cell.y }
{
    64 * stride * (cell.y as usize + 1) + (cell.x as usize + 1)
}

// the row of a cell, as a number
#[inline(always)]
pub(crate) fn row_of(cell: Cell) -> usize
    requires { (pos 0 ≤ℤ cell.y) × (cell.y <ℤ pos max_side) }
    ensures { pos result ≡ cell.y }
{
    cell.y as usize
}

// whether the cell at a place is live
#[inline(always)]
pub(crate) fn cell_bit(words: &[u64], place: usize) -> bool
    requires { place / 64 < length words.now }
    ensures { result ≡ cell_at words.now place }
{
    is_live_in(words, place / 64, place % 64)
}

// whether a cell of word i is live
#[inline(always)]
#[tactic(auto, using(crate::proofs::CellLemmas::live_in))]
fn is_live_in(words: &[u64], i: usize, bit: usize) -> bool
    requires index_below_length { i < length words.now }
    requires one_word { bit < 64 }
    ensures { result ≡ cell_at words.now (64 * i + bit) }
{
    (words[i] >> bit) & 1 == 1
}

// makes the cell at a place live or dead
#[inline(always)]
pub(crate) fn put_cell(words: &mut [u64], place: usize, value: bool)
    requires { place / 64 < length words.old }
    ensures { SetsCellAtPlace place value words.old words.new }
{
    let at = place / 64;
    let mask = 1u64 << (place % 64);
    if value {
        words[at] |= mask;
    } else {
        words[at] &= !mask;
    }
}

// makes the cells at `count` places of one word live
#[inline(always)]
#[tactic(auto, using(crate::proofs::FilledRuns::cells_filled))]
fn fill_in_word(words: &mut [u64], first: usize, count: usize)
    requires first_word_exists { first / 64 < length words.old }
    requires one_word { (0 < count) × (first % 64 + count ≤ 64) }
    ensures { FillsRowPart first count words.old words.new }
{
    words[first / 64] |= (0xFFFF_FFFF_FFFF_FFFF >> (64 - count)) << (first % 64);
}

// makes the cells at `count` places live, word by word
pub(crate) fn fill_cells(words: &mut [u64], first: usize, count: usize)
    requires run_within_words { first + count ≤ 64 * length words.old }
    requires word_count_fits_u32 { length words.old < 2 ^ 32 }
    ensures { FillsRowPart first count words.old words.new }
{
    let end = first + count;
    let mut at = first;
    while at < end {
        let next = end.min(64 * (at / 64 + 1));
        fill_in_word(words, at, next - at);
        at = next;
    }
}

// Whether a cell of the margin around the board is live. It is looked for in the pairs of rows that have a mark, of the
// partition whose first pair begins at word 0.
pub(crate) fn has_live_margin(
    words: &[u64],
    marks: &[u64],
    stride: usize,
    width: usize,
    height: usize,
) -> bool
    requires width { (width + 2 ≤ 64 * stride) × (stride ≤ max_words_in_row) }
    requires height { (height ≤ max_side) × (height % 2 ≡ 0) }
    requires word_count { length words.now ≡ stride * (height + 2) }
    requires marks { height / 2 + 1 ≤ 64 * length marks.now }
    requires unmarked { (y : ℕ) → y < height + 2 → IsNumberUnmarked marks.now (y / 2) →
        HasDeadMarginInRow width height (64 * stride) y words.now }
    ensures any_live { OnTrue result (HasLiveMargin width height (64 * stride) words.now) }
    ensures all_dead { result ≡ false → HasDeadMargin width height (64 * stride) words.now }
{
    let pairs = height / 2 + 1;
    let mut pair = next_marked(marks, 0, pairs);
    while pair < pairs {
        if has_live_margin_in_row(words, stride, width, height, 2 * pair)
            || has_live_margin_in_row(words, stride, width, height, 2 * pair + 1)
        {
            return true;
        }
        pair = next_marked(marks, pair + 1, pairs);
    }
    false
}

// Whether a cell of row y is live that belongs to the margin: the first, the one after the last of the board, and all
// in the first and the last row.
fn has_live_margin_in_row(
    words: &[u64],
    stride: usize,
    width: usize,
    height: usize,
    y: usize,
) -> bool
    requires width { (width + 2 ≤ 64 * stride) × (stride ≤ max_words_in_row) }
    requires height { height ≤ max_side }
    requires row { y < height + 2 }
    requires word_count { length words.now ≡ stride * (height + 2) }
    ensures any_live { OnTrue result (HasLiveMargin width height (64 * stride) words.now) }
    ensures all_dead { result ≡ false → HasDeadMarginInRow width height (64 * stride) y words.now }
{
    let first = stride * y;
    // The word of the last column is found once for all rows.
    let (word, bit) = ((width + 1) / 64, (width + 1) % 64);
    if is_live_in(words, first, 0) || is_live_in(words, first + word, bit) {
        return true;
    }
    if 0 < y && y <= height {
        return false;
    }
    let end = 64 * first + (width + 2);
    next_marked(words, 64 * first, end) < end
}
