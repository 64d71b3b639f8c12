//! A plane of bits in rows of words, whose blocks are turned in place. The cell at place p of the plane is bit p % 64
//! of word p / 64, and a row is `stride` words.

ghost use Rattle.std.specs.Prelude.{◌≡◌, ◌+◌, ◌*◌, ◌<◌, ◌≤◌, ◌^◌, ◌-◌, length, false};
ghost use Rattle.bbm_rule.specs.Bands.{AreUnmarkedRowPairsStable};
ghost use Rattle.bbm_rule.specs.Bits.{AreSameBits, HasNoSetBit};
ghost use Rattle.bbm_rule.specs.Rows.{AreFlipBitsForTurn, AreSameCells, HasWordAt, IsWordPairTurned, TurnsRowPart, TurnsRows, flip_carried_bits};

use crate::marks::{mark, mark_number_before, next_marked, unmark};

// the first cell of each pair
const FIRST_OF_PAIR: u64 = 0x5555_5555_5555_5555;

// the second cell of each pair
const SECOND_OF_PAIR: u64 = 0xAAAA_AAAA_AAAA_AAAA;

// Returns which blocks flip their upper left and lower right cell, which flip the other two, and which change. A bit of
// `lefts` is a block: that bit of `upper` and `lower` is a left cell of it, and that of the two next words a right one.
#[inline(always)]
fn block_flips(
    lefts: u64,
    upper: u64,
    upper_next: u64,
    lower: u64,
    lower_next: u64,
) -> (u64, u64, u64)
    ensures flips { AreFlipBitsForTurn lefts upper upper_next lower lower_next result.0 result.1 }
    ensures no_flips_if_zero { HasNoSetBit result.2 → HasNoSetBit result.0 × HasNoSetBit result.1 }
{
    let main = upper ^ lower_next;
    let anti = upper_next ^ lower;
    let changed = ((upper | lower_next) ^ (upper_next | lower)) & lefts;
    // `a ^ (a & b)` stands for `a & !b`.
    (
        changed ^ (changed & anti),
        changed ^ (changed & main),
        changed,
    )
}

// Turns the 32 blocks of two words that lie one above the other. The third word has a bit for each block that changes.
#[inline(always)]
#[tactic(auto, using(crate::proofs::PairLemmas::pairs_turned, crate::proofs::PairLemmas::flipped_same))]
fn turn_word_pair(upper: u64, lower: u64) -> (u64, u64, u64)
    ensures turned { IsWordPairTurned upper lower result.0 result.1 }
    ensures stays { HasNoSetBit result.2 → AreSameBits upper result.0 × AreSameBits lower result.1 }
{
    let (main, anti, changed) = block_flips(FIRST_OF_PAIR, upper, upper >> 1, lower, lower >> 1);
    (
        upper ^ (main | (anti << 1)),
        lower ^ (anti | (main << 1)),
        changed,
    )
}

// the 64 cells from the second cell of word i on
#[inline(always)]
#[tactic(auto, using(crate::proofs::PairLemmas::window_is))]
fn word_from_second_cell(words: &[u64], i: usize) -> u64
    requires { i + 1 < length words.now }
    ensures { HasWordAt words.now (64 * i + 1) result }
{
    (words[i] >> 1) | (words[i + 1] << 63)
}

// Turns the blocks of two rows of words, whose blocks begin at the first cell of each. Answers whether a cell changed.
#[inline(always)]
fn turn_aligned(words: &mut [u64], upper: usize, stride: usize) -> bool
    requires rows_inside { upper + stride + stride ≤ length words.old }
    requires stride_positive { 0 < stride }
    ensures turned { TurnsRowPart (64 * upper) (64 * stride) (64 * stride) words.old words.new }
    ensures same_cells { result ≡ false → AreSameCells words.old words.new }
{
    let mut changed = 0;
    for k in 0..stride {
        let i = upper + k;
        let (a, b, told) = turn_word_pair(words[i], words[i + stride]);
        changed |= told;
        words[i] = a;
        words[i + stride] = b;
    }
    changed != 0
}

// Turns the blocks that begin at the second cell of word i and of the word a row below. `main` and `anti` are the flips
// of the two words before, whose last block has its right cells in these two. Returns the flips of these two, and a bit
// for each block that changes.
#[inline(always)]
fn turn_words_shifted(
    words: &mut [u64],
    i: usize,
    stride: usize,
    main: u64,
    anti: u64,
) -> (u64, u64, u64)
    requires rows_inside { i + stride + 1 < length words.old }
    requires stride_positive { 0 < stride }
    requires no_main_at_stride_1 { stride ≡ 1 → main ≡ 0 }
    ensures turned { TurnsRowPart (64 * i + 1) 64 (64 * stride)
        (flip_carried_bits i stride main anti words.old)
        (flip_carried_bits (i + 1) stride result.0 result.1 words.new) }
    ensures stays { HasNoSetBit result.2 →
        AreSameCells (flip_carried_bits i stride main anti words.old)
        (flip_carried_bits (i + 1) stride result.0 result.1 words.new) }
{
    let (upper, lower) = (words[i], words[i + stride]);
    let (next_main, next_anti, changed) = block_flips(
        SECOND_OF_PAIR,
        upper,
        word_from_second_cell(words, i),
        lower,
        word_from_second_cell(words, i + stride),
    );
    words[i] = upper ^ (anti >> 63) ^ (next_main | (next_anti << 1));
    words[i + stride] = lower ^ (main >> 63) ^ (next_anti | (next_main << 1));
    (next_main, next_anti, changed)
}

// Turns the blocks of two rows that begin at the second cell of each word. The compiler turns several words at a time
// only if the loop keeps whole words of flips, and does not read the lower row's first word as the one behind the upper
// row.
#[inline(always)]
fn turn_shifted(words: &mut [u64], upper: usize, stride: usize) -> bool
    requires rows_inside { upper + stride + stride < length words.old }
    requires stride_positive { 0 < stride }
    ensures turned { TurnsRowPart (64 * upper + 1) (64 * stride) (64 * stride) words.old words.new }
    ensures same_cells { result ≡ false → AreSameCells words.old words.new }
{
    let (mut main, mut anti, mut changed) = (0, 0, 0);
    for k in 0..stride - 1 {
        let (next_main, next_anti, told) = turn_words_shifted(words, upper + k, stride, main, anti);
        main = next_main;
        anti = next_anti;
        changed |= told;
    }
    let (last_main, last_anti, told) = turn_words_shifted(
        words,
        upper + (stride - 1),
        stride,
        main,
        anti,
    );
    words[upper + stride] ^= last_anti >> 63;
    words[upper + stride + stride] ^= last_main >> 63;
    (changed | told) != 0
}

/// Turns the blocks of all pairs of rows, the first of which begins at word 0. A pair without a mark stays, and is
/// passed over. `own` has the marks of these pairs, and `others` those of the pairs of the other partition.
#[tactic(auto, using(crate::proofs::BandLemmas::rows_until, crate::proofs::BlockRuns::no_rows, crate::proofs::BlockRuns::rows_room))]
pub(crate) fn turn_all_aligned(
    words: &mut [u64],
    own: &mut [u64],
    others: &mut [u64],
    stride: usize,
    pairs: usize,
)
    requires pairs_inside { 2 * (pairs * stride) ≤ length words.old }
    requires stride_positive { 0 < stride }
    requires word_count_fits_u32 { length words.old < 2 ^ 32 }
    requires marks { (pairs ≤ 64 * length own.old) × (pairs ≤ 64 * length others.old) }
    requires own_calm { AreUnmarkedRowPairsStable 0 (64 * stride) pairs own.old words.old }
    requires others_calm { AreUnmarkedRowPairsStable (64 * stride + 1) (64 * stride) (pairs - 1)
        others.old words.old }
    ensures turned { TurnsRows 0 (64 * stride) pairs words.old words.new }
    ensures own_calm { AreUnmarkedRowPairsStable 0 (64 * stride) pairs own.new words.new }
    ensures others_calm { AreUnmarkedRowPairsStable (64 * stride + 1) (64 * stride) (pairs - 1)
        others.new words.new }
{
    let mut pair = next_marked(own, 0, pairs);
    while pair < pairs {
        if turn_aligned(words, 2 * (pair * stride), stride) {
            mark(own, pair);
            mark(others, pair);
            mark_number_before(others, pair, 1);
        } else {
            unmark(own, pair);
        }
        pair = next_marked(own, pair + 1, pairs);
    }
}

/// Turns the blocks of all pairs of rows but the first row, from the second cell on, in the same way.
#[tactic(auto, using(crate::proofs::BandLemmas::rows_until, crate::proofs::BlockRuns::no_rows, crate::proofs::BlockRuns::rows_room))]
pub(crate) fn turn_all_shifted(
    words: &mut [u64],
    own: &mut [u64],
    others: &mut [u64],
    stride: usize,
    pairs: usize,
)
    requires pairs_inside { stride + 2 * (pairs * stride) < length words.old }
    requires stride_positive { 0 < stride }
    requires word_count_fits_u32 { length words.old < 2 ^ 32 }
    requires marks { (pairs ≤ 64 * length own.old) × (pairs + 1 ≤ 64 * length others.old) }
    requires own_calm { AreUnmarkedRowPairsStable (64 * stride + 1) (64 * stride) pairs own.old
        words.old }
    requires others_calm { AreUnmarkedRowPairsStable 0 (64 * stride) (pairs + 1) others.old
        words.old }
    ensures turned { TurnsRows (64 * stride + 1) (64 * stride) pairs words.old words.new }
    ensures own_calm { AreUnmarkedRowPairsStable (64 * stride + 1) (64 * stride) pairs own.new
        words.new }
    ensures others_calm { AreUnmarkedRowPairsStable 0 (64 * stride) (pairs + 1) others.new
        words.new }
{
    let mut pair = next_marked(own, 0, pairs);
    while pair < pairs {
        if turn_shifted(words, stride + 2 * (pair * stride), stride) {
            mark(own, pair);
            mark(others, pair);
            mark(others, pair + 1);
        } else {
            unmark(own, pair);
        }
        pair = next_marked(own, pair + 1, pairs);
    }
}
