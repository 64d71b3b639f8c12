//! Blocks of words: what a turn changes of them.

ghost use Rattle.bbm_rule.specs.Words.{AreCornerWordsTurned};
ghost use Rattle.lanes.specs.Blocks.{is_main_diagonal};
ghost use Rattle.lanes.specs.Turns.{IsDiagonalStable, SwapsPart, TurnsPart, is_on_main_diagonal};
ghost use Rattle.std.specs.Prelude.{ℕ, ◌≡◌, ◌+◌, ◌-◌, ◌%◌, ◌^◌, ◌<◌, ◌≤◌, ◌⊎◌, length, bit_xor, slice_index, false, true, not};

use crate::blocks::{BlockPlaces, Diagonal};
use bbm_rule::turn_lanes;

/// Turns blocks whose cells have their words from a place of their own on in each plane.
#[inline(always)]
pub(crate) fn turn_part(
    odd: &mut [u64],
    right: &mut [u64],
    down: &mut [u64],
    even: &mut [u64],
    at: BlockPlaces,
    long: usize,
)
    requires first { (at.odd + long ≤ length odd.old)
        × (at.right + long ≤ length right.old) }
    requires last { (at.down + long ≤ length down.old)
        × (at.even + long ≤ length even.old) }
    ensures { TurnsPart at.odd at.right at.down at.even long
        odd.old right.old down.old even.old odd.new right.new
        down.new even.new }
{
    turn_lanes(
        &mut odd[at.odd..at.odd + long],
        &mut right[at.right..at.right + long],
        &mut down[at.down..at.down + long],
        &mut even[at.even..at.even + long],
    );
}

// Exchanges four words from a place on in one slice, and four from a place on in another. All are read before the first
// is written, so that some are exchanged at once.
#[inline(always)]
fn swap_four_words(first: &mut [u64], second: &mut [u64], a: usize, b: usize)
    requires { (a + 4 ≤ length first.old) × (b + 4 ≤ length second.old) }
    ensures { SwapsPart a b 4 first.old second.old first.new second.new }
{
    let (a0, a1, a2, a3) = (first[a], first[a + 1], first[a + 2], first[a + 3]);
    let (b0, b1, b2, b3) = (second[b], second[b + 1], second[b + 2], second[b + 3]);
    first[a] = b0;
    first[a + 1] = b1;
    first[a + 2] = b2;
    first[a + 3] = b3;
    second[b] = a0;
    second[b + 1] = a1;
    second[b + 2] = a2;
    second[b + 3] = a3;
}

/// Exchanges the words from a place on in one slice, and as many from a place on in another.
#[inline(always)]
pub(crate) fn swap_part(first: &mut [u64], second: &mut [u64], a: usize, b: usize, long: usize)
    requires { (a + long ≤ length first.old) × (b + long ≤ length second.old) }
    ensures { SwapsPart a b long first.old second.old first.new second.new }
{
    // The loops over words cost more than one word.
    if long == 1 {
        let word = first[a];
        first[a] = second[b];
        second[b] = word;
        return;
    }
    let mut k = 0;
    while k + 4 <= long {
        swap_four_words(first, second, a + k, b + k);
        k += 4;
    }
    while k < long {
        let word = first[a + k];
        first[a + k] = second[b + k];
        second[b + k] = word;
        k += 1;
    }
}

// The words that a turn flips of a block's main diagonal, and of the other one.
#[tactic(auto, using(bbm_rule::proofs::Turning::words_turned))]
#[inline(always)]
fn flips_of(upper_left: u64, upper_right: u64, lower_left: u64, lower_right: u64) -> (u64, u64)
    ensures turned { AreCornerWordsTurned upper_left upper_right lower_left lower_right
        (bit_xor upper_left result.0) (bit_xor upper_right result.1) (bit_xor lower_left result.1)
        (bit_xor lower_right result.0) }
    ensures main { result.0 ≡ 0 → IsDiagonalStable upper_left lower_right upper_right lower_left }
    ensures anti { result.1 ≡ 0 → IsDiagonalStable upper_right lower_left upper_left lower_right }
{
    // `a ^ (a & b)` stands for `a & !b`.
    let changed = (upper_left | lower_right) ^ (upper_right | lower_left);
    (
        changed ^ (changed & (upper_right ^ lower_left)),
        changed ^ (changed & (upper_left ^ lower_right)),
    )
}

/// Returns whether some word from a place on in one slice is not that from a place on in another.
#[tactic(auto, using(lemmas::proofs::Common::cases_lt, crate::proofs::TurnLemmas::none_first, crate::proofs::TurnLemmas::same_word, crate::proofs::TurnLemmas::none_last))]
#[inline(always)]
pub(crate) fn are_words_different(
    first: &[u64],
    a: usize,
    second: &[u64],
    b: usize,
    long: usize,
) -> bool
    requires { (a + long ≤ length first.now) × (b + long ≤ length second.now) }
    ensures { result ≡ false → (k : ℕ) → k < long →
        slice_index first.now (a + k) ≡ slice_index second.now (b + k) }
{
    // The loop costs more than one word.
    if long == 1 {
        return first[a] != second[b];
    }
    let mut difference = 0;
    // Over all words, so that some are compared at once.
    for k in 0..long {
        difference |= first[a + k] ^ second[b + k];
    }
    difference != 0
}

/// Returns whether some word from a place on is not the given one.
#[tactic(auto, using(lemmas::proofs::Common::cases_lt, crate::proofs::TurnLemmas::none_first, crate::proofs::TurnLemmas::same_word, crate::proofs::TurnLemmas::none_last))]
#[inline(always)]
pub(crate) fn has_word_other_than(words: &[u64], a: usize, word: u64, long: usize) -> bool
    requires { a + long ≤ length words.now }
    ensures { result ≡ false → (k : ℕ) → k < long → slice_index words.now (a + k) ≡ word }
{
    // The loop costs more than one word.
    if long == 1 {
        return words[a] != word;
    }
    let mut difference = 0;
    for k in 0..long {
        difference |= words[a + k] ^ word;
    }
    difference != 0
}

/// The diagonals of a block that a turn changes: that of its upper left and lower right cells, and the other one.
#[derive(Clone, Copy)]
pub struct ChangedDiagonals {
    /// The cells of the main diagonal.
    pub main: bool,
    /// The cells of the other diagonal.
    pub anti: bool,
}

impl ChangedDiagonals {
    /// Returns the change of one diagonal alone.
    #[inline(always)]
    pub fn of(diagonal: Diagonal) -> ChangedDiagonals
        ensures main { result.main ≡ is_main_diagonal diagonal }
        ensures anti { result.anti ≡ not (is_main_diagonal diagonal) }
    {
        let main = matches!(diagonal, Diagonal::Main);
        ChangedDiagonals { main, anti: !main }
    }

    /// Returns the change of the diagonal alone that a cell, counted from the halo, is on in its block of the odd
    /// partition.
    pub fn of_cell(x: usize, y: usize) -> ChangedDiagonals
        ensures main { result.main ≡ is_on_main_diagonal x y }
        ensures anti { result.anti ≡ not (is_on_main_diagonal x y) }
    {
        let main = x % 2 == y % 2;
        ChangedDiagonals { main, anti: !main }
    }

    /// Returns whether the turn changes no diagonal, so that the block stays.
    pub fn is_none(self) -> bool
        ensures main { result ≡ true → self.main ≡ false }
        ensures anti { result ≡ true → self.anti ≡ false }
        ensures some_if_false { result ≡ false → (self.main ≡ true) ⊎ (self.anti ≡ true) }
    {
        !self.main && !self.anti
    }
}

/// Turns the blocks of one word in each plane.
#[tactic(auto, using(crate::proofs::LiveLemmas::one_turned))]
#[inline(always)]
pub(crate) fn turn_word(
    odd: &mut [u64],
    right: &mut [u64],
    down: &mut [u64],
    even: &mut [u64],
    at: BlockPlaces,
)
    requires first { (at.odd < length odd.old)
        × (at.right < length right.old) }
    requires last { (at.down < length down.old)
        × (at.even < length even.old) }
    ensures { TurnsPart at.odd at.right at.down at.even 1 odd.old
        right.old down.old even.old odd.new right.new down.new
        even.new }
{
    let (main, anti) = flips_of(odd[at.odd], right[at.right], down[at.down], even[at.even]);
    odd[at.odd] ^= main;
    right[at.right] ^= anti;
    down[at.down] ^= anti;
    even[at.even] ^= main;
}

/// Returns which diagonals a turn of the blocks of one word changes under some assignment.
#[inline(always)]
pub(crate) fn word_changes(
    upper_left: u64,
    upper_right: u64,
    lower_left: u64,
    lower_right: u64,
) -> ChangedDiagonals
    ensures main { result.main ≡ false →
        IsDiagonalStable upper_left lower_right upper_right lower_left }
    ensures anti { result.anti ≡ false →
        IsDiagonalStable upper_right lower_left upper_left lower_right }
{
    let (main, anti) = flips_of(upper_left, upper_right, lower_left, lower_right);
    ChangedDiagonals {
        main: main != 0,
        anti: anti != 0,
    }
}

/// Returns which diagonals a turn changes under some assignment.
#[inline(always)]
pub(crate) fn part_changes(
    odd: &[u64],
    right: &[u64],
    down: &[u64],
    even: &[u64],
    at: BlockPlaces,
    long: usize,
) -> ChangedDiagonals
    requires first { (at.odd + long ≤ length odd.now)
        × (at.right + long ≤ length right.now) }
    requires last { (at.down + long ≤ length down.now)
        × (at.even + long ≤ length even.now) }
    ensures main { result.main ≡ false → (k : ℕ) → k < long →
        IsDiagonalStable (slice_index odd.now (at.odd + k))
        (slice_index even.now (at.even + k))
        (slice_index right.now (at.right + k))
        (slice_index down.now (at.down + k)) }
    ensures anti { result.anti ≡ false → (k : ℕ) → k < long →
        IsDiagonalStable (slice_index right.now (at.right + k))
        (slice_index down.now (at.down + k))
        (slice_index odd.now (at.odd + k))
        (slice_index even.now (at.even + k)) }
{
    let mut main = 0;
    let mut anti = 0;
    // Over all words, so that some are taken at once.
    for k in 0..long {
        let (main_flips, anti_flips) = flips_of(
            odd[at.odd + k],
            right[at.right + k],
            down[at.down + k],
            even[at.even + k],
        );
        main |= main_flips;
        anti |= anti_flips;
    }
    ChangedDiagonals {
        main: main != 0,
        anti: anti != 0,
    }
}
