//! Many blocks at a time, on words of bits.

ghost use Rattle.std.specs.Prelude.{◌≡◌, ◌+◌, ◌<◌, ◌≤◌, ℕ, length};
ghost use Rattle.bbm_rule.specs.Words.{AreCornerWordsTurned, AreCornerWordsTurnedAt, TurnsCornerWordsBetween};

use std::simd::prelude::*;

/// Turns 64 blocks: bit j of the four words is the upper left, upper right, lower left and lower right cell of block j,
/// a set bit being a live cell. The new words are given in the same order.
#[inline(always)]
#[tactic(auto, using(crate::proofs::Turning::words_turned))]
pub fn turn_words(
    upper_left: u64,
    upper_right: u64,
    lower_left: u64,
    lower_right: u64,
) -> (u64, u64, u64, u64)
    ensures { AreCornerWordsTurned upper_left upper_right lower_left lower_right result.0 result.1
        result.2 result.3 }
{
    // `a ^ (a & b)` stands for `a & !b`.
    let main = upper_left ^ lower_right;
    let anti = upper_right ^ lower_left;
    let changed = (upper_left | lower_right) ^ (upper_right | lower_left);
    let flip_main = changed ^ (changed & anti);
    let flip_anti = changed ^ (changed & main);
    (
        upper_left ^ flip_main,
        upper_right ^ flip_anti,
        lower_left ^ flip_anti,
        lower_right ^ flip_main,
    )
}

// The blocks of four words at each corner, turned.
#[inline(always)]
#[tactic(auto, using(crate::proofs::Lanes::vectors_turned, crate::proofs::Lanes::vectors_long))]
fn turn_vectors(
    upper_lefts: u64x4,
    upper_rights: u64x4,
    lower_lefts: u64x4,
    lower_rights: u64x4,
) -> (u64x4, u64x4, u64x4, u64x4)
    ensures lanes { (k : ℕ) → k < 4 →
        AreCornerWordsTurnedAt k upper_lefts upper_rights lower_lefts lower_rights result.0 result.1
        result.2 result.3 }
    ensures lengths_are_4 { (length result.0 ≡ 4) × (length result.1 ≡ 4) × (length result.2 ≡ 4)
        × (length result.3 ≡ 4) }
{
    let main = upper_lefts ^ lower_rights;
    let anti = upper_rights ^ lower_lefts;
    let changed = (upper_lefts | lower_rights) ^ (upper_rights | lower_lefts);
    let flip_main = changed ^ (changed & anti);
    let flip_anti = changed ^ (changed & main);
    (
        upper_lefts ^ flip_main,
        upper_rights ^ flip_anti,
        lower_lefts ^ flip_anti,
        lower_rights ^ flip_main,
    )
}

// turns the words at four places from `at` on
#[inline(always)]
#[tactic(auto, using(crate::proofs::Lanes::chunk_turned))]
fn turn_four_words_at(
    upper_left: &mut [u64],
    upper_right: &mut [u64],
    lower_left: &mut [u64],
    lower_right: &mut [u64],
    at: usize,
)
    requires { (at + 4 ≤ length upper_left.old) × (at + 4 ≤ length upper_right.old)
        × (at + 4 ≤ length lower_left.old) × (at + 4 ≤ length lower_right.old) }
    ensures { TurnsCornerWordsBetween at (at + 4) upper_left.old upper_right.old lower_left.old
        lower_right.old upper_left.new upper_right.new lower_left.new lower_right.new }
{
    let (a, b, c, d) = turn_vectors(
        u64x4::from_slice(&upper_left[at..]),
        u64x4::from_slice(&upper_right[at..]),
        u64x4::from_slice(&lower_left[at..]),
        u64x4::from_slice(&lower_right[at..]),
    );
    a.copy_to_slice(&mut upper_left[at..]);
    b.copy_to_slice(&mut upper_right[at..]);
    c.copy_to_slice(&mut lower_left[at..]);
    d.copy_to_slice(&mut lower_right[at..]);
}

// turns the words at one place
#[inline(always)]
fn turn_word_at(
    upper_left: &mut [u64],
    upper_right: &mut [u64],
    lower_left: &mut [u64],
    lower_right: &mut [u64],
    at: usize,
)
    requires { (at < length upper_left.old) × (at < length upper_right.old)
        × (at < length lower_left.old) × (at < length lower_right.old) }
    ensures { TurnsCornerWordsBetween at (at + 1) upper_left.old upper_right.old lower_left.old
        lower_right.old upper_left.new upper_right.new lower_left.new lower_right.new }
{
    let (a, b, c, d) = turn_words(
        upper_left[at],
        upper_right[at],
        lower_left[at],
        lower_right[at],
    );
    upper_left[at] = a;
    upper_right[at] = b;
    lower_left[at] = c;
    lower_right[at] = d;
}

/// Turns the blocks of four slices of the same length, 64 at each place, as [`turn_words`] does: upper left, upper
/// right, lower left and lower right cells.
pub fn turn_lanes(
    upper_left: &mut [u64],
    upper_right: &mut [u64],
    lower_left: &mut [u64],
    lower_right: &mut [u64],
)
    requires upper { length upper_right.old ≡ length upper_left.old }
    requires left { length lower_left.old ≡ length upper_left.old }
    requires right { length lower_right.old ≡ length upper_left.old }
    ensures { (k : ℕ) → k < length upper_left.old →
        AreCornerWordsTurnedAt k upper_left.old upper_right.old lower_left.old lower_right.old
        upper_left.new upper_right.new lower_left.new lower_right.new }
{
    let n = upper_left.len();
    let mut at = 0;
    while n - at >= 4 {
        turn_four_words_at(upper_left, upper_right, lower_left, lower_right, at);
        at += 4;
    }
    for k in at..n {
        turn_word_at(upper_left, upper_right, lower_left, lower_right, k);
    }
}
