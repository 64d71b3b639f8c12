//! Marks on numbers: a bit for each.

ghost use Rattle.std.specs.Prelude.{ℕ, ◌≡◌, ◌≢◌, ◌+◌, ◌*◌, ◌/◌, ◌^◌, ◌<◌, ◌≤◌, length, true, false};
ghost use Rattle.bbm_rule.specs.Marks.{IsNumberUnmarked, MarksOneNumber};
ghost use Rattle.bbm_rule.specs.Rows.{cell_at, SetsCellAtPlace};

/// Returns the first number from `from` on that has a mark, or `end` if there is none below it.
#[tactic(auto, using(crate::proofs::MarkLemmas::none_before, crate::proofs::MarkLemmas::whole_before, crate::proofs::MarkLemmas::whole_zero, crate::proofs::BitLemmas::by_lt_or_le))]
pub fn next_marked(marks: &[u64], from: usize, end: usize) -> usize
    requires range_within_marks { (from ≤ end) × (end ≤ 64 * length marks.now) × (end < 2 ^ 32) }
    ensures range { (from ≤ result) × (result ≤ end) }
    ensures passed_unmarked { (u : ℕ) → from ≤ u → u < result → IsNumberUnmarked marks.now u }
    ensures marked { result < end → cell_at marks.now result ≡ true }
{
    if from == end {
        return end;
    }
    let rest = marks[from / 64] >> (from % 64);
    if rest != 0 {
        return (from + rest.trailing_zeros() as usize).min(end);
    }
    // A whole word is read without a shift.
    for k in from / 64 + 1..end.div_ceil(64) {
        let whole = marks[k];
        if whole != 0 {
            return (64 * k + whole.trailing_zeros() as usize).min(end);
        }
    }
    end
}

/// Returns the first number from `from` on that has no mark, or `end` if all below it have one.
#[tactic(auto, using(crate::proofs::BitLemmas::by_lt_or_le, crate::proofs::GapLemmas::all_before, crate::proofs::GapLemmas::all_in_word, crate::proofs::GapLemmas::first_unmarked))]
pub fn next_unmarked(marks: &[u64], from: usize, end: usize) -> usize
    requires range_within_marks { (from ≤ end) × (end ≤ 64 * length marks.now) × (end < 2 ^ 32) }
    ensures range { (from ≤ result) × (result ≤ end) }
    ensures passed_marked { (u : ℕ) → from ≤ u → u < result → cell_at marks.now u ≡ true }
    ensures unmarked { result < end → IsNumberUnmarked marks.now result }
{
    let mut at = from;
    while at < end {
        let rest = !marks[at / 64] >> (at % 64);
        if rest != 0 {
            let found = at + rest.trailing_zeros() as usize;
            return if found < end { found } else { end };
        }
        at = 64 * (at / 64 + 1);
    }
    end
}

/// Marks a number.
#[inline(always)]
pub fn mark(marks: &mut [u64], at: usize)
    requires { at / 64 < length marks.old }
    ensures { MarksOneNumber at marks.old marks.new }
{
    marks[at / 64] |= 1u64 << (at % 64);
}

/// Takes the mark off a number.
#[inline(always)]
pub fn unmark(marks: &mut [u64], at: usize)
    requires { at / 64 < length marks.old }
    ensures { SetsCellAtPlace at false marks.old marks.new }
{
    marks[at / 64] &= !(1u64 << (at % 64));
}

/// Marks the number that is less than `at` by the distance, if there is one.
#[inline(always)]
pub fn mark_number_before(marks: &mut [u64], at: usize, distance: usize)
    requires { at / 64 < length marks.old }
    ensures { (u : ℕ) → IsNumberUnmarked marks.new u →
        IsNumberUnmarked marks.old u × (u + distance ≢ at) }
{
    if distance <= at {
        mark(marks, at - distance);
    }
}

/// Marks all numbers.
pub fn mark_all(marks: &mut [u64])
    ensures { (u : ℕ) → u < 64 * length marks.new → IsNumberUnmarked marks.new u → ⊥ }
{
    for k in 0..marks.len() {
        marks[k] = 0xFFFF_FFFF_FFFF_FFFF;
    }
}
