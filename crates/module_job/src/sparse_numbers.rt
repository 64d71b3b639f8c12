//! Lists of numbers of which most are 0.
ghost use Rattle.std.specs.Prelude.{◌≡◌, nat_eq, true, ◌*◌, ◌/◌, ◌^◌, ◌<◌, ◌≤◌, ◌++◌, [], ◌∷◌, ℕ, List, IfOk, OnErr, OnOk, length, replicate, slice_get, take, unwrap_or};
ghost use Rattle.std.specs.Cmp.{nat_eq_equiv, partial_equiv_from_equiv};
ghost use Rattle.std.specs.Cmp.Lexicographic.{lists_equiv, pointwise};
ghost use Rattle.bbm_rule.specs.Rows.{cell_at, SetsCellAtPlace};
ghost use Rattle.module_job.specs.Keys.{sparse_entries_from};

use bbm_rule::marks::next_marked;
use std::alloc::{AllocError, Global};
use std::marker::Model;

/// A list of numbers of which most are 0. Contracts see the list.
// It is kept as its length and its entries, which are those of a shape's key: for each number that is not 0 its place
// plus one, and then the number. Marks pass over most of the other places without a search.
#[derive(Drop)]
pub(crate) struct SparseNumbers {
    count: usize,
    entries: Vec<u64>,
    // a bit for each of the first places: a place without a mark has the number 0
    marks: Vec<u64>,
}

impl Model for SparseNumbers {
    ghost use Rattle.std.specs.Prelude.{List, ℕ};

    ghost Value = { List ℕ };

    ghost use Rattle.module_job.specs.SparseNumbers.{AreSparseEntries, sparse_view};

    ghost view = { sparse_view };

    ghost invariant = { AreSparseEntries };
}

// For how many words the first allocation of entries has room. Most lists are short, and are not moved then.
const FIRST_CAPACITY: usize = 64;

// Adds an entry: a place plus one, and its number.
fn push_place_and_number(entries: &mut Vec<u64>, place: u64, number: u64) -> Result<(), AllocError>
    ensures added { OnOk result (entries.new.items
        ≡ entries.old.items ++ place ∷ number ∷ []) }
    ensures unchanged_on_error { OnErr result (entries.new.items ≡ entries.old.items) }
{
    if entries.is_empty() {
        entries.reserve(FIRST_CAPACITY)?;
    }
    entries.extend_from_slice(&[place, number])
}

// Whether a place has a mark.
#[tactic(auto, using(bbm_rule::proofs::CellLemmas::cell_is))]
fn is_marked(marks: &[u64], at: usize) -> bool
    requires { at / 64 < length marks.now }
    ensures { result ≡ cell_at marks.now at }
{
    (marks[at / 64] >> (at % 64)) & 1 == 1
}

// Marks a place, if the marks have room for it.
fn mark_if_room(marks: &mut [u64], at: usize)
    ensures marked { at / 64 < length marks.old → SetsCellAtPlace at true marks.old marks.new }
    ensures unchanged_without_room { length marks.old ≤ at / 64 → marks.new ≡ marks.old }
{
    if at / 64 < marks.len() {
        marks[at / 64] |= 1u64 << (at % 64);
    }
}

// How many entries are of places before this one.
#[tactic(auto, using(crate::proofs::SparseLists::high_moves, crate::proofs::SparseLists::low_moves, crate::proofs::SparseLists::rank, crate::proofs::SparseLists::rank_below))]
fn count_entries_before(entries: &[u64], place: usize) -> usize
    ensures bound { 2 * result ≤ length entries.now }
    ensures length_prefixed { (numbers : List ℕ) → entries.now ≡ sparse_entries_from 0 numbers →
        2 * result ≡ length (sparse_entries_from 0 (take place numbers)) }
{
    let mut low = 0;
    let mut high = entries.len() / 2;
    while low < high {
        let middle = low + (high - low) / 2;
        if entries[2 * middle] <= place as u64 {
            low = middle + 1;
        } else {
            high = middle;
        }
    }
    low
}

impl SparseNumbers {
    /// Creates an empty list, with room for marks on the first places.
    #[tactic(auto, using(crate::proofs::SparseLists::no_entries, crate::proofs::SparseLists::no_marks, crate::proofs::SparseLists::no_number, crate::proofs::SparseLists::no_numbers))]
    pub(crate) fn new(alloc: Global, room: usize) -> Result<SparseNumbers, AllocError>
        ensures { IfOk result (λ numbers. numbers ≡ []) }
    {
        Ok(SparseNumbers {
            count: 0,
            entries: Vec::new(alloc),
            marks: vec![in alloc; 0u64; room.div_ceil(64)]?,
        })
    }

    /// Adds zeros.
    #[tactic(auto, using(crate::proofs::SparseLists::zeros_grow, crate::proofs::SparseLists::zeros_marked, crate::proofs::SparseLists::zeros_unmarked))]
    pub(crate) fn push_zeros(&mut self, count: usize) -> Result<(), AllocError>
        ensures added { OnOk result (self.new ≡ self.old ++ replicate count 0) }
        ensures unchanged_on_error { OnErr result (self.new ≡ self.old) }
    {
        match self.count.checked_add(count) {
            Some(sum) => {
                self.count = sum;
                Ok(())
            }
            None => Err(AllocError),
        }
    }

    /// Adds a number.
    #[inline(always)]
    #[tactic(auto, using(lemmas::proofs::Common::with_items_is, crate::proofs::SparseLists::number_grows, crate::proofs::SparseLists::number_marked, crate::proofs::SparseLists::number_unmarked))]
    pub(crate) fn push(&mut self, number: u64) -> Result<(), AllocError>
        ensures added { OnOk result (self.new ≡ self.old ++ number ∷ []) }
        ensures unchanged_on_error { OnErr result (self.new ≡ self.old) }
    {
        if number == 0 {
            return self.push_zeros(1);
        }
        let place = self.count;
        if place == usize::MAX {
            return Err(AllocError);
        }
        push_place_and_number(&mut self.entries, place as u64 + 1, number)?;
        mark_if_room(&mut self.marks, place);
        self.count = place + 1;
        Ok(())
    }

    /// Returns the number at a place, or 0 behind the last one.
    pub(crate) fn at(&self, place: usize) -> u64
        ensures { result ≡ unwrap_or (slice_get self.now place) 0 }
    {
        if self.count <= place {
            return 0;
        }
        if place / 64 < self.marks.len() && !is_marked(&self.marks, place) {
            return 0;
        }
        let at = 2 * count_entries_before(&self.entries, place);
        if at + 1 < self.entries.len() && self.entries[at] == place as u64 + 1 {
            return self.entries[at + 1];
        }
        0
    }

    /// Returns the number at a place, or 0 behind the last one, as `at` does. If the place is that of entry `near`, it
    /// is not sought.
    #[inline(always)]
    #[tactic(auto, using(crate::proofs::SparseLists::number_near))]
    pub(crate) fn at_near(&self, place: usize, near: usize) -> u64
        ensures { result ≡ unwrap_or (slice_get self.now place) 0 }
    {
        if place < self.count
            && near < self.entries.len() / 2
            && self.entries[2 * near] == place as u64 + 1
        {
            return self.entries[2 * near + 1];
        }
        self.at(place)
    }

    /// Returns whether the number at a place is 0, or the place is behind the last one.
    #[inline(always)]
    pub(crate) fn is_zero(&self, place: usize) -> bool
        ensures { result ≡ nat_eq (unwrap_or (slice_get self.now place) 0) 0 }
    {
        if place / 64 < self.marks.len() {
            return !is_marked(&self.marks, place);
        }
        self.at(place) == 0
    }

    /// Returns a place from `place` to `end`, such that all numbers from `place` to before it are 0.
    ///
    /// Contracts do not exclude that the number at the result is 0 too. It is `place` itself if the marks end before
    /// `end`.
    pub(crate) fn skip_zeros(&self, place: usize, end: usize) -> usize
        requires { (place ≤ end) × (end < 2 ^ 32) }
        ensures range { (place ≤ result) × (result ≤ end) }
        ensures zeros { (u : ℕ) → place ≤ u → u < result →
            unwrap_or (slice_get self.now u) 0 ≡ 0 }
    {
        if end.div_ceil(64) > self.marks.len() {
            return place;
        }
        next_marked(&self.marks, place, end)
    }

    /// Adds to the numbers how many there are, the entries, and a 0.
    #[tactic(auto, using(crate::proofs::SparseLists::all_entered))]
    pub(crate) fn push_entries(&self, numbers: &mut Vec<u64>) -> Result<(), AllocError>
        ensures { OnOk result (numbers.new.items
            ≡ numbers.old.items ++ (length self.now ∷ sparse_entries_from 0 self.now ++ 0 ∷ [])) }
    {
        numbers.push(self.count as u64)?;
        numbers.extend_from_slice(&self.entries)?;
        numbers.push(0)?;
        Ok(())
    }
}

impl PartialEq for SparseNumbers {
    ghost use Rattle.std.specs.Prelude.{nat_eq};

    ghost eq = { pointwise nat_eq };

    ghost laws = { partial_equiv_from_equiv (lists_equiv nat_eq_equiv) };

    // The marks follow from the entries.
    #[tactic(auto, using(crate::proofs::SparseLists::same_fields))]
    fn eq(&self, other: &SparseNumbers) -> bool {
        let count = self.count == other.count;
        let entries = self.entries == other.entries;
        count & entries
    }
}
