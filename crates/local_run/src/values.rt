//! The values of the wires of a job under all assignments of its cuts.
ghost use Rattle.std.specs.Prelude.{ℕ, ◌≡◌, ◌≢◌, ◌+◌, ◌*◌, ◌/◌, ◌^◌, ◌<◌, ◌≤◌, false, true, length, IfOk};
ghost use Rattle.bbm_rule.specs.Bits.{bit};
ghost use Rattle.module_job.specs.Jobs.{IsJob};
ghost use Rattle.module_job.specs.Signals.{is_live};
ghost use Rattle.lanes.specs.Lanes.{HasSourceWords, lane, word_of_source};
ghost use Rattle.local_run.specs.Scans.{HasValueRow, IsLeastBelow, IsRunReady, IsCellAsSignalUnderWords, KeepsDefinedValues, PutsSignalInCell, is_defined_under, valuation};
ghost use Rattle.module_box.specs.LocalValues.{value_of};
ghost use Rattle.lanes.specs.Settled.{AreSettledBlocksUnchanged};

use lanes::{MarkedPlanes, Planes, WordSource};
use module_box::{Signal, ValueRows};
use module_job::Job;
use std::alloc::{AllocError, Global};

// The rows, in which the values are made false under the assignments under which some used gate lacks a row.
fn with_false_where_undefined(rows: ValueRows) -> ValueRows
    requires defined_not_empty { 0 < length rows.defined.items }
    ensures defined { result.defined ≡ rows.defined }
    ensures undefined { result.undefined ≡ rows.undefined }
    ensures length_unchanged { length result.values.items ≡ length rows.values.items }
    ensures keeps { KeepsDefinedValues rows.defined.items rows.values.items
        result.values.items }
{
    let ValueRows {
        values,
        undefined,
        defined,
    } = rows;
    let mut values = values;
    clear_values_where_undefined(&mut values, &defined);
    ValueRows {
        values,
        undefined,
        defined,
    }
}

// Makes the values false under the assignments under which some used gate lacks a row. No fault is sought under these,
// and a run in which all wires are false changes less.
fn clear_values_where_undefined(values: &mut [u64], defined: &[u64])
    requires defined_not_empty { 0 < length defined.now }
    ensures length_unchanged { length values.new ≡ length values.old }
    ensures keeps { KeepsDefinedValues defined.now values.old values.new }
{
    if defined.iter().all(|word| *word == 0xFFFF_FFFF_FFFF_FFFF) {
        return;
    }
    let words = defined.len();
    for k in 0..values.len() {
        values[k] &= defined[k % words];
    }
}

/// The values of a job's wires: for each wire a row of words, in which bit b of word k is its value under assignment 64
/// k + b.
///
/// It also has the assignments under which each used gate has a row, and for each gate those under which it is the
/// first without one.
#[derive(Drop)]
pub struct Values {
    // the words of a wire
    words: usize,
    // how many assignments there are
    count: usize,
    rows: ValueRows,
}

impl Values {
    /// Computes the values of the wires of a job under all assignments of its cuts.
    pub fn of(alloc: Global, job: &Job) -> Result<Values, AllocError>
        requires { IsJob job.now }
        ensures { IfOk result (λ vs. IsRunReady job.now vs) }
    {
        let wiring = job.wiring();
        let count = 1usize << wiring.cuts();
        let words = count.div_ceil(64);
        let rows = with_false_where_undefined(wiring.value_rows(alloc, words)?);
        Ok(Values { words, count, rows })
    }

    /// Returns how many words a wire has.
    pub fn words(&self) -> usize
        ensures { result ≡ self.now.words }
    {
        self.words
    }

    // The words of a signal: a constant, or those of its row.
    #[tactic(auto, using(bbm_rule::proofs::MarkLemmas::bit_ones, crate::proofs::Scans::value_in_word))]
    #[inline(always)]
    fn source(&self, signal: Signal) -> WordSource
        requires { HasValueRow self.now signal }
        ensures words { HasSourceWords self.now.words self.now.rows.values.items result }
        ensures values { (k b : ℕ) → k < self.now.words → b < 64 →
            bit (word_of_source self.now.rows.values.items result k) b
            ≡ is_live (valuation self.now (64 * k + b)) signal }
    {
        match signal {
            Signal::Zero => WordSource::Constant(0),
            Signal::One => WordSource::Constant(0xFFFF_FFFF_FFFF_FFFF),
            Signal::Wire(wire) => WordSource::From(self.words * wire as usize),
        }
    }

    /// Returns word k of a signal: bit b is whether it is true under assignment 64 k + b.
    #[inline(always)]
    pub fn word(&self, signal: Signal, k: usize) -> u64
        requires { (k < self.now.words) × HasValueRow self.now signal }
        ensures { (b : ℕ) → b < 64 →
            bit result b ≡ is_live (valuation self.now (64 * k + b)) signal }
    {
        self.source(signal).word(&self.rows.values, k)
    }

    /// Returns the least assignment at which each used gate has a row and a cell is not as the signal says.
    ///
    /// The cell is counted from the halo.
    #[inline(always)]
    pub fn first_difference_where_defined(
        &self,
        planes: &Planes,
        x: usize,
        y: usize,
        signal: Signal,
    ) -> Option<u32>
        requires place { (x / 2 < planes.now.stride) × (y / 2 < planes.now.rows) }
        requires words { (self.now.words ≡ planes.now.words) × (self.now.words ≤ 64) }
        requires room_for_assignments { self.now.count ≤ 64 * self.now.words }
        requires row { HasValueRow self.now signal }
        requires defined_covers_words { self.now.words ≤ length self.now.rows.defined.items }
        ensures { IsLeastBelow self.now.count
            (λ a. (is_defined_under self.now a ≡ true)
            × (lane planes.now a x y ≢ is_live (valuation self.now a) signal)) result }
    {
        // Most cells are as they should be.
        if !self.differs_from_signal(planes, x, y, signal) {
            return None;
        }
        self.seek_difference_where_defined(planes, x, y, signal)
    }

    // The least assignment at which each used gate has a row and a cell is not as the signal says. It looks at each
    // word.
    #[tactic(auto, using(crate::proofs::Scans::differs_not))]
    fn seek_difference_where_defined(
        &self,
        planes: &Planes,
        x: usize,
        y: usize,
        signal: Signal,
    ) -> Option<u32>
        requires place { (x / 2 < planes.now.stride) × (y / 2 < planes.now.rows) }
        requires words { (self.now.words ≡ planes.now.words) × (self.now.words ≤ 64) }
        requires room_for_assignments { self.now.count ≤ 64 * self.now.words }
        requires row { HasValueRow self.now signal }
        requires defined_covers_words { self.now.words ≤ length self.now.rows.defined.items }
        ensures { IsLeastBelow self.now.count
            (λ a. (is_defined_under self.now a ≡ true)
            × (lane planes.now a x y ≢ is_live (valuation self.now a) signal)) result }
    {
        for k in 0..self.words {
            let cells = planes.word(x, y, k);
            let wanted = self.word(signal, k);
            let difference = (cells ^ wanted) & self.rows.defined[k];
            if difference != 0 {
                let a = 64 * k as u32 + difference.trailing_zeros();
                if (a as usize) < self.count {
                    return Some(a);
                }
                return None;
            }
        }
        None
    }

    /// Returns whether a cell is not as the signal says under some assignment, whatever rows the gates have.
    ///
    /// The cell is counted from the halo. Only `false` is proved to be right.
    pub fn differs_from_signal(&self, planes: &Planes, x: usize, y: usize, signal: Signal) -> bool
        requires place { (x / 2 < planes.now.stride) × (y / 2 < planes.now.rows) }
        requires words { (self.now.words ≡ planes.now.words) × (self.now.words ≤ 64) }
        requires row { HasValueRow self.now signal }
        ensures { result ≡ false →
            IsCellAsSignalUnderWords self.now planes.now x y signal self.now.words }
    {
        match signal {
            Signal::Zero => planes.differs_from_word(x, y, 0),
            Signal::One => planes.differs_from_word(x, y, 0xFFFF_FFFF_FFFF_FFFF),
            Signal::Wire(wire) => {
                planes.differs_from_words(x, y, &self.rows.values, self.words * wire as usize)
            }
        }
    }

    /// Returns whether each used gate has a row under some assignment. Only `false` is proved to be right.
    pub fn has_defined_assignment(&self) -> bool
        requires defined_covers_words { self.now.words ≤ length self.now.rows.defined.items }
        requires room_for_assignments { self.now.count ≤ 64 * self.now.words }
        ensures { result ≡ false → (a : ℕ) → a < self.now.count →
            is_defined_under self.now a ≡ false }
    {
        for k in 0..self.words {
            if self.rows.defined[k] != 0 {
                return true;
            }
        }
        false
    }

    /// Returns the least assignment under which a used gate is the first without a row, if there is one.
    pub fn first_undefined_assignment(&self, gate: usize) -> Option<u32>
        requires words { self.now.words ≤ 64 }
        requires gate_below_64 { gate < 64 }
        requires room_for_assignments { self.now.count ≤ 64 * self.now.words }
        requires row { self.now.words * gate + self.now.words ≤ length
            self.now.rows.undefined.items }
        ensures { IsLeastBelow self.now.count
            (λ a. value_of self.now.words self.now.rows.undefined.items a gate ≡ true) result }
    {
        for k in 0..self.words {
            let word = self.rows.undefined[self.words * gate + k];
            if word != 0 {
                let a = 64 * k as u32 + word.trailing_zeros();
                if (a as usize) < self.count {
                    return Some(a);
                }
                return None;
            }
        }
        None
    }

    /// Sets a cell, counted from the halo, to what the signal says.
    pub fn put(&self, marked_planes: &mut MarkedPlanes, x: usize, y: usize, signal: Signal)
        requires place { (x / 2 < marked_planes.old.planes.stride)
            × (y / 2 < marked_planes.old.planes.rows) }
        requires words { self.now.words ≡ marked_planes.old.planes.words }
        requires row { HasValueRow self.now signal }
        ensures puts { PutsSignalInCell self.now x y signal marked_planes.old.planes
            marked_planes.new.planes }
        ensures settled { AreSettledBlocksUnchanged marked_planes.old marked_planes.new }
    {
        marked_planes.put(x, y, &self.rows.values, self.source(signal));
    }
}
