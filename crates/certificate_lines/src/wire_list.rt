//! The wires that are local in the last module, in their order, with a bit for each wire of the circuit.
ghost use Rattle.std.specs.Prelude.{ℕ, ◌≡◌, false, ◌+◌, ◌<◌, ◌≤◌, ◌*◌, ◌++◌, ◌∷◌, [], length, true, vec_capacity, vec_len, ◌-◌, OnErr, OnOk};
ghost use Rattle.bbm_rule.specs.Rows.{cell_at, SetsCellAtPlace};
ghost use Rattle.certificate_lines.specs.WireListView.{MarksSameNumbers};
ghost use Rattle.module_box.specs.Locals.{is_among};

use bbm_rule::marks::unmark;
use std::alloc::{AllocError, Global};
use std::marker::Model;
use std::mem::swap;

// For how many wires the first allocation has room: most modules know fewer.
const FIRST_CAPACITY: usize = 64;

/// Wires of a circuit, in the order in which they were added.
///
/// To look a wire up takes the same time however many there are, and computes no hash. The list serves one module after
/// the other. Its bits, one for each wire of the circuit, take memory when room for a first wire is made.
#[derive(Drop)]
pub(crate) struct WireList {
    wires: Vec<u16>,
    // The bit of a wire's number is set if the wire is in the list.
    marks: Vec<u64>,
}

impl Model for WireList {
    ghost use Rattle.certificate_lines.specs.WireListView.{WireListView};

    ghost Value = { WireListView };

    ghost use Rattle.certificate_lines.specs.WireListView.{wire_list_view, AreWireListFields};

    ghost view = { wire_list_view };

    ghost invariant = { AreWireListFields };
}

// Whether the bit of a number is set. No number past the words has a bit.
#[inline(always)]
#[tactic(auto, using(bbm_rule::proofs::CellLemmas::cell_is, crate::proofs::WireListLemmas::past_marks))]
fn is_marked(marks: &[u64], number: usize) -> bool
    ensures { result ≡ cell_at marks.now number }
{
    let word = number / 64;
    if word >= marks.len() {
        return false;
    }
    (marks[word] >> (number % 64)) & 1 == 1
}

// Sets the bit of a number.
#[inline(always)]
fn set_mark(marks: &mut [u64], number: usize)
    requires { number < 64 * length marks.old }
    ensures { SetsCellAtPlace number true marks.old marks.new }
{
    marks[number / 64] |= 1u64 << (number % 64);
}

// Makes room for the bits of this many numbers. The new ones are not set.
#[tactic(auto, using(crate::proofs::WireListLemmas::grown_marks))]
fn grow_marks(marks: &mut Vec<u64>, count: usize) -> Result<(), AllocError>
    ensures same { MarksSameNumbers marks.old.items marks.new.items }
    ensures room { OnOk result (count ≤ 64 * vec_len marks.new) }
    ensures never_fewer { vec_len marks.old ≤ vec_len marks.new }
{
    let words = count / 64 + 1;
    if marks.len() >= words {
        return Ok(());
    }
    marks.resize(words, 0)
}

// Makes room for `count` more wires.
fn reserve_wires(wires: &mut Vec<u16>, count: usize) -> Result<(), AllocError>
    ensures same { wires.new.items ≡ wires.old.items }
    ensures room { OnOk result (count ≤ vec_capacity wires.new - vec_len wires.new) }
    ensures unchanged_on_error { OnErr result (vec_capacity wires.new ≡ vec_capacity wires.old) }
{
    let spare = wires.capacity().saturating_sub(wires.len());
    if count <= spare {
        return Ok(());
    }
    wires.reserve(count.max(FIRST_CAPACITY))
}

// Takes the marks off all wires of the list.
#[tactic(auto, using(crate::proofs::WireListLemmas::all_off, crate::proofs::WireListLemmas::one_more_off))]
fn unmark_all(marks: &mut [u64], wires: &[u16])
    requires { (w : ℕ) → cell_at marks.old w ≡ is_among wires.now w }
    ensures { (w : ℕ) → cell_at marks.new w ≡ false }
{
    for wire in wires {
        unmark(marks, *wire as usize);
    }
}

impl WireList {
    /// Creates a list without wires. It takes no memory.
    pub(crate) fn new(alloc: Global) -> WireList
        ensures { result.wires ≡ [] }
    {
        WireList {
            wires: Vec::new(alloc),
            marks: Vec::new(alloc),
        }
    }

    /// Returns whether the wire is in the list.
    #[inline(always)]
    pub(crate) fn contains(&self, wire: u16) -> bool
        ensures { result ≡ is_among self.now.wires wire }
    {
        is_marked(self.marks.as_slice(), wire as usize)
    }

    /// Makes room for `count` more wires, with numbers below `number_bound`.
    #[tactic(auto, using(crate::proofs::WireListLemmas::same_marks_truncated))]
    pub(crate) fn reserve_for_numbers_below(
        &mut self,
        count: usize,
        number_bound: usize,
    ) -> Result<(), AllocError>
        ensures wires { self.new.wires ≡ self.old.wires }
        ensures room { OnOk result (count ≤ self.new.spare) }
        ensures room_for_numbers { OnOk result (number_bound ≤ self.new.limit) }
        ensures unchanged_on_error { OnErr result (self.new ≡ self.old) }
    {
        let before = self.marks.len();
        if grow_marks(&mut self.marks, number_bound).is_err() {
            self.marks.truncate(before);
            return Err(AllocError);
        }
        if reserve_wires(&mut self.wires, count).is_err() {
            self.marks.truncate(before);
            return Err(AllocError);
        }
        Ok(())
    }

    /// Adds a wire at the end of the list, which has room for it.
    pub(crate) fn push(&mut self, wire: u16)
        requires room { 0 < self.old.spare }
        requires room_for_number { wire < self.old.limit }
        ensures wires { self.new.wires ≡ self.old.wires ++ wire ∷ [] }
        ensures at_most_one_taken { self.old.spare ≤ self.new.spare + 1 }
        ensures same_limit { self.new.limit ≡ self.old.limit }
    {
        set_mark(&mut self.marks, wire as usize);
        match self.wires.push(wire) {
            Ok(()) => {}
            Err(_) => unreachable!(),
        }
    }

    /// Returns the wires in their order.
    pub(crate) fn as_slice(&self) -> &[u16]
        ensures { result.now ≡ self.now.wires }
    {
        self.wires.as_slice()
    }

    /// Moves the wires to an empty list. This one is then empty. It takes no memory.
    pub(crate) fn move_to(&mut self, others: &mut Vec<u16>)
        requires { others.old.items ≡ [] }
        ensures moved { others.new.items ≡ self.old.wires }
        ensures emptied { self.new.wires ≡ [] }
    {
        unmark_all(&mut self.marks, &self.wires);
        swap(&mut self.wires, others);
    }
}
