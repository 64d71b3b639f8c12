//! The values of the wires that a module knows, under one assignment of values to its cuts and under all of them.

ghost use Rattle.std.specs.Prelude.{◌≡◌, ◌≢◌, ◌<◌, ◌≤◌, ◌+◌, ◌*◌, ◌++◌, ℕ, Some, None, true, false, map, length, slice_index, slice_index_or, OnOk, IfErr, IfOk, IfSome};
ghost use Rattle.bbm_rule.specs.Bits.{bit};
ghost use Rattle.circuit.specs.Bridge.{AreWireValues};
ghost use Rattle.circuit.specs.Meaning.{AreGatesOrdered, wires, wires_after};
ghost use Rattle.module_box.specs.LocalGates.{gate_of_local_gate};
ghost use Rattle.module_box.specs.LocalValues.{AddsOutWords, AreValueRows, AreModuleValuesAtBit, IsLocalValuesError, AreGateValuesAtBit, lane, undefined_bits, gate_out_words};

use crate::locals::LocalGate;
use crate::wiring::Wiring;
use circuit::GateKind;
use std::alloc::{AllocError, Global};

// The word of a cut: at bit b its value under assignment 64 * chunk + b.
fn cut_value_word(cut: usize, chunk: u32) -> u64
    requires { cut < 32 }
    ensures { (b : ℕ) → b < 64 → bit result b ≡ bit (64 * chunk + b) cut }
{
    match cut {
        0 => 0xAAAA_AAAA_AAAA_AAAA,
        1 => 0xCCCC_CCCC_CCCC_CCCC,
        2 => 0xF0F0_F0F0_F0F0_F0F0,
        3 => 0xFF00_FF00_FF00_FF00,
        4 => 0xFFFF_0000_FFFF_0000,
        5 => 0xFFFF_FFFF_0000_0000,
        _ => {
            if (chunk >> (cut - 6)) % 2 == 1 {
                u64::MAX
            } else {
                0
            }
        }
    }
}

// The words of the cuts.
fn cut_value_words(alloc: Global, cuts: usize, chunk: u32) -> Result<Vec<u64>, AllocError>
    requires { cuts ≤ 32 }
    ensures count { IfOk result (λ ws. length ws.items ≡ cuts) }
    ensures bits { IfOk result (λ ws. (i : ℕ) → i < cuts → (b : ℕ) → b < 64 →
        bit (slice_index_or ws.items i 0) b ≡ bit (64 * chunk + b) i) }
{
    let mut words = Vec::with_capacity(alloc, cuts)?;
    for cut in 0..cuts {
        words.push(cut_value_word(cut, chunk))?;
    }
    Ok(words)
}

fn word_at(words: &[u64], wire: u16) -> u64
    ensures { result ≡ slice_index_or words.now wire 0 }
{
    words.get(wire as usize).copied().unwrap_or(0)
}

// Adds the words of the wires that a gate defines, from those of the wires that it uses.
fn push_gate_out_words(
    words: &mut Vec<u64>,
    kind: GateKind,
    a: u64,
    b: u64,
    c: u64,
    d: u64,
) -> Result<(), AllocError>
    ensures { OnOk result (words.new.items ≡ words.old.items ++ gate_out_words kind a b c d) }
{
    match kind {
        GateKind::Source(true) => words.extend_from_slice(&[u64::MAX])?,
        GateKind::Source(false) => words.extend_from_slice(&[0])?,
        GateKind::Fredkin => {
            let turned = a & (b ^ c);
            words.extend_from_slice(&[a, c ^ turned, b ^ turned])?
        }
        GateKind::Cswap => {
            let turned = a & (b ^ c);
            words.extend_from_slice(&[a, b ^ turned, c ^ turned])?
        }
        GateKind::Interact => words.extend_from_slice(&[a & b, b ^ (a & b), a ^ (a & b), a & b])?,
        GateKind::Switch => words.extend_from_slice(&[a, a & b, b ^ (a & b)])?,
        GateKind::Delay(_) => words.extend_from_slice(&[a])?,
        GateKind::Unswitch => words.extend_from_slice(&[a, b | c])?,
        GateKind::Uninteract => words.extend_from_slice(&[a | c, a | b])?,
    }
    Ok(())
}

// The bits at which a gate has no row.
fn undefined_bits(kind: GateKind, a: u64, b: u64, c: u64, d: u64) -> u64
    ensures { result ≡ undefined_bits kind a b c d }
{
    match kind {
        GateKind::Unswitch => b ^ (a & (b ^ c)),
        GateKind::Uninteract => (a ^ d) | ((a & (b | c)) | (b & c)),
        _ => 0,
    }
}

// Adds the words of the wires that the gate defines, and tells the bits at which it has no row.
fn push_out_words(words: &mut Vec<u64>, gate: LocalGate) -> Result<u64, AllocError>
    ensures { IfOk result (λ none. AddsOutWords (gate_of_local_gate gate) words.old.items
        words.new.items none) }
{
    let [x, y, z, w] = gate.ins;
    let a = word_at(words.as_slice(), x);
    let b = word_at(words.as_slice(), y);
    let c = word_at(words.as_slice(), z);
    let d = word_at(words.as_slice(), w);
    push_gate_out_words(words, gate.kind, a, b, c, d)?;
    Ok(undefined_bits(gate.kind, a, b, c, d))
}

// The words of all wires. A bit of `defined` is set where all gates have a row there. For each gate there is a word,
// whose bits are set where it is the first that has none.
#[derive(Drop)]
struct ValueWords {
    words: Vec<u64>,
    undefined: Vec<u64>,
    defined: u64,
}

// The words of all wires, those that are given first.
fn value_words(alloc: Global, given: &[u64], gates: &[LocalGate]) -> Result<ValueWords, AllocError>
    ensures each_wire_has_word { IfOk result (λ c. length c.words.items
        ≡ wires_after (length given.now) (map gate_of_local_gate gates.now)) }
    ensures count { IfOk result (λ c. length c.undefined.items ≡ length gates.now) }
    ensures says { IfOk result (λ c. (b : ℕ) → b < 64 →
        AreGateValuesAtBit given.now (map gate_of_local_gate gates.now) c.words.items
        c.undefined.items c.defined b) }
{
    let mut words = given.to_vec(alloc)?;
    let mut undefined = Vec::with_capacity(alloc, gates.len())?;
    let mut defined = u64::MAX;
    for gate in gates {
        let none = push_out_words(&mut words, *gate)?;
        let first = defined & none;
        undefined.push(first)?;
        defined ^= first;
    }
    Ok(ValueWords {
        words,
        undefined,
        defined,
    })
}

// The values at bit `place` of the words.
#[tactic(auto, using(crate::proofs::Imports::map_push, crate::proofs::Imports::take_more), unfolding(crate::proofs::Imports::bit))]
fn bits_at_place(alloc: Global, words: &[u64], place: u32) -> Result<Vec<bool>, AllocError>
    requires { place < 64 }
    ensures { IfOk result (λ vs. vs.items ≡ lane place words.now) }
{
    let mut bits = Vec::with_capacity(alloc, words.len())?;
    for word in words {
        bits.push((*word >> place) % 2 == 1)?;
    }
    Ok(bits)
}

// The first word that has bit `place`.
#[tactic(auto, using(crate::proofs::LocalRows::clear_more), unfolding(crate::proofs::Imports::bit))]
fn first_word_with_bit(words: &[u64], place: u32) -> Option<usize>
    requires { place < 64 }
    ensures found_bit_set { IfSome result (λ k. (k < length words.now)
        × (bit (slice_index words.now k) place ≡ true)) }
    ensures none_means_unset { result ≡ None → (k : ℕ) → k < length words.now →
        bit (slice_index words.now k) place ≡ false }
{
    for (number, word) in words.iter().enumerate() {
        if (*word >> place) % 2 == 1 {
            return Some(number);
        }
    }
    None
}

// Writes the words into rows of `words` words each, one into each row.
fn put_word_in_each_row(rows: &mut [u64], words: usize, place: usize, column: &[u64])
    requires at_most_64 { words ≤ 64 }
    requires column_at_most_268 { length column.now ≤ 268 }
    requires place { place < words }
    requires rows_fit_column { length rows.old ≡ words * length column.now }
    ensures length_unchanged { length rows.new ≡ length rows.old }
    ensures column_put_in_rows { (w : ℕ) → w < length column.now →
        slice_index rows.new (words * w + place) ≡ slice_index column.now w }
    ensures others_unchanged { (w k : ℕ) → w < length column.now → k < words → k ≢ place →
        slice_index rows.new (words * w + k) ≡ slice_index rows.old (words * w + k) }
{
    for (wire, word) in column.iter().enumerate() {
        rows[words * wire + place] = *word;
    }
}

/// The reason why the wires of a module have no values under an assignment.
#[derive(Clone, Copy, Debug, PartialEq, Eq)]
pub enum LocalValuesError {
    /// The gate at this place among those that the module uses is the first that has no row.
    NoRow(usize),
    /// There is no memory.
    Memory,
}

impl From<AllocError> for LocalValuesError {
    ghost use Rattle.std.specs.Prelude.{◌≡◌};
    ghost use Rattle.module_box.specs.declared.values.LocalValuesError.TheVariants.{Memory};

    ghost from_gives = { λ _ e. e ≡ Memory };

    fn from(_: AllocError) -> LocalValuesError {
        LocalValuesError::Memory
    }
}

/// The values of a module's wires, and of its gates whether they have a row, under many assignments.
///
/// They are in rows of words: the bit of assignment a is bit `a % 64` of the row's word `a / 64`.
#[derive(Drop)]
pub struct ValueRows {
    /// For each wire, by its number in the module, a row with its values.
    pub values: Vec<u64>,
    /// For each used gate, by its place, a row with a bit for each assignment under which it is the first without a
    /// row.
    pub undefined: Vec<u64>,
    /// One row, with a bit for each assignment under which all used gates have a row. Under others the values have no
    /// meaning.
    pub defined: Vec<u64>,
}

impl Wiring {
    /// Returns how many wires are given: those that the module cuts, at most 12.
    ///
    /// They are its first wires. Each gate uses wires that are given or that a gate before it defines.
    pub fn cuts(&self) -> usize
        ensures count { result ≡ self.now.given }
        ensures at_most_12 { result ≤ 12 }
        ensures gates_ordered { AreGatesOrdered self.now.given self.now.gates }
    {
        self.given
    }

    /// Returns how many wires there are, at most 268: 12 cuts, and 4 wires of each of 64 gates.
    pub fn wires(&self) -> usize
        ensures netlist_wires { result ≡ wires self.now }
        ensures at_most_268 { result ≤ 268 }
    {
        self.wires
    }

    /// Returns how many gates the module uses, at most 64.
    pub fn gates(&self) -> usize
        ensures count { result ≡ length self.now.gates }
        ensures at_most_64 { result ≤ 64 }
    {
        self.gates.len()
    }

    // The word of each wire: at bit b its value under assignment 64 * chunk + b.
    fn words_of_chunk(&self, alloc: Global, chunk: u32) -> Result<ValueWords, AllocError>
        ensures gates_ordered { AreGatesOrdered self.now.given self.now.gates }
        ensures count { IfOk result (λ c. length c.words.items ≡ wires self.now) }
        ensures gates { IfOk result (λ c. length c.undefined.items ≡ length self.now.gates) }
        ensures values { IfOk result (λ c. (b : ℕ) → b < 64 →
            AreModuleValuesAtBit self.now (64 * chunk + b) c.words.items c.undefined.items c.defined
            b) }
    {
        let given = cut_value_words(alloc, self.given, chunk)?;
        let column = value_words(alloc, given.as_slice(), self.gates.as_slice())?;
        Ok(column)
    }

    /// Returns each wire's value, by its number in the module, if bit i of `cut_bits` is the value of cut i.
    ///
    /// It ignores the bits from `cuts()` on. There are no values if a used gate has no row.
    pub fn local_values(&self, alloc: Global, cut_bits: u32) -> Result<Vec<bool>, LocalValuesError>
        ensures values { IfOk result (λ vs. AreWireValues self.now (bit cut_bits) vs.items) }
        ensures fault { IfErr result (λ e. IsLocalValuesError self.now cut_bits e) }
    {
        let column = self.words_of_chunk(alloc, cut_bits / 64)?;
        match first_word_with_bit(column.undefined.as_slice(), cut_bits % 64) {
            Some(gate) => Err(LocalValuesError::NoRow(gate)),
            None => {
                let values = bits_at_place(alloc, column.words.as_slice(), cut_bits % 64)?;
                Ok(values)
            }
        }
    }

    /// Returns the values of all wires under the assignments below `64 * words`, and the gates without a row.
    ///
    /// Each row has `words` words.
    pub fn value_rows(&self, alloc: Global, words: usize) -> Result<ValueRows, AllocError>
        requires { words ≤ 64 }
        ensures { IfOk result (λ rows. AreValueRows self.now words rows) }
    {
        let mut values = vec![in alloc; 0; words * self.wires()]?;
        let mut undefined = vec![in alloc; 0; words * self.gates()]?;
        let mut defined = Vec::with_capacity(alloc, words)?;
        for chunk in 0..words {
            let column = self.words_of_chunk(alloc, chunk as u32)?;
            put_word_in_each_row(&mut values, words, chunk, &column.words);
            put_word_in_each_row(&mut undefined, words, chunk, &column.undefined);
            defined.push(column.defined)?;
        }
        Ok(ValueRows {
            values,
            undefined,
            defined,
        })
    }
}
