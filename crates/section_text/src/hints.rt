//! Guesses of the places of names in lists.

use crate::name::Name;
use std::alloc::{AllocError, Global};

// A name has this many slots or more. Fewer instructions were counted than with one slot, since names of several kinds
// that end in numbers seldom share slots then.
const SLOTS_PER_NAME: usize = 4;

// The most slots of a table for which four digits are enough to tell names apart.
const FOUR_DIGIT_SLOTS: usize = 16_384;

// How many slots a table for `name_count` names has: a power of two.
fn slot_count_for(name_count: usize) -> usize {
    match name_count {
        0..=16 => 64,
        17..=64 => 256,
        65..=256 => 1024,
        257..=1024 => 4096,
        1025..=4096 => FOUR_DIGIT_SLOTS,
        _ => 262_144,
    }
}

// The last four bytes of a name, read as digits. Most names end in a number, so names near each other in a list seldom
// share a slot.
fn last_four_digits(name: &Name) -> usize {
    match name.bytes() {
        [.., a, b, c, d] => 1000 * *a as usize + 100 * *b as usize + 10 * *c as usize + *d as usize,
        [b, c, d] => 100 * *b as usize + 10 * *c as usize + *d as usize,
        [c, d] => 10 * *c as usize + *d as usize,
        [d] => *d as usize,
        [] => 0,
    }
}

// As `last_four_digits`, for five bytes. Tables of both sizes agree on the slot's lower bits, so a table that grows
// keeps its guesses.
fn last_five_digits(name: &Name) -> usize {
    let fifth = match name.bytes() {
        [.., e, _, _, _, _] => *e as usize,
        _ => 0,
    };
    (FOUR_DIGIT_SLOTS * fifth).wrapping_add(last_four_digits(name))
}

// Returns a table of `slot_count` slots in which each name has the guess that it has in `places`.
fn larger_table(alloc: Global, places: &[u16], slot_count: usize) -> Result<Vec<u16>, AllocError> {
    let mut larger = Vec::with_capacity(alloc, slot_count)?;
    if !places.is_empty() {
        for _ in 0..slot_count / places.len() {
            larger.extend_from_slice(places)?;
        }
    }
    larger.resize(slot_count, 0)?;
    Ok(larger)
}

/// For each of some slots, the place of the name of this slot that was noted last.
///
/// It saves the look-up of a name by its hash. A guess may be wrong, so whoever takes it compares the name.
#[derive(Drop)]
pub struct NameHints {
    // by slots, whose count is a power of two or 0
    places: Vec<u16>,
}

impl NameHints {
    /// Creates hints without a name. They take no memory.
    pub fn new(alloc: Global) -> NameHints {
        NameHints {
            places: Vec::new(alloc),
        }
    }

    // The slot of a name. It is no index of the table if that has no slots.
    #[inline(always)]
    fn slot_of(&self, name: &Name) -> usize {
        let slots = self.places.len();
        let digits = if slots > FOUR_DIGIT_SLOTS {
            last_five_digits(name)
        } else {
            last_four_digits(name)
        };
        digits & slots.wrapping_sub(1)
    }

    /// Returns a place that a name may have.
    #[inline(always)]
    pub fn guess(&self, name: &Name) -> usize {
        match self.places.get(self.slot_of(name)) {
            Some(place) => *place as usize,
            None => 0,
        }
    }

    // Makes the table as large as `name_count` names need. If memory is lacking, it stays as it is.
    #[inline(never)]
    fn grow(&mut self, name_count: usize) {
        let slot_count = slot_count_for(name_count);
        if slot_count <= self.places.len() {
            return;
        }
        if let Ok(larger) = larger_table(
            *self.places.allocator(),
            self.places.as_slice(),
            slot_count,
        ) {
            self.places = larger;
        }
    }

    /// Notes that names have the places from `first` on, after those that were noted before.
    pub fn note_all(&mut self, names: &[Name], first: usize) {
        let name_count = first.saturating_add(names.len());
        if name_count > self.places.len() / SLOTS_PER_NAME {
            self.grow(name_count);
        }
        let mut place = first;
        for name in names {
            let slot = self.slot_of(name);
            if let Some(noted) = self.places.get_mut(slot) {
                *noted = (place % 65_536) as u16;
            }
            place = place.wrapping_add(1);
        }
    }
}
