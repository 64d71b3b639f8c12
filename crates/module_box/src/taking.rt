//! A table with a place for each block of a rectangle, row by row, which boxes take one after the other.

ghost use Rattle.std.specs.Prelude.{◌≡◌, ◌≤◌, ◌<◌, ◌+◌, ◌*◌, ◌/◌, ◌↔◌, ℕ, IsTrue, length, slice_index};
ghost use Rattle.bbm_rule.specs.Boxes.{IsEvenBox};
ghost use Rattle.module_box.specs.Taking.{FitsBlockTable, TakesBox, TakesRow};
ghost use Rattle.module_box.specs.Tiling.{HasBlockAtPlace};

use bbm_rule::Box2;

// Puts the number at the places from `from` on, up to the first that is not free: that one, or the end, is the result.
fn fill_row_until_taken(
    table: &mut [usize],
    from: usize,
    end: usize,
    free: usize,
    number: usize,
) -> usize
    requires { (from ≤ end) × (end ≤ length table.old) }
    ensures { TakesRow free number from end result table.old table.new }
{
    for place in from..end {
        if table[place] != free {
            return place;
        }
        table[place] = number;
    }
    end
}

/// Puts the number at the places of the box's blocks, up to the first that is not free.
///
/// It returns that place, or the table's length. It takes a step for each place that was free, and one.
#[tactic(auto, using(crate::proofs::Takings::among_from, crate::proofs::Takings::in_row, crate::proofs::Takings::row_from, crate::proofs::Takings::row_of))]
pub fn fill_box_until_taken(
    table: &mut [usize],
    columns: usize,
    area: Box2,
    free: usize,
    number: usize,
) -> usize
    requires even { IsEvenBox area }
    requires fits { FitsBlockTable columns area }
    ensures { TakesBox columns area free number result table.old table.new }
{
    let left = area.x as usize / 2;
    let top = area.y as usize / 2;
    let across = area.w as usize / 2;
    let down = area.h as usize / 2;
    for row in top..top + down {
        let from = row * columns + left;
        if table.len() <= from {
            return table.len();
        }
        let end = (from + across).min(table.len());
        let stop = fill_row_until_taken(table, from, end, free, number);
        if stop < end {
            return stop;
        }
    }
    table.len()
}

// Whether the places from `from` on, before `end`, are free.
fn is_row_free(table: &[usize], from: usize, end: usize, free: usize) -> bool
    requires { (from ≤ end) × (end ≤ length table.now) }
    ensures { IsTrue result ↔ ((k : ℕ) → from ≤ k → k < end → slice_index table.now k ≡ free) }
{
    for index in from..end {
        if table[index] != free {
            return false;
        }
    }
    true
}

/// Returns whether the places of the box's blocks are free.
#[tactic(auto, using(crate::proofs::Takings::among_from, crate::proofs::Takings::block_from, crate::proofs::Takings::in_row, crate::proofs::Takings::row_from, crate::proofs::Takings::row_of))]
pub fn is_box_free(table: &[usize], columns: usize, area: Box2, free: usize) -> bool
    requires even { IsEvenBox area }
    requires fits { FitsBlockTable columns area }
    requires within { (area.y / 2 + area.h / 2) * columns ≤ length table.now }
    ensures { IsTrue result ↔ ((k : ℕ) → HasBlockAtPlace area columns k →
        slice_index table.now k ≡ free) }
{
    let left = area.x as usize / 2;
    let top = area.y as usize / 2;
    let across = area.w as usize / 2;
    let down = area.h as usize / 2;
    for row in top..top + down {
        let from = row * columns + left;
        if !is_row_free(table, from, from + across, free) {
            return false;
        }
    }
    true
}

/// Returns the first place of the table that is free, or its length.
pub fn first_free_place(table: &[usize], free: usize) -> usize
    ensures bound { result ≤ length table.now }
    ensures earlier_places_taken { (k : ℕ) → k < result → ¬ (slice_index table.now k ≡ free) }
    ensures found_place_free { result < length table.now → slice_index table.now result ≡ free }
{
    // Most tables have no free place, and this search tests several places at once.
    if !table.iter().any(|number| *number == free) {
        return table.len();
    }
    for place in 0..table.len() {
        if table[place] == free {
            return place;
        }
    }
    table.len()
}
