//! A cell, and a block of four as a number.

ghost use Rattle.std.specs.Prelude.{◌≡◌, ◌<◌, ◌≤ℤ◌, pos};
ghost use Rattle.bbm_rule.specs.Plane.{partner};
ghost use Rattle.bbm_rule.specs.Words.{turned_block_number};
ghost use Rattle.lemmas.specs.Bounds.{last_column_or_row};

/// A cell of the plane, by its column `x`, which grows rightwards, and its row `y`, which grows downwards.
#[derive(Clone, Copy, Debug, PartialEq, Eq, Hash)]
pub struct Cell {
    pub x: i32,
    pub y: i32,
}

/// A rectangle of cells: its upper left corner (x, y), its width `w` and its height `h` in cells.
#[derive(Clone, Copy, Debug, PartialEq, Eq)]
pub struct Box2 {
    pub x: u32,
    pub y: u32,
    pub w: u32,
    pub h: u32,
}

// what the blocks 0 to 15 become
const TURNS: [u8; 16] = [0, 8, 4, 3, 2, 5, 9, 7, 1, 6, 10, 11, 12, 13, 14, 15];

/// Returns what a block becomes (Margolus 1984, billiard ball model).
///
/// A set bit is a live cell, in `bits` and in the result. 1 is the upper left cell, 2 the upper right, 4 the lower left
/// and 8 the lower right one.
pub fn turn(bits: u8) -> u8
    requires { bits < 16 }
    ensures { result ≡ turned_block_number bits }
{
    TURNS[bits as usize]
}

/// Returns the other column or row of a block at odd times, for a column or row from 0 to 4095.
///
/// It is the one beside this one that belongs to another block at even times.
#[tactic(auto, unfolding(crate::specs::Plane::partner))]
pub fn odd_partner(place: i32) -> i32
    requires { (pos 0 ≤ℤ place) × (place ≤ℤ pos last_column_or_row) }
    ensures { result ≡ partner 1 place }
{
    if place.unsigned_abs() % 2 == 1 {
        place + 1
    } else {
        place - 1
    }
}
