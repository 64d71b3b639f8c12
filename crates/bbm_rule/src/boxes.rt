//! Tests of cells against boxes. A box without width or height has no cell.

ghost use Rattle.std.specs.Prelude.{◌≡◌, pos, ◌+ℤ◌, ◌-ℤ◌, ◌&&◌, ◌||◌};
ghost use Rattle.bbm_rule.specs.Spans.{in_span};
ghost use Rattle.bbm_rule.specs.Boxes.{in_box, in_ring, in_halo};

use crate::block::{Box2, Cell};

impl Box2 {
    /// Returns whether the cell is in the box.
    #[tactic(auto, unfolding(crate::specs::Boxes::in_box, crate::specs::Spans::in_span))]
    pub fn holds(self, cell: Cell) -> bool
        ensures { result ≡ in_box self cell.x cell.y }
    {
        let x = cell.x as i64;
        let y = cell.y as i64;
        let left = self.x as i64;
        let top = self.y as i64;
        left <= x && x < left + self.w as i64 && top <= y && y < top + self.h as i64
    }

    /// Returns whether the cell is in the ring of the box: in the box, with one of its eight neighbours outside.
    #[inline(always)]
    pub fn in_ring(self, cell: Cell) -> bool
        ensures { result ≡ in_ring self cell.x cell.y }
    {
        let inside = self.holds(cell);
        let inner_x = are_neighbours_in_range(self.x, self.w, cell.x);
        let inner_y = are_neighbours_in_range(self.y, self.h, cell.y);
        inside & !(inner_x & inner_y)
    }

    /// Returns whether the cell is in the halo of the box: outside the box, with one of its eight neighbours inside.
    #[inline(always)]
    pub fn in_halo(self, cell: Cell) -> bool
        ensures { result ≡ in_halo self cell.x cell.y }
    {
        let inside = self.holds(cell);
        let near_x = is_in_or_beside_range(self.x, self.w, cell.x);
        let near_y = is_in_or_beside_range(self.y, self.h, cell.y);
        !inside & (near_x & near_y)
    }
}

// whether the numbers before and after x are both among the n from `from` on.
#[tactic(auto, unfolding(crate::specs::Spans::in_span))]
fn are_neighbours_in_range(from: u32, n: u32, x: i32) -> bool
    ensures { result ≡ (in_span from n (x -ℤ pos 1) && in_span from n (x +ℤ pos 1)) }
{
    let x = x as i64;
    (from as i64) < x && x + 1 < from as i64 + n as i64
}

// whether x, the number before it or the one after it is among the n from `from` on.
fn is_in_or_beside_range(from: u32, n: u32, x: i32) -> bool
    ensures { result
        ≡ (in_span from n (x -ℤ pos 1) || in_span from n x || in_span from n (x +ℤ pos 1)) }
{
    let x = x as i64;
    let before = is_in_range(from, n, x - 1);
    let here = is_in_range(from, n, x);
    let after = is_in_range(from, n, x + 1);
    before | here | after
}

// whether x is among the n numbers from `from` on.
#[tactic(auto, unfolding(crate::specs::Spans::in_span))]
fn is_in_range(from: u32, n: u32, x: i64) -> bool
    ensures { result ≡ in_span from n x }
{
    from as i64 <= x && x < from as i64 + n as i64
}
