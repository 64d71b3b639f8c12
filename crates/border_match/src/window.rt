//! Windows: columns and rows of cells.
ghost use Rattle.std.specs.Prelude.{◌≡◌, ◌+◌, ◌≤◌, ◌≤ℤ◌, IsTrue};
ghost use Rattle.border_match.specs.Surroundings.{HasNoWindowMomentBetween, IsInWindow, IsWindowAround};
ghost use Rattle.lemmas.specs.Bounds.{max_side};

use bbm_rule::Cell;
use module_box::{Box2, Moment};

/// Some columns and rows, up to the last ones.
#[derive(Clone, Copy)]
pub(crate) struct Window {
    // The first column and the first row.
    first: Cell,
    // The last column and the last row.
    last: Cell,
}

// Returns a cell of the left column and of the upper row of two cells.
#[inline(always)]
fn upper_left(a: Cell, b: Cell) -> Cell
    ensures columns { (result.x ≤ℤ a.x) × (result.x ≤ℤ b.x) }
    ensures rows { (result.y ≤ℤ a.y) × (result.y ≤ℤ b.y) }
{
    Cell {
        x: if a.x < b.x { a.x } else { b.x },
        y: if a.y < b.y { a.y } else { b.y },
    }
}

// Returns a cell of the right column and of the lower row of two cells.
#[inline(always)]
fn lower_right(a: Cell, b: Cell) -> Cell
    ensures columns { (a.x ≤ℤ result.x) × (b.x ≤ℤ result.x) }
    ensures rows { (a.y ≤ℤ result.y) × (b.y ≤ℤ result.y) }
{
    Cell {
        x: if a.x < b.x { b.x } else { a.x },
        y: if a.y < b.y { b.y } else { a.y },
    }
}

impl Window {
    /// Returns the columns and rows around an area, counted from the corner of another box.
    pub(crate) fn around(area: Box2, corner: Box2) -> Window
        requires area { (area.x + area.w ≤ max_side) × (area.y + area.h ≤ max_side) }
        requires corner { (corner.x ≤ max_side) × (corner.y ≤ max_side) }
        ensures { IsWindowAround area corner result }
    {
        Window {
            first: Cell {
                x: area.x as i32 - corner.x as i32 - 1,
                y: area.y as i32 - corner.y as i32 - 1,
            },
            last: Cell {
                x: (area.x + area.w) as i32 - corner.x as i32,
                y: (area.y + area.h) as i32 - corner.y as i32,
            },
        }
    }

    /// No columns and rows.
    pub(crate) const EMPTY: Window = Window {
        first: Cell {
            x: i32::MAX,
            y: i32::MAX,
        },
        last: Cell {
            x: i32::MIN,
            y: i32::MIN,
        },
    };

    /// Adds the columns and rows up to those of a cell.
    #[inline(always)]
    pub(crate) fn include(&mut self, cell: Cell)
        ensures cell { IsInWindow self.new cell }
        ensures cells_stay_in_window { (c : Cell) → IsInWindow self.old c → IsInWindow self.new c }
    {
        self.first = upper_left(self.first, cell);
        self.last = lower_right(self.last, cell);
    }

    /// Returns whether the two windows have no cell in common.
    pub(crate) fn misses(self, other: Window) -> bool
        ensures { IsTrue result → (c : Cell) → IsInWindow self c → ¬ IsInWindow other c }
    {
        if self.last.x < other.first.x || other.last.x < self.first.x {
            return true;
        }
        self.last.y < other.first.y || other.last.y < self.first.y
    }

    /// Returns whether the cell is in these columns and rows.
    pub(crate) fn holds(self, cell: Cell) -> bool
        ensures true_if_in_window { IsInWindow self cell → IsTrue result }
        ensures bounds { IsTrue result → IsInWindow self cell }
    {
        if cell.x < self.first.x {
            return false;
        }
        if cell.x > self.last.x {
            return false;
        }
        if cell.y < self.first.y {
            return false;
        }
        cell.y <= self.last.y
    }

    /// Returns a moment at the first column after one at a far cell. Between the two, no moment at an odd time is at a
    /// cell of the window. Border faults are at odd times.
    pub(crate) fn next_moment_near(self, at: Moment) -> Moment
        requires cell_far { ¬ IsInWindow self at.cell }
        ensures column { result.cell.x ≡ self.first.x }
        ensures passed_moments_far { HasNoWindowMomentBetween self at result }
    {
        let Moment { time, cell } = at;
        let later = Moment {
            time: time.saturating_add(1 + time % 2),
            cell: self.first,
        };
        if cell.y < self.first.y {
            return Moment {
                time,
                cell: self.first,
            };
        }
        if cell.y > self.last.y {
            return later;
        }
        if cell.x < self.first.x {
            return Moment {
                time,
                cell: Cell {
                    x: self.first.x,
                    y: cell.y,
                },
            };
        }
        if cell.y < self.last.y {
            return Moment {
                time,
                cell: Cell {
                    x: self.first.x,
                    y: cell.y + 1,
                },
            };
        }
        later
    }
}
