//! The parts of a layout: rectangles, ports, and its lines.
//!
//! In a layout the sides of the whole rectangle are even, 2 to 4096, and the steps are at most 1,048,576. The sides of
//! a mirror are 1 to 4096, and all cells lie inside.
//!
//! - `Mirror`: cells that are live at the start and at the end.
//! - `Ball`: a cell that is live at the start.
//! - `In`: a cell that is live at the start if its input is on.
//! - `Out`: a cell that is live at the end if its output is on.
//! - `Waste`: a cell that may be live or dead at the end.
ghost use Rattle.std.specs.Prelude.{◌≡◌, ◌+◌, ◌&&◌, nat_le};
ghost use Rattle.pattern.specs.Layout.{in_layout};
ghost use Rattle.pattern.specs.Lines.{takes_cells_at_start, takes_cells_at_end, is_inside, is_layout_side, is_mirror_side, largest_limit_code, size_fault, text_limit_fault, text_size_fault};

use bbm_rule::{Box2, Cell};
use section_text::{Limits, MAX_SIDE, MAX_STEPS, Name, RefusalCode};

/// A cell of an input or of an output, with the name of its wire. Several cells may have one name.
#[derive(Clone, Copy)]
pub struct Port {
    pub name: Name,
    pub cell: Cell,
}

/// The first line of a layout: its width and its height in cells, and how many steps it runs.
#[derive(Clone, Copy, Debug, PartialEq, Eq)]
pub struct LayoutHeader {
    pub w: u32,
    pub h: u32,
    pub steps: u32,
}

/// A line of a layout between its first and its last.
#[derive(Clone, Copy)]
pub enum LayoutLine {
    Mirror(Box2),
    Ball(Cell),
    In(Port),
    Out(Port),
    Waste(Cell),
}

fn is_side_in_limits(n: u32) -> bool
    ensures { result ≡ is_layout_side n }
{
    2 <= n && n <= MAX_SIDE && n % 2 == 0
}

fn are_mirror_sides_in_limits(r: Box2) -> bool
    ensures { result ≡ (is_mirror_side r.w && is_mirror_side r.h) }
{
    1 <= r.w && r.w <= MAX_SIDE && 1 <= r.h && r.h <= MAX_SIDE
}

fn fits(r: Box2, size: LayoutHeader) -> bool
    ensures { result ≡ (nat_le (r.x + r.w) size.w && nat_le (r.y + r.h) size.h) }
{
    u64::from(r.x) + u64::from(r.w) <= u64::from(size.w)
        && u64::from(r.y) + u64::from(r.h) <= u64::from(size.h)
}

impl LayoutHeader {
    /// Returns code 2 if a side or the steps are outside their limits.
    #[tactic(auto, unfolding(crate::specs::Lines::size_fault))]
    pub(crate) fn largest_limit_code(self) -> Option<RefusalCode>
        ensures { result ≡ size_fault self }
    {
        if is_side_in_limits(self.w) && is_side_in_limits(self.h) && self.steps <= MAX_STEPS {
            None
        } else {
            Some(RefusalCode::PastLimit)
        }
    }

    /// Returns code 2 if a side or the steps are outside the limits of the text.
    #[tactic(auto, unfolding(crate::specs::Lines::text_size_fault))]
    pub(crate) fn text_limit_code(self, limits: Limits) -> Option<RefusalCode>
        ensures { result ≡ text_size_fault limits self }
    {
        if self.w > limits.most_side()
            || self.h > limits.most_side()
            || self.steps > limits.most_steps()
        {
            Some(RefusalCode::PastLimit)
        } else {
            None
        }
    }

    /// Returns whether the cell lies in the rectangle of this size at the origin.
    ///
    /// Its column is then 0 to `w` - 1, and its row 0 to `h` - 1.
    #[tactic(auto, unfolding(bbm_rule::specs::Spans::in_span))]
    pub fn holds(self, cell: Cell) -> bool
        ensures { result ≡ in_layout self cell.x cell.y }
    {
        let x = i64::from(cell.x);
        let y = i64::from(cell.y);
        0 <= x && x < i64::from(self.w) && 0 <= y && y < i64::from(self.h)
    }
}

impl LayoutLine {
    /// Returns whether its cells are taken at the start.
    #[tactic(auto, unfolding(crate::specs::Lines::takes_cells_at_start))]
    pub(crate) fn takes_cells_at_start(&self) -> bool
        ensures { result ≡ takes_cells_at_start self.now }
    {
        match self {
            LayoutLine::Mirror(_) => true,
            LayoutLine::Ball(_) => true,
            LayoutLine::In(_) => true,
            LayoutLine::Out(_) => false,
            LayoutLine::Waste(_) => false,
        }
    }

    /// Returns whether its cells are taken at the end.
    #[tactic(auto, unfolding(crate::specs::Lines::takes_cells_at_end))]
    pub(crate) fn takes_cells_at_end(&self) -> bool
        ensures { result ≡ takes_cells_at_end self.now }
    {
        match self {
            LayoutLine::Mirror(_) => true,
            LayoutLine::Ball(_) => false,
            LayoutLine::In(_) => false,
            LayoutLine::Out(_) => true,
            LayoutLine::Waste(_) => true,
        }
    }

    /// Returns code 2 if a side of a mirror is outside its limits.
    #[tactic(auto, unfolding(crate::specs::Lines::largest_limit_code))]
    pub(crate) fn largest_limit_code(&self) -> Option<RefusalCode>
        ensures { result ≡ largest_limit_code self.now }
    {
        match self {
            LayoutLine::Mirror(r) => {
                if are_mirror_sides_in_limits(*r) {
                    None
                } else {
                    Some(RefusalCode::PastLimit)
                }
            }
            _ => None,
        }
    }

    /// Returns code 2 if a side of a mirror is outside the limits of the text.
    #[tactic(auto, unfolding(crate::specs::Lines::text_limit_fault))]
    pub(crate) fn text_limit_code(&self, limits: Limits) -> Option<RefusalCode>
        ensures { result ≡ text_limit_fault limits self.now }
    {
        match self {
            LayoutLine::Mirror(r) => {
                if r.w > limits.most_side() || r.h > limits.most_side() {
                    Some(RefusalCode::PastLimit)
                } else {
                    None
                }
            }
            _ => None,
        }
    }

    /// Returns whether all its cells lie inside the layout.
    #[tactic(auto, unfolding(crate::specs::Lines::is_inside))]
    pub(crate) fn is_inside(&self, size: LayoutHeader) -> bool
        ensures { result ≡ is_inside size self.now }
    {
        match self {
            LayoutLine::Mirror(r) => fits(*r, size),
            LayoutLine::Ball(cell) => size.holds(*cell),
            LayoutLine::In(port) => size.holds(port.cell),
            LayoutLine::Out(port) => size.holds(port.cell),
            LayoutLine::Waste(cell) => size.holds(*cell),
        }
    }
}
