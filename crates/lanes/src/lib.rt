//! The billiard ball model in a box and its halo, under many assignments at once.
//!
//! A module is run under each assignment of values to its cuts, 4096 at most. This crate stores which cells of its box
//! and halo are live under which assignments, and makes the steps. It knows nothing of modules, wires, lines or faults.
//!
//! A cell has a bit for each assignment, 64 in a word. Cells lie in four planes by the parities of column and row, so
//! each block has one cell in each plane, and its words are turned together. Columns and rows are counted from the
//! halo: column x and row y of the box are column x + 1 and row y + 1 here. In contracts, `lane p a x y` is whether the
//! cell at column x and row y is live under assignment a (`specs/Lanes.antt`).
//!
//! The calls that change cells:
//!
//! - [`MarkedPlanes::new`] makes planes in which all cells are dead.
//! - [`MarkedPlanes::put`] sets the words of one cell to those of a [`WordSource`], and changes no other cell.
//! - [`MarkedPlanes::odd_step`] turns all blocks whose upper left corner is odd, which fill box and halo, by the block
//!   rule. If it returns `false`, no cell changed.
//! - [`MarkedPlanes::even_step`] turns all blocks whose upper left corner is even, which fill the box. It does not read
//!   the halo, whose cells may change in any way. If it returns `false`, no cell of the box changed.
//! - [`MarkedPlanes::count_down_word_reads`] changes no cell. A run calls it before each odd step.
//!
//! The calls that read cells:
//!
//! - [`Planes::word`] returns a word of a cell. [`Planes::differs_from_words`] and [`Planes::differs_from_word`]
//!   compare all words of a cell with others: if they return `false`, all are equal.
//! - [`MarkedPlanes::may_be_live`] and [`MarkedPlanes::word_of_live_numbers`] find cells that may be live: the others
//!   are dead under each assignment.
//! - [`MarkedPlanes::border_marks_to_check`] finds the cells of ring and halo that may be live or that the caller
//!   marked: each other cell is dead and unmarked, or neither in the ring nor in the halo. After an odd step it passes
//!   over those too that have not changed since (`specs/Settled.antt`), unless the caller marked them as new.
//! - [`is_marked`] and [`take_first_mark`] read such marks.
//! - [`Planes::cell_number`] returns the number of a cell in its plane, [`Planes::column_and_row`] the column and row
//!   of a number there, and [`Planes::cells_per_plane`] how many numbers there are.
//!
//! A step skips what stays as it is. Blocks have marks from a change of one of their cells until they were seen to
//! stay. Cells that may be live have marks too: if only one cell of a block may be live, it changes places with the
//! opposite one, and no words are read. After a step in which many blocks changed, some steps turn whole planes, but
//! for blocks that live cells of mirrors hold. Contracts mention these marks only to say which cells have not changed.
//!
//! The step is that of Norman Margolus's billiard ball model (Physics-like Models of Computation, 1984).
#![tactic(auto)]

mod block_marks;
mod block_turns;
mod blocks;
mod frozen;
mod frozen_steps;
mod held_cells;
mod live;
mod marked_blocks;
mod marked_planes;
mod marked_steps;
mod marks;
mod phases;
mod planes;
mod words;

pub use marked_planes::MarkedPlanes;
pub use marks::{is_marked, take_first_mark};
pub use planes::{Planes, WordSource};
