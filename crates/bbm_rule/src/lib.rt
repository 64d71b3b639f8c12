//! The billiard ball model on the unbounded plane, and a grid of bits that runs it.
//!
//! The automaton is that of Norman Margolus (Physics-like Models of Computation, 1984; see also Toffoli and Margolus,
//! Cellular Automata Machines, 1987). The plane is cut into blocks of two by two cells, the Margolus neighbourhood, and
//! each block turns by itself: a single live cell moves to the opposite corner, two on one diagonal turn to the other
//! diagonal, and every other block stays. There are two partitions into blocks, used in turn. At an even time the upper
//! left corner of a block has even coordinates, at an odd time odd ones; which partition comes first is this project's
//! choice.
//!
//! `specs/Plane.antt` has these definitions. A cell is named by its column x, which grows rightwards, and its row y,
//! which grows downwards.
#![tactic(auto)]

mod block;
mod boxes;
mod cell_order;
mod cells;
mod grid;
pub mod laws;
pub mod marks;
mod rectangles;
mod rows;
mod words;

pub use block::{Box2, Cell, odd_partner, turn};
pub use cell_order::compare_cells;
pub use grid::{Grid, Left};
pub use rectangles::{
    fill_rectangle, is_any_live, is_any_live_in, is_live, make_live, push_rectangle,
};
pub use words::{turn_lanes, turn_words};
