//! Layouts of the billiard ball model: their text, their start, and their whole run.
#![tactic(auto)]

mod assign;
mod draft;
mod form;
pub mod laws;
mod layout;
mod layout_line;
mod names;
mod names_on;
mod printing;
mod reading;
mod run;
mod taken_cells;

pub use assign::read_assign;
pub use form::{box_from_words, cell_from_words};
pub use layout::Layout;
pub use layout_line::{LayoutHeader, LayoutLine, Port};
pub use names_on::which_names_are_on;
pub use printing::{print_box, print_cell, print_layout};
pub use reading::{read_layout, read_layout_within};
pub use run::{RunEnd, run_plain, start_cells};
