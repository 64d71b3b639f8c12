//! Boxes of cells that tile a rectangle, signals at cells and times, and the wires that a module knows.
//!
//! A module of a layout has a box of cells. The ring of a box is its outermost cells, its halo the cells around it. No
//! block of the Margolus neighbourhood is wider than two cells, so the cells of a box after a step depend on the box
//! and its halo alone. Boxes with even corners and sides tile a rectangle by its blocks of two by two cells, and an
//! even step makes each such box by itself.
//!
//! `specs/Boxes.antt` has these definitions, on the unbounded plane.
//!
//! A module cuts some wires of a circuit and uses some of its gates. It knows the wires that it cuts and those that
//! these gates define, by numbers of its own. `specs/Locals.antt` says which lines name such wires and gates, and what
//! their numbers mean. If its cuts have values, the others follow, as `specs/LocalValues.antt` says.
#![tactic(auto)]

mod equalities;
pub mod laws;
mod locals;
mod moving;
mod numbered_wires;
mod numbers;
mod owners;
mod places;
mod schedules;
mod taking;
mod tile;
mod values;
mod wiring;

pub use bbm_rule::Box2;
pub use locals::Locals;
pub use moving::{moved_cell, moved_event};
pub use owners::Owners;
pub use places::place_in;
pub use schedules::{AllTimesSignal, Moment, Schedule, Signal, TimedSignal};
pub use tile::{TileFault, owner_table};
pub use values::{LocalValuesError, ValueRows};
pub use wiring::Wiring;
