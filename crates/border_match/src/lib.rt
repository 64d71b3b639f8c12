//! The border faults of modules: places at which their borders do not match.
//!
//! A module of a certificate says what the cells of its halo carry at odd times. Those cells are in the rings of the
//! modules around it, and these say what the cells of their rings carry. A border fault is a cell and an odd time at
//! which the two say different things. `specs/BorderFaults.antt` has the definition, by the lines of the certificate.
//!
//! If no line names a time, the signal of a cell is the same at all times. So the search looks at the times that lines
//! name, and at cells whose signals at all times differ. It steps through times only for such a cell, up to its first
//! fault.
#![tactic(auto)]

mod borders;
mod extents;
mod fault;
pub mod laws;
mod matching;
mod near_modules;
mod signals;
mod star_faults;
mod surroundings;
mod window;

pub use fault::BorderFault;
pub use matching::match_borders;
