//! Circuits of conservative logic (Fredkin and Toffoli 1982): built line by line or read from their text, printed, and
//! evaluated.
#![tactic(auto)]

mod circuit_line;
mod draft;
mod form;
pub mod laws;
mod netlist;
mod number;
mod ports;
mod printing;
mod reading;
mod sets;
mod wiring;

pub use circuit_line::GateKind;
pub use draft::{Draft, Unused};
pub use netlist::{Circuit, ValuesFault};
pub use number::{GateNo, WireNo};
pub use ports::port_names;
pub use printing::{print_all_wire_values, print_circuit};
pub use reading::{read_circuit, read_circuit_within};
/// The reason why a draft does not take a line: out of memory, or the code, 2 to 5, of the first test that the line
/// fails.
pub use section_text::LineFault as CircuitFault;
pub use wiring::GateWires;
