//! The lines of a certificate: their forms, and the rules by which a line is good after those before it.
//!
//! `specs/Entries.antt` has the lines and the modules that they make, `specs/Rules.antt` which line is good after
//! which, and `specs/Modules.antt` what is known of the modules of good lines.
#![tactic(auto)]

mod builder;
mod certificate_line;
mod form;
mod line_tables;
mod local_wires;
mod neighbour_wires;
mod order;
mod ports;
mod rules;
mod stars;
mod stored_module;
mod wire_list;

pub use builder::{Builder, BuiltParts};
pub use certificate_line::{BorderLine, CertificateLine, Counts, OneOrName, StopLine};
pub use form::line_form;
pub use line_tables::LineTables;
pub use order::compare_borders;
pub use ports::{PortTable, PortTablePair, PortWire, port_tables};
pub use stored_module::{StoredBorder, StoredModule, StoredStop, boxes_of};
