//! Certificates, which cut a layout of a circuit into modules: their text, their modules, and their digest.
//!
//! A module has a box of cells, wires that are cut in it, and gates of the circuit that it uses. Its lines say what the
//! cells of the box's ring and halo carry at odd times. `certificate_lines/specs/Rules.antt` says which line is good
//! after which. `certificate_lines/specs/Modules.antt` says what is known of the modules of a certificate that was
//! read. `module_job` defines jobs.
#![tactic(auto)]

mod cert;
mod digest;
mod implied_halos;
mod jobs;
mod keep_lines;
pub mod laws;
mod layout_tables;
mod neighbour_edges;
mod printing;
mod reading;
mod signal_lists;
mod stops;
mod times;
mod version;

pub use cert::Cert;
pub use certificate_lines::{BorderLine, CertificateLine, Counts, StopLine};
pub use module_job::{Demand, Job, Shape, Stop, job_groups, shape_groups};
pub use printing::print_certificate;
pub use reading::{read_certificate, read_certificate_within};
pub use times::{StopGap, TimeLine};
