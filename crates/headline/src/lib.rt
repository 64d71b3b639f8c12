//! The meaning of stops and of a no of `check`, of texts and bytes alone, and laws of the answers of each command.
//!
//! The crate `meaning` says what a yes means for the circuit and the layout (`specs/Headline.antt`). Here
//! `specs/Stops.antt` says what it means for stops, `specs/Plain.antt` what a no means under a plain certificate, and
//! `specs/ReportLines.antt` what the lines of a report mean.
#![tactic(auto)]

pub mod laws;
