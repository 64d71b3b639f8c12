//! The meaning of a yes of `check`, in definitions alone: this crate has no code.
//!
//! `specs/Headline.antt` has the statement, about the bytes of a text. `specs/Printed.antt` defines which circuit and
//! layout a text begins with, by how they are printed, and `specs/Implements.antt` when a layout computes a circuit.
//! `specs/Design.antt` defines which circuit and layout a text says, by the words of its lines. `specs/Streams.antt`
//! says what a yes is in an output, and what a reader or a writer must be for it to mean something. None of these
//! definitions needs a certificate, a module or a job. Laws and contracts of the crates above cite them.
#![tactic(auto)]
