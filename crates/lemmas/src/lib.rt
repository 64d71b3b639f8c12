//! Lemmas on lists, bits and numbers that several crates cite, and the names of the standard library that their proofs
//! use. This crate has no code.
#![tactic(auto)]
