//! Why a yes about modules holds for the whole plane, and what a no says of it. Laws alone: nothing here runs.
//!
//! The way from a yes to the plane:
//!
//! 1. `JobSignals`: a module's job asks of its cells what the certificate's lines say of them.
//! 2. `WholeRuns`: the plane at the start is each job's own run in its box. It stays so at each step, if no job and no
//!    border has a fault. At the end the cells are as the outputs ask.
//! 3. `InputRuns`: the run depends on the values of the inputs alone.
//! 4. `YesMeansCorrect`: so a layout whose certificate is accepted computes the circuit, with its stops at their times.
//!
//! `FirstFaults` and `EarliestLines` show what a no says for any certificate, and `PlainCertificates` for plain ones.
//! `ModuleJobs`, `SomeJobs` and `SomeVerdict` show that modules have jobs and a verdict, and `Migrated` that migration
//! keeps what is accepted.
#![tactic(auto)]

pub mod laws;
