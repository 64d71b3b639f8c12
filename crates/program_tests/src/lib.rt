//! The tests of threads and of the program: of `verdict_book`, `job_pool`, `command_line`, `check_main` and
//! `case_text`. They have their own crate, since a crate with tests is proved twice.
#![tactic(auto)]

#[cfg(test)]
mod audits;
#[cfg(test)]
mod books;
#[cfg(test)]
mod bundles;
#[cfg(test)]
mod cases;
#[cfg(test)]
mod desks;
#[cfg(test)]
mod devices;
#[cfg(test)]
mod floods;
#[cfg(test)]
mod gates;
#[cfg(test)]
mod interruptions;
#[cfg(test)]
mod largest;
#[cfg(test)]
mod prefixes;
#[cfg(test)]
mod programs;
#[cfg(test)]
mod seeds;
#[cfg(test)]
mod stumbles;
#[cfg(test)]
mod words;
#[cfg(test)]
mod workers;
