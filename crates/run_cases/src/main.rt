//! Puts the command lines of its files of cases, in the folder where it runs, through the program over memory.
//! Prints a line for each case that does not hold, and how many of each file held. The status is 0 if all did.
//!
//! `case_text` says what such a file looks like.
#![tactic(auto)]

mod trial;

use case_text::read_cases;
use std::alloc::Global;
use std::fs;
use std::process::ExitCode;
use std::random::RandomSource;
use std::rt::Runtime;
use std::sync::Wait;
use std::thread::Threads;
use trial::difference_of;

// Worked cases, cases that were written by hand, and random bundles with their reports.
const FILES: [&str; 4] = ["cases.txt", "by_hand.txt", "reports.txt", "front_line.txt"];

fn main(rt: HostRuntime) -> ExitCode {
    let mut all_hold = true;
    for name in FILES {
        match count_failed_cases_in_file(&rt, rt.alloc(), name) {
            Ok(0) => {}
            Ok(_) => all_hold = false,
            Err(error) => {
                let _ = eprintln!(rt; "{name}: {error}");
                all_hold = false;
            }
        }
    }
    if all_hold {
        ExitCode::SUCCESS
    } else {
        ExitCode::FAILURE
    }
}

// How many cases of a file do not hold.
fn count_failed_cases_in_file<R: Runtime + Threads + Wait + RandomSource + Sync>(
    rt: &R,
    alloc: Global,
    name: &str,
) -> anyhow::Result<usize> {
    let file = fs::read(rt, name)?;
    let cases = read_cases(alloc, &file)?;
    let mut failed = 0;
    for case in &cases {
        if let Some(difference) = difference_of(rt, alloc, case) {
            println!(rt; "{}: {difference}", case.name)?;
            failed += 1;
        }
    }
    println!(rt; "{name}: {} passed, {failed} failed", cases.len() - failed)?;
    Ok(failed)
}
