//! Work without a gate and without an audit. The counts were worked out by hand.
ghost use Rattle.std.specs.Prelude.{◌≡◌, ◌<◌, ◌≤◌, [], length};

use crate::books::new_book_of_text;
use certificate::{Job, job_groups};
use core_book::BookState;
use job_pool::{OpenGate, WorkEnd, work};
use std::alloc::{AllocError, Global};
use std::marker::Brand;
use std::process::Abort;
use std::sync::ledger::{Blank, Ledger};
use std::sync::{Arc, Wait};
use std::thread::Threads;
use test_support::{GOOD_BUNDLE, Work, work_of};
use verdict_book::{Book, Filings, Gathered, Share, gather};

/// Returns what the shares counted of the jobs, by one worker a share, and how many jobs were run.
fn file_by_workers<
    F: Filings + Send + Sync,
    A: Ledger + Send + Sync,
    R: Abort + Threads + Wait + Sync,
>(
    rt: &R,
    alloc: Global,
    jobs: &[Arc<Job>],
    f: Blank,
    a: Blank,
    state: BookState,
    count: usize,
) -> (Gathered, usize)
    requires filings { (f.name ≡ F.name) × (f.parts ≡ F.parts) × (f.parts ≡ count) }
    requires acceptances { (a.name ≡ A.name) × (a.parts ≡ A.parts) × (a.parts ≡ count) }
    requires count { (0 < count) × (count ≤ 64) }
    requires jobs { length jobs.now ≤ 1024 }
    requires ledger_names_book { (state.digest ≡ F.digest) × (state.jobs ≡ F.jobs) }
    requires history_empty { state.history ≡ [] }
{
    let groups = job_groups(alloc, jobs).expect(rt, "groups");
    let opened: (Book<F, A>, Vec<Share<F, A>>) = Book::open(alloc, f, a, state, count).expect(
        rt, "a book",
    );
    let (book, shares) = opened;
    let WorkEnd {
        shares,
        memory,
        runs,
    } = work(rt, alloc, &OpenGate, jobs, &groups, &book, shares);
    assert!(rt; !memory);
    match gather(book, shares) {
        Ok(gathered) => (gathered, runs),
        Err(_) => panic!(rt; "a share is missing"),
    }
}

/// Checks that `count` workers file the finding of each job of a bundle once, and run `wanted` jobs.
fn check_filed_and_run_counts<R: Abort + Threads + Wait + Sync>(
    rt: &R,
    alloc: Global,
    text: &str,
    wanted: usize,
    count: usize,
)
    requires { (0 < count) × (count ≤ 64) }
{
    let (f, a) = (Blank::new(count as u64), Blank::new(count as u64));
    let state = new_book_of_text(rt, alloc, text);
    let jobs = work_of(alloc, text).expect(rt, "work").jobs;
    assert!(rt; jobs.len() <= 1024);
    let (gathered, runs) = file_by_workers::<Brand, Brand, R>(rt, alloc, &jobs, f, a, state, count);
    assert!(rt; runs == wanted, "{count}");
    let all = jobs.len();
    assert!(rt;
        gathered.filed == all as u64 && gathered.accepted == all as u64,
        "{count}"
    );
    let state = &gathered.state;
    assert!(rt;
        state.accepted() == all && state.history().len() == all,
        "{count}"
    );
}

#[test]
fn workers_file_each_finding_once(rt: HostRuntime) {
    for count in [1usize, 2, 4, 64] {
        check_filed_and_run_counts(&rt, rt.alloc(), GOOD_BUNDLE, 4, count);
    }
}

/// Two modules of one shape, accepted with two steps and not with four.
const SAME_SHAPE_TEXTS: [&str; 2] = [
    "circuit\ninput a\ninput b\noutput a\noutput b\nend\nlayout 8 4 2\nin a 0 0\nin b 4 0\nout a 2 2\nout b 6 2\nend\ncertificate 1\nmodule 0 0 4 4\ncut a\nmodule 4 0 4 4\ncut b\nend\n",
    "circuit\ninput a\ninput b\noutput a\noutput b\nend\nlayout 8 4 4\nin a 0 0\nin b 4 0\nout a 2 2\nout b 6 2\nend\ncertificate 1\nmodule 0 0 4 4\ncut a\nmodule 4 0 4 4\ncut b\nend\n",
];

#[test]
fn jobs_of_one_shape_run_once(rt: HostRuntime) {
    for text in SAME_SHAPE_TEXTS {
        check_filed_and_run_counts(&rt, rt.alloc(), text, 1, 2);
    }
}

/// Adds the lines of 1024 modules of two by two cells, in rows of 32.
fn push_1024_modules(alloc: Global, text: &mut String) -> Result<(), AllocError> {
    for place in 0..1024_u32 {
        let (x, y) = (place % 32 * 2, place / 32 * 2);
        text.push_str(&format!(in alloc; "module {x} {y} 2 2\n")?)?;
    }
    Ok(())
}

/// Modules whose first sixteen have mirrors on each choice of their four cells, and whose last one has an output cell.
fn text_of_seventeen_shapes(alloc: Global) -> Result<String, AllocError> {
    let mut text = format!(in alloc; "circuit\nsource 1 -> a\noutput a\nend\nlayout 64 64 0\n")?;
    for module in 0..16_u32 {
        for place in 0..4_u32 {
            if module >> place & 1 == 1 {
                let (x, y) = (2 * module + place % 2, place / 2);
                text.push_str(&format!(in alloc; "mirror {x} {y} 1 1\n")?)?;
            }
        }
    }
    text.push_str("out a 62 62\nend\ncertificate 1\n")?;
    push_1024_modules(alloc, &mut text)?;
    text.push_str("use 0\nend\n")?;
    Ok(text)
}

#[test]
fn equal_shapes_run_once(rt: HostRuntime) {
    let text = text_of_seventeen_shapes(rt.alloc()).expect(&rt, "a text");
    check_filed_and_run_counts(&rt, rt.alloc(), &text, 17, 2);
}
