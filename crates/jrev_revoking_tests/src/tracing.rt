//! Journals of runs in which levels are undone.

use crate::programs::{Program, run_of};
use crate::threads::{INNER_WANTED, LATE_WRITE, PAIR};
use jrev_cases::{NO_FAULTS, Seen};
use std::alloc::Global;
use std::test::Fail;
use std::thread::Threads;

/// The order in which a thread of low priority is undone after it wrote twice.
const UNDONE: &str = "--order=1@20,2@2,2@2,3@8,2@10,3@20";

/// Programs, each with an order by which a level is undone, and the lines that are left.
const TRACED: [(Program, &str, &str); 3] = [
    (PAIR, UNDONE, "1\n2\n"),
    (
        LATE_WRITE,
        "--order=1@20,4@6,4@1,2@2,3@8,2@10,4@2,3@20",
        "9\n",
    ),
    (INNER_WANTED, UNDONE, "0\n"),
];

// The journal of a run.
fn journal_of<R: Threads + Sync>(
    rt: &R,
    alloc: Global,
    program: &Program,
    options: &[&str],
) -> Result<String, Fail> {
    let traced = run_of(rt, alloc, program, "trace", options, "", NO_FAULTS)?;
    Ok(String::from_utf8_lossy(alloc, traced.out.as_slice())?)
}

// What check says of the journal of a run.
fn checked<R: Threads + Sync>(
    rt: &R,
    alloc: Global,
    program: &Program,
    options: &[&str],
) -> Result<Seen, Fail> {
    let journal = journal_of(rt, alloc, program, options)?;
    run_of(
        rt,
        alloc,
        program,
        "check",
        &[],
        journal.as_str(),
        NO_FAULTS,
    )
}

#[test]
fn what_is_left_of_a_run_is_accepted(rt: HostRuntime) -> Result<(), Fail> {
    let alloc = rt.alloc();
    for (program, order, lines) in &TRACED {
        let seen = checked(&rt, alloc, program, &[order])?;
        assert!(rt;
            seen.status == 0 && seen.out.as_slice() == lines.as_bytes(),
            "{}",
            lines
        );
    }
    Ok(())
}

#[test]
fn an_undone_level_has_a_line(rt: HostRuntime) -> Result<(), Fail> {
    let journal = journal_of(&rt, rt.alloc(), &INNER_WANTED, &[UNDONE])?;
    let (before, after) = journal.as_str().split_once("undone ").unwrap_or(("", ""));
    assert!(rt; before.starts_with("jrev-trace 2\n"));
    assert!(rt; after.starts_with("2 2 1\n"));
    assert!(rt; after.split_once("undone ").is_none());
    Ok(())
}

#[test]
fn what_is_left_where_a_limit_ends_the_run_is_accepted(rt: HostRuntime) -> Result<(), Fail> {
    let alloc = rt.alloc();
    let lines = "1\n2\n".as_bytes();
    for turns in 1..201u32 {
        let limit = format!(in alloc; "--turns={turns}")?;
        let seen = checked(&rt, alloc, &PAIR, &[UNDONE, limit.as_str()])?;
        assert!(rt;
            seen.status == 0 && lines.starts_with(seen.out.as_slice()),
            "{}",
            turns
        );
    }
    Ok(())
}
