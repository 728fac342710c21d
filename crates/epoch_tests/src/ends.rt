//! Tests of how runs end.

use crate::running::{Plan, run_with};
use epoch_host::HostRun;
use jr_ports::NoGate;
use op_core::{How, Limit, Script};
use std::alloc::Global;
use std::test::Fail;
use std::thread::Threads;
use table_cases::{STEPS, WAITING_STEPS};

/// Turns enough for each thread.
const AMPLE: u64 = 1000;

// By these the program comes to its end: one of its threads has ended before the other enters a monitor, or they take single turns
// by turns.
const TO_THE_END: [Plan; 4] = [
    Plan {
        workers: 1,
        slice: 1,
    },
    Plan {
        workers: 1,
        slice: 10_000,
    },
    Plan {
        workers: 2,
        slice: 10_000,
    },
    Plan {
        workers: 4,
        slice: 10_000,
    },
];

// By these the thread of the higher priority may revoke main's section in each epoch again, until main has no turn left.
const EITHER_WAY: [Plan; 5] = [
    Plan {
        workers: 1,
        slice: 17,
    },
    Plan {
        workers: 2,
        slice: 1,
    },
    Plan {
        workers: 2,
        slice: 17,
    },
    Plan {
        workers: 4,
        slice: 1,
    },
    Plan {
        workers: 4,
        slice: 17,
    },
];

// Whether both threads have ended, and one of them has printed a line.
fn came_to_ends(run: &HostRun<Script<'static>>) -> bool {
    let mut ended = 0u32;
    let mut lines = 0usize;
    for ready in &run.going.threads {
        if ready.thread().is_over() && ended < 10 {
            ended += 1;
        }
        lines = lines.max(ready.thread().lines().len());
    }
    ended == 2 && run.going.threads.len() == 2 && lines == 1
}

// The threads open three sections in all, and one again only after it was undone.
fn counts_are_right(run: &HostRun<Script<'static>>) -> bool {
    run.going.opened <= 3 || run.going.opened - 3 <= run.going.undone
}

// Whether the program came to its end.
fn is_at_end(run: &HostRun<Script<'static>>) -> bool {
    run.going.how.is_none() && came_to_ends(run) && 3 <= run.going.opened && counts_are_right(run)
}

fn runs_to_its_end<R: Threads + Sync>(rt: &R, alloc: Global, plan: Plan) -> Result<bool, Fail> {
    let run = run_with(rt, alloc, &STEPS, AMPLE, plan, &NoGate)?;
    Ok(is_at_end(&run))
}

#[test]
fn a_program_runs_to_its_end(rt: HostRuntime) -> Result<(), Fail> {
    for plan in &TO_THE_END {
        assert!(rt; runs_to_its_end(&rt, rt.alloc(), *plan)?);
    }
    Ok(())
}

fn ends_either_way<R: Threads + Sync>(rt: &R, alloc: Global, plan: Plan) -> Result<bool, Fail> {
    let run = run_with(rt, alloc, &STEPS, AMPLE, plan, &NoGate)?;
    let is_spent = matches!(run.going.how, Some(How::Limit(_, Limit::Turns)));
    Ok(is_at_end(&run) || is_spent && counts_are_right(&run))
}

#[test]
fn a_program_runs_to_its_end_or_to_the_limit_of_turns(rt: HostRuntime) -> Result<(), Fail> {
    for plan in &EITHER_WAY {
        assert!(rt; ends_either_way(&rt, rt.alloc(), *plan)?);
    }
    Ok(())
}

// Whether the only thread hasn't ended, and no section was opened.
fn waits(run: &HostRun<Script<'static>>) -> bool {
    let mut live = 0u32;
    for ready in &run.going.threads {
        if !ready.thread().is_over() && live < 10 {
            live += 1;
        }
    }
    live == 1 && run.going.threads.len() == 1 && run.going.opened == 0
}

fn waits_for_ever<R: Threads + Sync>(rt: &R, alloc: Global, plan: Plan) -> Result<bool, Fail> {
    let run = run_with(rt, alloc, &WAITING_STEPS, AMPLE, plan, &NoGate)?;
    Ok(run.going.how.is_none() && waits(&run))
}

#[test]
fn a_thread_that_waits_for_its_own_end_ends_the_run(rt: HostRuntime) -> Result<(), Fail> {
    for plan in &EITHER_WAY {
        assert!(rt; waits_for_ever(&rt, rt.alloc(), *plan)?);
    }
    Ok(())
}

// Main has three turns that count before it enters a monitor: it draws the number of a thread, starts it and hands it out.
fn meets_its_limit<R: Threads + Sync>(rt: &R, alloc: Global, plan: Plan) -> Result<bool, Fail> {
    let run = run_with(rt, alloc, &STEPS, 3, plan, &NoGate)?;
    Ok(matches!(run.going.how, Some(How::Limit(1, Limit::Turns))))
}

#[test]
fn a_limit_of_turns_is_named_with_its_thread(rt: HostRuntime) -> Result<(), Fail> {
    for plan in &TO_THE_END {
        assert!(rt; meets_its_limit(&rt, rt.alloc(), *plan)?);
    }
    Ok(())
}
