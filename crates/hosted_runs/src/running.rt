//! A run on host threads, from an opening to its end.

ghost use Rattle.std.specs.Prelude.{◌≡◌, [], IfOk};
ghost use Rattle.plain_words.specs.Opening.{HasPlace, areas_of};
ghost use Rattle.table_words.specs.Setups.{setup};
ghost use Rattle.table_hosts.specs.Standing.{ThreadsCanGoOn};
ghost use Rattle.opening_cores.specs.Openings.{opening_core};
ghost use Rattle.sched_core.specs.Outcome.{bounds_of};
ghost use Rattle.sched_core.specs.Readiness.{StaysWell};
ghost use Rattle.hosted_runs.specs.Hosted.{IsHostedOutcome};

use epoch_host::{HostRun, run_hosts};
use fixed_objects::Opening;
use going_runs::{handed_over_runs_go_on, seated_threads_are_after_steps};
use jr_ports::Gate;
use op_core::{Limits, NoMemory, ThreadCode};
use sched_core::{WordOutcome, go_on, turns_go_on_as_acts};
use std::alloc::Global;
use std::thread::Threads;
use thread_automaton::Bounds;

/// Has host threads give the threads of a program turns, until the run ends, and says what came of it. At most `workers` of them (0
/// counts as 1) give turns at once, at most `slice` turns to a thread in a row, and each passes the gate before it begins
/// ([`run_hosts`]); where none of the threads can go on so, or all have ended, the rest is done on one host thread ([`go_on`]). The
/// program begins with these fixed objects and classes, and main's thread with this code, of which nothing must be saved.
///
/// The opening must have its place within the limits. Whatever threads of the program want must be possible on the shared table
/// (`ThreadsCanGoOn`), and wherever acts of the threads lead, each thread that hasn't ended must be able to have its turn, and more
/// (`StaysWell`).
///
/// # Errors
///
/// `NoMemory` where there was no memory; also after 2^64 - 2 epochs, or once the run has gone on 2^64 - 1 times on one host thread, or
/// where 2^64 sections are opened or undone.
pub fn run_hosted<C: ThreadCode + Drop + Send, R: Threads + Sync, G: Gate + Sync>(
    rt: &R,
    alloc: Global,
    opening: &Opening,
    limits: &Limits,
    code: C,
    workers: u32,
    slice: u32,
    gate: &G,
) -> Result<WordOutcome, NoMemory>
    requires place { HasPlace opening.now limits.now }
    requires saved { C.saved code ≡ [] }
    requires can { ThreadsCanGoOn C.state C.code (setup opening.now limits.now code) }
    requires well { StaysWell C.code (bounds_of opening.now limits.now) (areas_of opening.now limits.now) (opening_core opening.now (C.state code)) }
    ensures { IfOk result (IsHostedOutcome C.code (bounds_of opening.now limits.now) (opening_core opening.now (C.state code))) }
{
    seated_threads_are_after_steps::<C>();
    handed_over_runs_go_on::<C>();
    turns_go_on_as_acts::<C>();
    let bounds = Bounds {
        limits: *limits,
        first: opening.first,
    };
    let hosted = run_hosts(rt, alloc, opening, limits, code, workers, slice, gate)?;
    let HostRun {
        table,
        first,
        rest,
        going,
    } = hosted;
    let Ok(words) = table.finish(alloc, first, rest) else {
        return Err(NoMemory);
    };
    go_on(alloc, words, bounds, going)
}
