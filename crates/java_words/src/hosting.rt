//! The run of a program on host threads.

ghost use Rattle.std.specs.Prelude.{◌≡◌, ◌<◌, ◌^◌, IfOk};
ghost use Rattle.accepted_runs.specs.Programs.{IsOfFiles};
ghost use Rattle.java_words.specs.HostedRun.{IsHostedRun};

use crate::run::outcome_of;
use accepted_runs::{
    accepted_programs_can_go_on, accepted_runs_are_erased, accepted_runs_are_ready,
    accepted_turns_tell_texts, held_up_programs_wait, turns_tell_ends,
};
use core_law::held_up_turns_are_idle;
use hosted_runs::run_hosted;
use interp_calls::{JavaCode, JavaProgram};
use java_machine::opening;
use jr_ports::Gate;
use op_core::{Limits, NoMemory, Outcome};
use plain_words::has_place;
use program_accept::Program;
use std::alloc::Global;
use std::thread::Threads;

/// Executes a program under limits on words that host threads share, and says what came of it; `program` is the same program, as the
/// code of its threads sees it. At most `workers` host threads give the program's threads turns at once, at most `slice` turns to a
/// thread in a row, and each of them passes the gate before it begins ([`run_hosted`]). A thread that wants a monitor which a thread of
/// lower priority holds has that thread's section undone back to the entry of the monitor, unless that can't be undone any more.
///
/// There must be fewer than 2^24 sections, and fewer than 2^56 turns of each thread.
///
/// # Errors
///
/// `NoMemory` where memory runs out; also where the fixed objects and the heap have more than 2^32 places, and after 2^64 - 2 epochs, or
/// once the run has gone on as often on one host thread.
pub fn run_on_hosts<P, R, G>(
    rt: &R,
    alloc: Global,
    program: &P,
    accepted: &Program,
    limits: &Limits,
    workers: u32,
    slice: u32,
    gate: &G,
) -> Result<Outcome, NoMemory>
where
    P: JavaProgram + Sync,
    R: Threads + Sync,
    G: Gate + Sync,
    requires same { P.units program.now ≡ accepted.now.units }
    requires accepted { IsOfFiles accepted.now }
    requires sections { limits.now.sections < 2 ^ 24 }
    requires turns { limits.now.turns < 2 ^ 56 }
    ensures { IfOk result (IsHostedRun accepted.now.units accepted.now.main limits.now) }
{
    accepted_runs_are_erased(accepted);
    accepted_runs_are_ready(accepted);
    accepted_programs_can_go_on::<JavaCode<'_, P>>(accepted);
    held_up_programs_wait(accepted);
    accepted_turns_tell_texts(accepted);
    turns_tell_ends();
    held_up_turns_are_idle::<JavaCode<'_, P>>();
    let opening = opening(alloc, accepted.world())?;
    if !has_place(&opening, limits) {
        return Err(NoMemory);
    }
    let code = JavaCode::main(alloc, program, accepted.main())?;
    let run = run_hosted(rt, alloc, &opening, limits, code, workers, slice, gate)?;
    outcome_of(run)
}
