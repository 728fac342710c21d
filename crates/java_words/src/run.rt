//! The run of a program on shared words.

ghost use Rattle.std.specs.Prelude.{◌≡◌, ◌<◌, ◌^◌, None, IfOk};
ghost use Rattle.accepted_runs.specs.Programs.{IsOfFiles};
ghost use Rattle.java_words.specs.WordRun.{of_words, IsWordRun};

use accepted_runs::{
    accepted_runs_are_erased, accepted_runs_are_ready, accepted_turns_tell_texts,
    held_up_programs_wait, turns_tell_ends,
};
use core_law::held_up_turns_are_idle;
use interp_calls::{JavaCode, JavaProgram};
use java_machine::opening;
use op_core::{Limits, NoMemory, Outcome};
use plain_words::has_place;
use program_accept::Program;
use sched_core::{WordOutcome, run_schedule};
use schedules::Schedule;
use std::alloc::Global;

/// What came of a run on shared words of which no events were kept.
///
/// # Errors
///
/// `NoMemory` where 2^32 sections or more were opened or undone.
pub(crate) fn outcome_of(run: WordOutcome) -> Result<Outcome, NoMemory>
    ensures words { IfOk result (λ outcome. of_words outcome ≡ run) }
    ensures untold { IfOk result (λ outcome. (outcome.events ≡ None) × (outcome.undos ≡ None)) }
{
    let Ok(opened) = u32::try_from(run.opened) else {
        return Err(NoMemory);
    };
    Ok(Outcome {
        lines: run.lines,
        ends: run.ends,
        how: run.how,
        opened,
        undone: run.undone,
        events: None,
        undos: None,
        made: run.made,
    })
}

/// Executes a program by a schedule and under limits on shared words, on one host thread, and says what came of it; `program` is the
/// same program, as the code of its threads sees it. A thread that wants a monitor which a thread of lower priority holds has that
/// thread's section undone back to the entry of the monitor, unless that can't be undone any more.
///
/// There must be fewer than 2^24 sections, and fewer than 2^56 turns of each thread.
///
/// # Errors
///
/// `NoMemory` where memory runs out; also where the fixed objects and the heap have more than 2^32 places, and once the run has gone on
/// 2^64 - 1 times, each time by a turn or more.
pub fn run_words<P: JavaProgram>(
    alloc: Global,
    program: &P,
    accepted: &Program,
    schedule: &Schedule,
    limits: &Limits,
) -> Result<Outcome, NoMemory>
    requires same { P.units program.now ≡ accepted.now.units }
    requires accepted { IsOfFiles accepted.now }
    requires sections { limits.now.sections < 2 ^ 24 }
    requires turns { limits.now.turns < 2 ^ 56 }
    ensures { IfOk result (IsWordRun accepted.now.units accepted.now.main schedule.now limits.now) }
{
    accepted_runs_are_erased(accepted);
    accepted_runs_are_ready(accepted);
    held_up_programs_wait(accepted);
    accepted_turns_tell_texts(accepted);
    turns_tell_ends();
    held_up_turns_are_idle::<JavaCode<'_, P>>();
    let opening = opening(alloc, accepted.world())?;
    if !has_place(&opening, limits) {
        return Err(NoMemory);
    }
    let code = JavaCode::main(alloc, program, accepted.main())?;
    let run = run_schedule(alloc, &opening, code, limits, schedule)?;
    outcome_of(run)
}
