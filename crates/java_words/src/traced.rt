//! The run of a program on shared words that keeps a journal.

ghost use Rattle.std.specs.Prelude.{◌≡◌, ◌<◌, ◌^◌, Some, IfOk};
ghost use Rattle.accepted_runs.specs.Programs.{IsOfFiles};
ghost use Rattle.java_words.specs.TracedRun.{IsTracedRun};
ghost use Rattle.java_words.specs.WordRun.{of_words};

use accepted_runs::{
    accepted_runs_are_erased, accepted_runs_are_ready, accepted_turns_tell_texts,
    held_up_programs_wait, turns_tell_ends,
};
use core_law::held_up_turns_are_idle;
use core_law::run_journals::journals_have_events;
use interp_calls::{JavaCode, JavaProgram};
use java_machine::opening;
use op_core::{Limits, NoMemory, Outcome};
use plain_words::has_place;
use program_accept::Program;
use schedules::Schedule;
use std::alloc::Global;
use traced_runs::laws::{kept_journals_fit, rows_left_are_journals};
use traced_runs::{TracedOutcome, run_traced};

// What came of a run on shared words, with its journal.
fn outcome_of(traced: TracedOutcome) -> Result<Outcome, NoMemory>
    ensures words { IfOk result (λ outcome. of_words outcome ≡ traced.run) }
    ensures events { IfOk result (λ outcome. outcome.events ≡ Some traced.journal.events) }
    ensures undos { IfOk result (λ outcome. outcome.undos ≡ Some traced.journal.undos) }
{
    let TracedOutcome { run, journal } = traced;
    let Ok(opened) = u32::try_from(run.opened) else {
        return Err(NoMemory);
    };
    Ok(Outcome {
        lines: run.lines,
        ends: run.ends,
        how: run.how,
        opened,
        undone: run.undone,
        events: Some(journal.events),
        undos: Some(journal.undos),
        made: run.made,
    })
}

/// Executes a program as `run_words` does, and keeps the events that are left of the run, and its undoings. The run ends at the latest
/// with event or undoing 4,194,304.
///
/// There must be fewer than 2^24 sections, and fewer than 2^56 turns of each thread.
///
/// # Errors
///
/// `NoMemory` where memory runs out; also where the fixed objects and the heap have more than 2^32 places, where the journal has a
/// number for which there is no room, and once the run has gone on 2^64 - 1 times.
pub fn run_traced_words<P: JavaProgram>(
    alloc: Global,
    program: &P,
    accepted: &Program,
    schedule: &Schedule,
    limits: &Limits,
) -> Result<Outcome, NoMemory>
    requires same { P.units program.now ≡ accepted.now.units }
    requires accepted { IsOfFiles accepted.now }
    requires sections { limits.now.sections < 2 ^ 24 }
    requires turns { limits.now.turns < 2 ^ 56 }
    ensures { IfOk result (IsTracedRun accepted.now.units accepted.now.main schedule.now limits.now) }
{
    accepted_runs_are_erased(accepted);
    accepted_runs_are_ready(accepted);
    held_up_programs_wait(accepted);
    accepted_turns_tell_texts(accepted);
    turns_tell_ends();
    held_up_turns_are_idle::<JavaCode<'_, P>>();
    rows_left_are_journals::<JavaCode<'_, P>>();
    kept_journals_fit::<JavaCode<'_, P>>();
    journals_have_events::<JavaCode<'_, P>>();
    let opening = opening(alloc, accepted.world())?;
    if !has_place(&opening, limits) {
        return Err(NoMemory);
    }
    let code = JavaCode::main(alloc, program, accepted.main())?;
    let traced = run_traced(alloc, &opening, code, limits, schedule)?;
    outcome_of(traced)
}
