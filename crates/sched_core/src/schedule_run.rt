//! Threads on shared words that follow a schedule, from an opening to what comes of them.

ghost use Rattle.std.specs.Prelude.{◌≡◌, false, [], IfOk};
ghost use Rattle.plain_words.specs.Opening.{HasPlace, areas_of};
ghost use Rattle.opening_cores.specs.Openings.{opening_core};
ghost use Rattle.thread_moves.specs.Thread.{thread_of};
ghost use Rattle.word_runs.specs.Laws.{begun_with};
ghost use Rattle.sched_core.specs.Outcome.{bounds_of, rest_of, IsOutcome};
ghost use Rattle.sched_core.specs.Readiness.{StaysWell};
ghost use Rattle.sched_core.specs.ScheduledRun.{IsOnWay};

use crate::outcomes::run_to_end;
use crate::{WordOutcome, WordRun};
use fixed_objects::Opening;
use op_core::{Limits, NoMemory, ThreadCode};
use plain_words::PlainWords;
use rollback_core::ReadyThread;
use schedules::Schedule;
use std::alloc::Global;
use thread_automaton::Bounds;
use word_machine::WordMachine;

// A run that begins with these fixed objects and classes, and with main's thread.
fn begin_run<'a, C: ThreadCode + Drop>(
    alloc: Global,
    opening: &Opening,
    code: C,
    limits: &Limits,
    schedule: &'a Schedule,
) -> Result<WordRun<'a, C>, NoMemory>
    requires place { HasPlace opening.now limits.now }
    requires saved { C.saved code ≡ [] }
    requires well { StaysWell C.code (bounds_of opening.now limits.now) (areas_of opening.now limits.now) (opening_core opening.now (C.state code)) }
    ensures bounds { IfOk result (λ run. run.machine.bounds ≡ bounds_of opening.now limits.now) }
    ensures unlisted { IfOk result (λ run. run.is_listed ≡ false) }
    ensures way { IfOk result (λ run. IsOnWay C.code (thread_of C.state C.saved) run (begun_with (opening_core opening.now (C.state code)) (rest_of schedule.now) false)) }
{
    let bounds = Bounds {
        limits: *limits,
        first: opening.first,
    };
    let words = PlainWords::open(alloc, opening, limits)?;
    let main = ReadyThread::first(alloc, code, 1, 5, bounds);
    let machine = WordMachine::begin(alloc, words, main)?;
    Ok(WordRun::new(alloc, machine, schedule))
}

/// Gives the threads of a program turns as a schedule says, until the run ends, and says what came of it. The program begins with
/// these fixed objects and classes, and main's thread with this code, of which nothing must be saved.
///
/// The opening must have its place within the limits. Wherever acts of the threads lead, each thread that hasn't ended must be
/// able to have its turn, the lines must have their tickets, and more (`StaysWell`).
///
/// # Errors
///
/// `NoMemory` where there was no memory; also once the run has gone on 2^64 - 1 times, each time by a turn or more, or where as many
/// sections are opened or undone.
pub fn run_schedule<C: ThreadCode + Drop>(
    alloc: Global,
    opening: &Opening,
    code: C,
    limits: &Limits,
    schedule: &Schedule,
) -> Result<WordOutcome, NoMemory>
    requires place { HasPlace opening.now limits.now }
    requires saved { C.saved code ≡ [] }
    requires well { StaysWell C.code (bounds_of opening.now limits.now) (areas_of opening.now limits.now) (opening_core opening.now (C.state code)) }
    ensures { IfOk result (IsOutcome C.code (bounds_of opening.now limits.now) (opening_core opening.now (C.state code)) schedule.now) }
{
    let run = begin_run(alloc, opening, code, limits, schedule)?;
    run_to_end(alloc, run)
}
