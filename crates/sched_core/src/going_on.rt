//! Threads that have left their host threads, from there to what comes of them.

ghost use Rattle.std.specs.Prelude.{◌≡◌, false, None, [], IfOk};
ghost use Rattle.std.specs.List.{All};
ghost use Rattle.thread_moves.specs.Thread.{thread_of};
ghost use Rattle.word_runs.specs.WordTurns.{Progress};
ghost use Rattle.sched_core.specs.Outcome.{rest_of};
ghost use Rattle.sched_core.specs.ScheduledRun.{IsOnWay};
ghost use Rattle.sched_core.specs.Going.{unscheduled, IsGoing, IsGoneOn};

use crate::outcomes::{outcome_of, run_to_end};
use crate::{WordOutcome, WordRun};
use going_threads::Going;
use op_core::{NoMemory, Rows, ThreadCode};
use plain_words::PlainWords;
use schedules::Schedule;
use std::alloc::Global;
use thread_automaton::Bounds;
use word_machine::WordMachine;

// The run of these threads, where it was left.
fn resume_run<'a, C: ThreadCode + Drop>(
    alloc: Global,
    words: PlainWords,
    bounds: Bounds,
    going: Going<C>,
    schedule: &'a Schedule,
) -> Result<WordRun<'a, C>, NoMemory>
    requires bounds { All (λ x. x.own.bounds ≡ bounds) going.threads.items }
    requires none { rest_of schedule.now ≡ record { order = []; number = None } }
    ensures bounds { IfOk result (λ run. run.machine.bounds ≡ bounds) }
    ensures unlisted { IfOk result (λ run. run.is_listed ≡ false) }
    ensures way { IfOk result (λ run. (place : Progress C.State) → IsGoing C.code (thread_of C.state C.saved) bounds words going place
        → IsOnWay C.code (thread_of C.state C.saved) run (unscheduled place)) }
{
    let machine = WordMachine::resume(alloc, words, going.threads, bounds)?;
    let mut run = WordRun::new(alloc, machine, schedule);
    run.opened = going.opened;
    run.undone = going.undone;
    Ok(run)
}

/// Ends a run whose threads have left their host threads, and says what came of it. Where `going` says how the run ended, no turn is
/// given. Else the lowest thread that can go on gets the next turn, until the run ends.
///
/// The threads must be all those of one run, which has come to these words, within these bounds, and the counts those of the run. Where
/// `going` says that a thread met a limit, that must be what the thread's next turn comes to. Wherever acts of the threads lead from
/// where the run began, each thread that hasn't ended must be able to have its turn, and more (`StaysWell`).
///
/// # Errors
///
/// `NoMemory` where there was no memory; also once the run has gone on 2^64 - 1 times, each time by a turn or more, or where 2^64
/// sections are opened or undone.
pub fn go_on<C: ThreadCode + Drop>(
    alloc: Global,
    words: PlainWords,
    bounds: Bounds,
    going: Going<C>,
) -> Result<WordOutcome, NoMemory>
    requires { (place : Progress C.State) × IsGoing C.code (thread_of C.state C.saved) bounds words going place }
    ensures { IfOk result (λ outcome. (place : Progress C.State) → IsGoing C.code (thread_of C.state C.saved) bounds words going place
        → IsGoneOn C.code bounds place going.how outcome) }
{
    let schedule = Schedule {
        order: Rows::new(alloc),
        seed: None,
    };
    let how = going.how;
    let run = resume_run(alloc, words, bounds, going, &schedule)?;
    match how {
        Some(how) => outcome_of(alloc, run, how),
        None => run_to_end(alloc, run),
    }
}
