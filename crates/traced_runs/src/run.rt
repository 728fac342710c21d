//! Threads on shared words that follow a schedule and keep a journal, from an opening to what comes of them.

ghost use Rattle.std.specs.Prelude.{◌≡◌, [], IfOk};
ghost use Rattle.plain_words.specs.Opening.{HasPlace, areas_of};
ghost use Rattle.opening_cores.specs.Openings.{opening_core};
ghost use Rattle.sched_core.specs.Outcome.{bounds_of};
ghost use Rattle.sched_core.specs.Readiness.{StaysWell};
ghost use Rattle.traced_runs.specs.Outcome.{IsTracedOutcome};

use crate::ending::outcome_of;
use crate::{TracedOutcome, TracedRun};
use fixed_objects::Opening;
use op_core::{Limits, NoMemory, ThreadCode};
use plain_words::PlainWords;
use rollback_core::ReadyThread;
use schedules::Schedule;
use std::alloc::Global;
use thread_automaton::Bounds;
use word_machine::WordMachine;

/// Gives the threads of a program turns as a schedule says, until the run ends, at the latest where its journal is full: with event
/// or undoing 4,194,304. Says what came of it, with the journal. The program begins with these fixed objects and classes, and main's
/// thread with this code, of which nothing must be saved.
///
/// The opening must have its place within the limits, and what `run_schedule` of `sched_core` asks for must be so wherever acts of
/// the threads lead (`StaysWell`).
///
/// # Errors
///
/// `NoMemory` where there was no memory; also once the run has gone on 2^64 - 1 times.
pub fn run_traced<C: ThreadCode + Drop>(
    alloc: Global,
    opening: &Opening,
    code: C,
    limits: &Limits,
    schedule: &Schedule,
) -> Result<TracedOutcome, NoMemory>
    requires place { HasPlace opening.now limits.now }
    requires saved { C.saved code ≡ [] }
    requires well { StaysWell C.code (bounds_of opening.now limits.now) (areas_of opening.now limits.now) (opening_core opening.now (C.state code)) }
    ensures { IfOk result (IsTracedOutcome C.code (bounds_of opening.now limits.now) (opening_core opening.now (C.state code)) schedule.now) }
{
    let bounds = Bounds {
        limits: *limits,
        first: opening.first,
    };
    let words = PlainWords::open(alloc, opening, limits)?;
    let main = ReadyThread::first(alloc, code, 1, 5, bounds);
    let machine = WordMachine::begin(alloc, words, main)?;
    let begun = TracedRun::begin(alloc, machine, schedule)?;
    let mut run = begun;
    for _turn in 0..u64::MAX {
        if let Some(how) = run.go_on()? {
            return outcome_of(alloc, run, how);
        }
    }
    Err(NoMemory)
}
