//! What comes of a run, and a run that goes on until it ends.

ghost use Rattle.std.specs.Prelude.{◌≡◌, false, IfOk};
ghost use Rattle.schedules.specs.Run.{Run};
ghost use Rattle.thread_moves.specs.Thread.{thread_of};
ghost use Rattle.word_runs.specs.WordTurns.{Progress};
ghost use Rattle.sched_core.specs.Outcome.{IsOutcomeOf};
ghost use Rattle.sched_core.specs.ScheduledRun.{SaysRun, IsOnWay};

use crate::ends::ends_of;
use crate::lines::lines_of;
use crate::{WordOutcome, WordRun};
use op_core::{How, NoMemory, ThreadCode};
use std::alloc::Global;
use word_texts::made_texts;

/// What comes of a run that has come this far and ends in this way.
pub(crate) fn outcome_of<C: ThreadCode + Drop>(
    alloc: Global,
    run: WordRun<'_, C>,
    how: How,
) -> Result<WordOutcome, NoMemory>
    ensures { IfOk result (λ outcome. SaysRun C.code (thread_of C.state C.saved) run.entry how outcome) }
{
    let lines = lines_of(alloc, &run.machine)?;
    let ends = ends_of(alloc, &run.machine)?;
    let made = made_texts(alloc, &run.machine, lines.as_slice())?;
    Ok(WordOutcome {
        lines,
        ends,
        how,
        opened: run.opened,
        undone: run.undone,
        made,
    })
}

/// Goes on with a run until it ends, and says what came of it.
///
/// # Errors
///
/// `NoMemory` where there was no memory; also once the run has gone on 2^64 - 1 times, each time by a turn or more, or where as many
/// sections are opened or undone.
pub(crate) fn run_to_end<C: ThreadCode + Drop>(
    alloc: Global,
    mut run: WordRun<'_, C>,
) -> Result<WordOutcome, NoMemory>
    requires way { (from : Run (Progress C.State)) × IsOnWay C.code (thread_of C.state C.saved) run from }
    requires unlisted { run.is_listed ≡ false }
    ensures { IfOk result (λ outcome. (from : Run (Progress C.State)) → IsOnWay C.code (thread_of C.state C.saved) run.entry from
        → IsOutcomeOf C.code run.entry.machine.bounds from outcome) }
{
    for _turn in 0..u64::MAX {
        if let Some(how) = run.go_on()? {
            return outcome_of(alloc, run, how);
        }
    }
    Err(NoMemory)
}
