//! What comes of a run that has ended.

ghost use Rattle.std.specs.Prelude.{IfOk};
ghost use Rattle.thread_moves.specs.Thread.{thread_of};
ghost use Rattle.traced_runs.specs.TracedRun.{SaysTracedRun};

use crate::telling::tell_ends;
use crate::{TracedOutcome, TracedRun};
use op_core::{How, NoMemory, ThreadCode};
use sched_core::{WordOutcome, ends_of, lines_of};
use std::alloc::Global;
use word_texts::made_texts;

/// What comes of a run that has come this far and ends in this way.
pub(crate) fn outcome_of<C: ThreadCode + Drop>(
    alloc: Global,
    run: TracedRun<'_, C>,
    how: How,
) -> Result<TracedOutcome, NoMemory>
    ensures { IfOk result (λ outcome. SaysTracedRun C.code (thread_of C.state C.saved) run.entry how outcome) }
{
    let lines = lines_of(alloc, &run.machine)?;
    let ends = ends_of(alloc, &run.machine)?;
    let made = made_texts(alloc, &run.machine, lines.as_slice())?;
    let mut rows = run.rows;
    tell_ends(&run.machine, &mut rows, run.machine.count());
    let journal = rows.finish(alloc)?;
    let run = WordOutcome {
        lines,
        ends,
        how,
        opened: run.opened,
        undone: run.undone,
        made,
    };
    Ok(TracedOutcome { run, journal })
}
