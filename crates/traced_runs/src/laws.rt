//! Laws of the journals of runs that follow a schedule, each as the contract of a function that does nothing.

ghost use Rattle.traced_runs.specs.Laws.{RowsLeftAreJournals, KeptJournalsFit};

use core_law::told_journals::{silent_moves_tell_nothing, steps_tell_rows, threads_tell_journals};
use op_core::ThreadCode;

/// What is left of what the acts of a run tell is the journal of what is left of the run.
pub fn rows_left_are_journals<C: ThreadCode>()
    ensures { RowsLeftAreJournals C.code }
{
    steps_tell_rows::<C>();
    silent_moves_tell_nothing::<C>();
    threads_tell_journals::<C>();
}

/// A journal that was kept has at most 4,194,304 events and undoings.
pub fn kept_journals_fit<C: ThreadCode>()
    ensures { KeptJournalsFit C.code }
{}
