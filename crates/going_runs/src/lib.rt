//! Where the threads of a shared table are once they have left it: a place of a run act by act. Laws alone.
//!
//! Each function does nothing: its contract is the law.
#![tactic(auto)]

ghost use Rattle.going_runs.specs.Places.{WholeRunsHavePlaces};
ghost use Rattle.going_runs.specs.HandedOver.{HandedOverRunsGoOn, SeatedThreadsAreAfterSteps};

use op_core::ThreadCode;

/// A run of which the parts of all threads are known has acts that lead from the program's opening to the words of the run, with each
/// thread after the steps of its part and the silent moves that it made since.
pub fn whole_runs_have_places<C: ThreadCode>()
    ensures { WholeRunsHavePlaces C.state C.saved C.code }
{}

/// So `go_on` of `sched_core` can end a run that host threads handed over.
pub fn handed_over_runs_go_on<C: ThreadCode>()
    ensures { HandedOverRunsGoOn C.state C.saved C.code }
{}

/// Threads that are where the parts of their seats say are after the steps of these parts.
pub fn seated_threads_are_after_steps<C: ThreadCode>()
    ensures { SeatedThreadsAreAfterSteps C.state C.saved C.code }
{}
