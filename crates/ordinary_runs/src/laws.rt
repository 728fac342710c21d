//! Laws of scheduled runs for all thread codes, each as the contract of a function with no parameters and an empty
//! body, for the crates above to cite.

ghost use Rattle.ordinary_runs.specs.Laws.{RunsHaveOneOutcome, RunsHaveEvents, RunsFitJournals, RunsAreExecutions, StuckRunsAreStuck};

use op_core::ThreadCode;

/// A machine that follows a schedule under limits has one outcome.
pub fn runs_have_one_outcome<C: ThreadCode>()
    ensures { RunsHaveOneOutcome C.code }
{}

/// A run of which no events were kept is the same with the events that its turns made.
pub fn runs_have_events<C: ThreadCode>()
    ensures { RunsHaveEvents C.code }
{}

/// A run whose events are kept for a journal has at most 4,194,304 of them.
pub fn runs_fit_journals<C: ThreadCode>()
    ensures { RunsFitJournals C.code }
{}

/// The outcome of a run is that of an execution.
pub fn runs_are_executions<C: ThreadCode>()
    ensures { RunsAreExecutions C.code }
{}

/// A stuck run is a stuck execution, but for threads that are at their code's end and haven't ended.
pub fn stuck_runs_are_stuck<C: ThreadCode>()
    ensures { StuckRunsAreStuck C.code }
{}
