//! The erasure law: what is left of a run without the levels that are undone is an execution. Laws alone.
//!
//! Each function does nothing: its contract is the law.
#![tactic(auto)]

mod end_laws;
pub mod run_journals;
mod stuck_laws;
mod text_laws;
pub mod third_law;
pub mod told_journals;

ghost use Rattle.core_law.specs.Erasure.{ErasedRunsAreExecutions, RunsAreErased, ErasuresAreOne};
ghost use Rattle.core_law.specs.RevokedLevels.{RevokedLevelsAreTold};

pub use end_laws::{ends_are_those_left, over_threads_want_their_end};
use op_core::ThreadCode;
pub use stuck_laws::{
    held_up_turns_are_idle, idle_cores_are_stuck, idle_runs_end_stuck,
    idle_runs_have_nothing_to_undo,
};
pub use text_laws::{
    levels_to_undo_are_told, texts_are_those_left, words_are_those_left, words_to_put_back_are_told,
};

/// Which acts opened levels that are revoked at any place of a run is computed from the run.
pub fn revoked_levels_are_told<C: ThreadCode>()
    ensures { RevokedLevelsAreTold C.code }
{}

/// The events that are left are an execution of the ordinary machine, from the ordinary state in which the run begins.
pub fn erased_runs_are_executions<C: ThreadCode>()
    ensures { ErasedRunsAreExecutions C.code }
{}

/// Of each run an execution is left that leads to a state with the lines, the ends of threads and the classes of the run's last
/// ordinary state, and with its words and monitors once every thread has undone what it is to undo.
pub fn runs_are_erased<C: ThreadCode>()
    ensures { RunsAreErased C.code }
{}

/// The events that are left are the same for all entries that the acts of the run show.
pub fn erasures_are_one<C: ThreadCode>()
    ensures { ErasuresAreOne C.code }
{}
