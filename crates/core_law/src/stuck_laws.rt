//! Places of a run on shared words at which no thread can go on.

ghost use Rattle.core_law.specs.Idle.{IdleCoresAreStuck};
ghost use Rattle.core_law.specs.Rest.{IdleRunsHaveNothingToUndo};
ghost use Rattle.core_law.specs.Stuck.{HeldUpTurnsAreIdle, IdleRunsEndStuck};

use op_core::ThreadCode;

/// Where no thread is enabled at a place of a run, and some thread hasn't ended, what is left of the run is stuck: each thread that
/// hasn't ended wants, after some silent steps, an operation that has no step in the ordinary machine.
pub fn idle_cores_are_stuck<C: ThreadCode>()
    ensures { IdleCoresAreStuck C.code }
{}

/// Where a run ends and no thread is enabled, no thread has a level open that is to be undone.
pub fn idle_runs_have_nothing_to_undo<C: ThreadCode>()
    ensures { IdleRunsHaveNothingToUndo C.code }
{}

/// Where a run ends and no thread is enabled, and some thread hasn't ended, the execution that is left of the run is stuck: the
/// levels that are revoked at any place of it are left out.
pub fn idle_runs_end_stuck<C: ThreadCode>()
    ensures { IdleRunsEndStuck C.code }
{}

/// Where turns that follow a schedule are held up, no thread is enabled, and some thread hasn't ended.
pub fn held_up_turns_are_idle<C: ThreadCode>()
    ensures { HeldUpTurnsAreIdle C.code }
{}
