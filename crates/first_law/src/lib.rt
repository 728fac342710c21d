//! The in-place list of a run on shared words. Laws alone.
//!
//! Each function does nothing: its contract is the law.
#![tactic(auto)]

pub mod agreed_monitors;
pub mod doomed_cuts;
pub mod grounded_monitors;
pub mod run_monitors;
pub mod settled_monitors;

ghost use Rattle.first_law.specs.InPlace.{RunsAreInPlace};
ghost use Rattle.first_law.specs.Grounded.{GroundedRunsAreSeen, GroundedRunsAreInPlace};

use op_core::ThreadCode;

/// Each act of a run shows an entry, and the entries are an in-place list of the ordinary states that the words and threads of
/// the run stand for.
pub fn runs_are_in_place<C: ThreadCode>()
    ensures { RunsAreInPlace C.code }
{}

/// In a run of a code that names nothing out of nothing, threads want what is in range, name objects and words that are
/// there, and leave start words alone; and numbers, priorities and loaded words are in range.
pub fn grounded_runs_are_seen<C: ThreadCode>()
    ensures { GroundedRunsAreSeen C.code }
{}

/// So such a run is an in-place list.
pub fn grounded_runs_are_in_place<C: ThreadCode>()
    ensures { GroundedRunsAreInPlace C.code }
{}
