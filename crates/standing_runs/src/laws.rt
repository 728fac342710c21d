//! Laws of scheduled runs of threads that go in order.

ghost use Rattle.standing_runs.specs.Standing.{OrderlyRunsEndStuck, RunsStandWhereTheyCan};

use op_core::ThreadCode;

/// Each thread of the last machine of a run is at a local state that one can come to from the first local state, whatever is
/// answered.
pub fn runs_stand_where_they_can<C: ThreadCode>()
    ensures { RunsStandWhereTheyCan C.code }
{}

/// A stuck run of threads that go in order is a stuck execution: each thread that hasn't ended is blocked at an operation.
pub fn orderly_runs_end_stuck<C: ThreadCode>()
    ensures { OrderlyRunsEndStuck C.code }
{}
