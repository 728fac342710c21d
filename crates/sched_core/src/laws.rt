//! A law of runs that go on.

ghost use Rattle.sched_core.specs.Going.{TurnsGoOnAsActs};

use op_core::ThreadCode;

/// Turns that lead on from a place of a run are acts, made after those that lead to the place.
pub fn turns_go_on_as_acts<C: ThreadCode>()
    ensures { TurnsGoOnAsActs C.code }
{}
