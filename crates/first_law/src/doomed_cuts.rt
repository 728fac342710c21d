//! Which acts of a run are left out, where a test says which levels are to be undone. A law alone.
//!
//! The function does nothing: its contract is the law.

ghost use Rattle.first_law.specs.Cuts.{TestedActsAreCut};

use op_core::ThreadCode;

/// The acts of threads with a level open that is to be undone are the cut of the run.
pub fn tested_acts_are_cut<C: ThreadCode>()
    ensures { TestedActsAreCut C.State }
{}
