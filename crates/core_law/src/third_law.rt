//! What is left of a run without the levels that are undone: the conditions of a clean cut. Laws alone.
//!
//! Each function does nothing: its contract is the law.

ghost use Rattle.core_law.specs.CleanCuts.{UndoneIsCut, UndoingsNest, CutIsCovered, CutIsAllowed, RestedThreadsHaveGoneBack};
ghost use Rattle.core_law.specs.CutLaw.{EventsLeftAgree, CutsAreClean, EventsLeftSettle};

use op_core::ThreadCode;

/// What a thread did since the place to which it goes back is cut.
pub fn undone_is_cut<C: ThreadCode>()
    ensures { UndoneIsCut C.code }
{}

/// Since the place to which a thread goes back it went back no further.
pub fn undoings_nest<C: ThreadCode>()
    ensures { UndoingsNest C.code }
{}

/// What is cut is gone back over later, or all that its thread does later is cut.
pub fn cut_is_covered<C: ThreadCode>()
    ensures { CutIsCovered C.code }
{}

/// No event is cut that makes something known to other threads that can't be put back.
pub fn cut_is_allowed<C: ThreadCode>()
    ensures { CutIsAllowed C.code }
{}

/// If a thread has nothing left to undo where the run ends, what is cut of it is all gone back over.
pub fn rested_threads_have_gone_back<C: ThreadCode>()
    ensures { RestedThreadsHaveGoneBack C.code }
{}

/// Each event that is left finds what the events left before it make of the words and monitors.
pub fn events_left_agree<C: ThreadCode>()
    ensures { EventsLeftAgree C.code }
{}

/// What is made with a level open that is to be undone is a clean cut of the run.
pub fn cuts_are_clean<C: ThreadCode>()
    ensures { CutsAreClean C.code }
{}

/// Where the run ends, what the events that are left make of words and monitors is as it will be once every thread has undone
/// what it is to undo.
pub fn events_left_settle<C: ThreadCode>()
    ensures { EventsLeftSettle C.code }
{}
