//! What threads hold along a run: which monitors, at which of their section's levels, and what the words of monitors say
//! of that. Laws alone.
//!
//! Each function does nothing: its contract is the law.

ghost use Rattle.first_law.specs.Laws.{ThreadsHold, MonitorsOfThreadsAreHeld, UndoingsFit, UndoneMonitorsAreAsBefore};

use op_core::ThreadCode;

/// What a thread holds, by levels, and what it has fixed to do with monitors.
pub fn threads_hold<C: ThreadCode>()
    ensures { ThreadsHold C.code }
{}

/// The words of monitors say which thread holds which monitor.
pub fn monitors_are_held<C: ThreadCode>()
    ensures { MonitorsOfThreadsAreHeld C.code }
{}

/// A thread that undoes its section to a level holds what the level's mark names, so that undoing goes through.
pub fn undoings_fit<C: ThreadCode>()
    ensures { UndoingsFit C.code }
{}

/// As a thread marks a level as undone it holds exactly the monitors that it held as the level opened, each as often.
pub fn undone_monitors_are_as_before<C: ThreadCode>()
    ensures { UndoneMonitorsAreAsBefore C.code }
{}
