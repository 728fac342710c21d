//! Monitors and waits along a run of a code that names nothing out of nothing. Laws alone.
//!
//! Each function does nothing: its contract is the law.

ghost use Rattle.first_law.specs.Free.{FreeRunsFitObjects, FreeRunsHoldMonitors, WaitsStayKnown, FreeRunsFit, FreeRunsAreInPlace};

use op_core::ThreadCode;

/// What threads want is in range, names objects and words that are there, and leaves start words alone.
pub fn free_runs_fit_objects<C: ThreadCode>()
    ensures { FreeRunsFitObjects C.code }
{}

/// The monitors of objects lie apart from all other words of objects.
pub fn free_runs_hold_monitors<C: ThreadCode>()
    ensures { FreeRunsHoldMonitors C.code }
{}

/// The words of waits say who waits for which object, and a notify passes no thread that does.
pub fn waits_stay_known<C: ThreadCode>()
    ensures { WaitsStayKnown C.code }
{}

/// Each monitor that isn't free is held by one thread, as its word says, and steps on monitors and waits fit what threads
/// hold.
pub fn free_runs_fit<C: ThreadCode>()
    ensures { FreeRunsFit C.code }
{}

/// Each act shows an entry, and the entries are an in-place list of the ordinary states that the words and threads of the
/// run stand for.
pub fn free_runs_are_in_place<C: ThreadCode>()
    ensures { FreeRunsAreInPlace C.code }
{}
