//! The start words of thread objects along a run, and the threads that are about to begin. A law alone.
//!
//! The function does nothing: its contract is the law.

ghost use Rattle.section_laws.specs.Starts.{StartsStayKnown};

use op_core::ThreadCode;

/// The start word of a thread object is 0 or the number of a thread that is started, and of no other object's; a thread
/// that is to be started has a new number, begins where its object says, and is the one whose end is waited for.
pub fn starts_are_known<C: ThreadCode>()
    ensures { StartsStayKnown C.code }
{}
