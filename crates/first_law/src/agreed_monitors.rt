//! Events that are left find each monitor as the events left before them have made it. A law alone.
//!
//! The function does nothing: its contract is the law.

ghost use Rattle.first_law.specs.Agreed.{MonitorsAgree};

use op_core::ThreadCode;

/// An operation on a monitor that is answered while its thread has no level open that is to be undone finds the monitor
/// as the events that are left have made it.
pub fn monitors_agree<C: ThreadCode>()
    ensures { MonitorsAgree C.code }
{}
