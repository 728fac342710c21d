//! What the events that are left have made of each monitor, along a run. A law alone.
//!
//! The function does nothing: its contract is the law.

ghost use Rattle.first_law.specs.SettledRuns.{MonitorsSettle};

use op_core::ThreadCode;

/// At each place of a run the monitors are settled: those that threads will hold once they have undone what they are to
/// undo are, each as often, those that the events which are left have made.
pub fn monitors_settle<C: ThreadCode>()
    ensures { MonitorsSettle C.code }
{}
