//! Laws of threads, each as the contract of a function with no parameters and an empty body, for the crates above to
//! cite.

ghost use Rattle.thread_automaton.specs.Laws.{MonitorsGoByContention};
ghost use Rattle.thread_automaton.specs.Walks.{Walks};

use op_core::ThreadCode;

/// What a thread does that wants a monitor is what `decide` of `monitor_core` says of the two words that it loads.
pub fn monitors_go_by_contention<C: ThreadCode>()
    ensures { MonitorsGoByContention C.State }
{}

/// How a thread goes by itself: the steps of some operations, one after another.
pub fn threads_go()
    ensures { Walks }
{}
