//! What a run leaves of the ends of threads, read off the core with which it ends.

ghost use Rattle.core_law.specs.Ends.{EndsAreThoseLeft, OverThreadsWantTheirEnd};

use op_core::ThreadCode;

/// A thread that is over at any place of a run wanted to end.
pub fn over_threads_want_their_end<C: ThreadCode>()
    ensures { OverThreadsWantTheirEnd C.code }
{}

/// A thread has ended where a run ends exactly if it has ended after the execution that is left of the run; and both have it end
/// with an exception of the same class, or with none.
pub fn ends_are_those_left<C: ThreadCode>()
    ensures { EndsAreThoseLeft C.code }
{}
