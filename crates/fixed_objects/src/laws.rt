//! Laws of openings, each as the contract of a function with no parameters and an empty body, for the crates
//! above to cite.

ghost use Rattle.fixed_objects.specs.Opening.{OnlyFixedObjectsHaveWords, StartedThreadsHaveBegun};

use op_core::ThreadCode;

/// As a program begins, only objects have words: a premise of the cut law.
pub fn only_fixed_objects_have_words<C: ThreadCode>()
    ensures { OnlyFixedObjectsHaveWords C.State }
{}

/// As a program begins, where main's Thread alone has started a thread, that thread has begun.
pub fn started_threads_have_begun<C: ThreadCode>()
    ensures { StartedThreadsHaveBegun C.State }
{}
