//! Laws of toy programs, each as the contract of a function with no parameters and an empty body, for the
//! crates above to cite.

ghost use Rattle.toy_code.specs.ToyLaws.{ToysAreOrderly, ToysAreGrounded, ToysKeepStartWords};

/// A toy thread goes in order where its scripts do no half of a wait and no end, name classes below the
/// number, and make objects of few words.
pub fn toys_are_orderly()
    ensures { ToysAreOrderly }
{}

/// A start at which all that the scripts name is there is grounded.
pub fn toys_are_grounded()
    ensures { ToysAreGrounded }
{}

/// Scripts whose operations leave start words alone keep them.
pub fn toys_keep_start_words()
    ensures { ToysKeepStartWords }
{}
