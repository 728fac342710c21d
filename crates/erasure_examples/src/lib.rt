//! A run of two threads with an undo to an inner level and one to the outermost level, computed from the definitions, to which
//! the erasure law applies. Laws alone.
#![tactic(auto)]

ghost use Rattle.erasure_examples.specs.Example.{ARunIsErased};

/// The run meets all that the erasure law asks, two levels are undone in it, and what is left of it prints its line.
pub fn a_run_is_erased()
    ensures { ARunIsErased }
{}
