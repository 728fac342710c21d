//! What holds of the rows of all programs, each as the contract of a function that does nothing.

ghost use Rattle.java_rows.specs.Laws.{UsesKeepNoOperands};

/// How a call goes on doesn't depend on the operands that it took.
pub fn uses_keep_no_operands()
    ensures { UsesKeepNoOperands }
{}
