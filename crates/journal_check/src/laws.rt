//! Laws of the check of journals, for all thread codes, each as the contract of a function with no parameters and an empty
//! body, for the crates above to cite.

ghost use Rattle.journal_check.specs.Laws.{ChecksHaveOneOutcome, AcceptedTextsAreExecutions, ExecutionsAreAccepted};

use op_core::ThreadCode;

/// The check of a text comes to one thing.
pub fn checks_have_one_outcome<C: ThreadCode>()
    ensures { ChecksHaveOneOutcome C.code }
{}

/// A text that is accepted is a journal whose events are an execution, but for their printed lines.
pub fn accepted_texts_are_executions<C: ThreadCode>()
    ensures { AcceptedTextsAreExecutions C.code }
{}

/// The journal of an execution is accepted, and leads to the execution's last state.
pub fn executions_are_accepted<C: ThreadCode>()
    ensures { ExecutionsAreAccepted C.code }
{}
