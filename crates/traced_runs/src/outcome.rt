//! What came of threads on shared words that kept a journal.

use journal_rows::KeptJournal;
use sched_core::WordOutcome;

/// What came of threads on shared words that kept a journal.
#[derive(Drop)]
pub struct TracedOutcome {
    /// How the run ended, and what its words and threads then say.
    pub run: WordOutcome,
    /// The events that are left, and the undoings.
    pub journal: KeptJournal,
}
