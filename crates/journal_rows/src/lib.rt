//! The rows of a journal while a run goes on: events and undoings in order, and beside each whether it is left.
//!
//! [`JournalRows`] is told of each event as it comes, and of the levels that threads open, close and undo. What a thread did in a
//! level that it undoes isn't left. `specs/Told.antt` says what each call makes of the rows, and what is left at last.
#![tactic(auto)]

mod event_numbers;
mod journal_rows;
mod kept;
mod telling;
mod thread_rows;

pub(crate) use event_numbers::EventNumbers;
pub use journal_rows::JournalRows;
pub use kept::KeptJournal;
pub(crate) use thread_rows::ThreadRows;
