//! A program is executed. [`execute`] runs its threads by a schedule on shared words, where a thread of higher priority takes
//! monitors back, and answers the printed lines; [`execute_hosted`] runs them on several host threads at once. [`trace`] runs them on ordinary monitors and answers the journal of the run, and
//! [`JournalCheck`] replays a journal.
#![tactic(auto)]

mod answering;
mod checking;
mod executing;

pub use answering::PrintedRun;
pub use checking::{Checked, JournalCheck};
pub use executing::{execute, execute_hosted, execute_hosted_printed, execute_printed, trace};
