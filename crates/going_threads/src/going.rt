//! Threads that go on where host threads left them.

use op_core::{How, ThreadCode};
use rollback_core::ReadyThread;

/// All threads of a run that were given turns on host threads, as they are after these turns. What goes on with them needs the
/// words that they share too.
#[derive(Drop)]
pub struct Going<C: ThreadCode> {
    /// The threads, in any order: each is where it is after the last of its steps and the silent moves that it made since.
    pub threads: Vec<ReadyThread<C>>,
    /// How many sections were opened.
    pub opened: u64,
    /// How many times a thread undid levels of its section.
    pub undone: u64,
    /// How the run ended, if it ended there: at a limit, for example.
    pub how: Option<How>,
}
