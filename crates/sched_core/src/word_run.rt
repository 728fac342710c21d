//! Threads on shared words that follow a schedule.

use op_core::ThreadCode;
use schedules::Remaining;
use word_machine::WordMachine;

/// Threads on shared words that follow a schedule. Contracts see of which places of a run they are (`IsPlaceOf`).
#[derive(Drop)]
pub(crate) struct WordRun<'a, C: ThreadCode> {
    pub(crate) machine: WordMachine<C>,
    pub(crate) rest: Remaining<'a>,
    // the threads that can go on, by rising number, where they are listed
    pub(crate) enabled: Vec<u8>,
    pub(crate) is_listed: bool,
    // how many sections were opened, and how often a thread undid levels
    pub(crate) opened: u64,
    pub(crate) undone: u64,
}
