//! Threads with their seats.

use op_core::ThreadCode;
use rollback_core::ReadyThread;
use table_words::TableSeat;

/// A thread with its seat. It can go to another host thread.
#[derive(Drop)]
pub struct SeatedThread<C: ThreadCode> {
    /// The thread.
    pub thread: ReadyThread<C>,
    /// Its seat.
    pub seat: TableSeat<C>,
}
