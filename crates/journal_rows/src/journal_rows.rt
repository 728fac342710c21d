//! Events and undoings in order, and beside each whether it is left.

ghost use Rattle.std.specs.Prelude.{◌≡◌, length};

use crate::ThreadRows;
use trace_journal::JournalItem;

/// Events and undoings in order, and beside each whether it is left. Contracts see of which calls they are (`AreRowsTold`).
#[derive(Drop)]
pub struct JournalRows {
    pub(crate) items: Vec<JournalItem>,
    pub(crate) left: Vec<bool>,
    // by the number of a thread, which is below 256
    pub(crate) threads: Vec<ThreadRows>,
    ghost whole: { length threads.items ≡ 256 },
}
