//! What came of threads on shared words.

use op_core::{How, Line, MadeText, Rows, ThreadEnd};

/// What came of threads on shared words.
#[derive(Drop)]
pub struct WordOutcome {
    /// The printed lines in order.
    pub lines: Rows<Line>,
    /// The threads that ended, by rising number.
    pub ends: Rows<ThreadEnd>,
    /// How the run ended.
    pub how: How,
    /// How many sections were opened.
    pub opened: u64,
    /// How many times a thread undid levels of its section.
    pub undone: u64,
    /// The texts of the lines that the program made, each array once, by rising reference.
    pub made: Rows<MadeText>,
}
