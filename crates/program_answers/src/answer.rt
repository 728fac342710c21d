//! What the program answers: its status, and what goes to its outputs.

use crate::output::Output;
use crate::status::Status;
use rows::{Bytes, Rows};

/// What the program answers.
#[derive(Drop)]
pub struct Answer {
    pub status: Status,
    /// What goes to the standard output.
    pub out: Output,
    /// The lines that go to the standard error, with their ends.
    pub err: Rows<Bytes>,
}
