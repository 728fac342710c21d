//! What a machine needs of a linked program besides the code of its threads: what is there as the program begins, and
//! the lines that are written for what happens.
#![tactic(auto)]

mod ends;
mod lines;
mod made;
mod objects;
mod start;

pub use ends::{died_line, limit_line, limit_word};
pub use lines::line_bytes;
pub use linker::World;
pub use made::MadeLines;
pub use start::opening;
