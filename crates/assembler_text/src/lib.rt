//! The lines of an assembler's text, with their numbers.
#![tactic(auto)]

mod laws;
mod lines;

pub use laws::{bytes_are_one_line, text_has_one_list_of_lines};
pub use lines::{MOST_BYTES, Numbered, TextLines, lines_of};
