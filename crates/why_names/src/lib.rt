//! Printing what a class file names: classes, members and instructions, and of a class that is not there what the files use of it
//! and what is built in.
#![tactic(auto)]

mod library;
mod naming;

pub use library::show_linked;
pub use naming::{show_file_class, show_instruction, show_method};
use std::io::{self, ErrorKind};

/// There is no memory.
pub fn no_memory() -> io::Error {
    io::Error::from(ErrorKind::OutOfMemory)
}
