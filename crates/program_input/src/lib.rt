//! What the program reads: the class files of a folder, and the text on the standard input.
#![tactic(auto)]

mod feeding;
mod folder;
mod input;

pub use feeding::{Feed, feed_up_to};
pub use folder::{class_names, read_files};
pub use input::read_up_to;
