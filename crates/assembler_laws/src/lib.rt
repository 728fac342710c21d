//! What an assembler's text says of the class file that is read of it (JVMS SE 8, chapter 4).
//!
//! Written instructions and frames are read in one way alone (`written_code`); so a body that is made of lines has their
//! instructions, handlers and frames to its reader (`body_meaning`), and a class file that of its text (`class_meaning`).
#![tactic(auto)]

mod body_meaning;
mod class_meaning;
mod written_code;

pub use body_meaning::bodies_are_read_again;
pub use class_meaning::{made_bodies_are_decoded_again, made_classes_are_read_again};
pub use written_code::{only_written_code_is_read, only_written_frames_are_read};
