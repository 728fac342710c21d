//! Class files written by their layout (JVMS SE 8, chapter 4).
//!
//! [`write_class`] gives the bytes of a class, and [`write_code`] those of the content of a Code attribute. What
//! is written is what `class_walk` reads again.
#![tactic(auto)]

mod class;
mod code;
mod laws;
mod members;
mod numbers;
mod pool;

pub use class::write_class;
pub use code::write_code;
pub use laws::{
    classes_can_be_written, read_classes_can_be_written, written_class_is_read,
    written_code_is_read,
};
