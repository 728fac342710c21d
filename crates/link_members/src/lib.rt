//! The rules of the members that the class files of a program declare (JVMS SE 8, 4.5, 4.6, 5.4.5).
#![tactic(auto)]

mod implementations;
mod members;

pub use implementations::{Asked, is_answered, methods_have_numbers};
pub use members::check_members;
