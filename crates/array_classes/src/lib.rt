//! The array classes of a linked program (JVMS SE 8, 4.3.2, 4.4.1, 6.5).
#![tactic(auto)]

mod arrays;
mod classes;

pub use classes::ArrayClasses;
