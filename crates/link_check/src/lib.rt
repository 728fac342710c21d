//! The rules of linking over the class files of a program (JVMS SE 8, 5.3 to 5.5).
#![tactic(auto)]

mod checks;

pub use checks::linked_lookup;
