//! The rules of what instructions and handlers of class files name (JVMS SE 8, 5.4.3, 5.4.4, 6.5).
#![tactic(auto)]

mod checks;
mod classes;
mod file;
mod members;
mod uses;

pub use uses::check_uses;
