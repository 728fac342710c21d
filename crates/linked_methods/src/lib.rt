//! The methods of a linked program as the type checker asks them (JVMS SE 8, 4.10.1.1): a [`LinkedMethod`] is what the
//! rules see of a method with code.
#![tactic(auto)]

mod asked;
mod classes;
mod entry;
mod laws;
mod made;
mod method;
mod named;
mod pool;
mod words;

pub use classes::LinkedClasses;
pub use linker::{World, link};
pub use method::LinkedMethod;
