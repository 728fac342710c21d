//! The types that the names and the descriptors in class files stand for (JVMS SE 8, 4.3, 4.4.1), with classes by their
//! numbers.
#![tactic(auto)]

mod descriptors;
mod others;
mod pool_names;
mod types;

pub use types::NamedTypes;
