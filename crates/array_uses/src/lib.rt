//! The array classes that a program uses (JVMS SE 8, 4.4.1, 6.5).
#![tactic(auto)]

mod most;
mod uses;

pub use uses::most_dimensions;
