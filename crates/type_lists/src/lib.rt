//! Lists of verification types that share their parts.
#![tactic(auto)]

mod compare;
mod differ;
mod find;
mod known;
mod laws;
mod marks;
mod parts;
mod replace;
mod set;
mod store;

pub use laws::{locals_are_words, stacks_are_words};
pub use store::{WordStore, Words};
