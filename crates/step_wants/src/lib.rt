//! What an instruction wants of the words on top of the stack (JVMS SE 8, 4.10.1.9), as values that take no memory.
//!
//! [`wants_of`] returns what an instruction wants, and a [`WantedWords`] gives it want by want. What a [`Want`] says of
//! a word is [`want_verdict`]. What the rules see of a method is asked through [`MethodWorld`].
#![tactic(auto)]

mod listed;
mod table;
mod verdict;
mod want;
mod world;

pub use listed::{FewWants, WantedWords};
pub use table::wants_of;
pub use verdict::{right_if, type_made, want_verdict};
pub use want::Want;
pub use world::MethodWorld;
