//! Programs for tests of a shared table, and how they begin on it.
#![tactic(auto)]

mod beginning;
mod program;

pub use beginning::{MANY, begin_kinds, begin_program, only};
pub use program::{KIND_STEPS, LIMITS, STEPS, WAITING_STEPS, opening};
