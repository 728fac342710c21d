//! What a thread makes ready before a step, and how the answer changes it.
#![tactic(auto)]

mod absorbing;
mod apply;

pub use absorbing::{absorb, prepare};
