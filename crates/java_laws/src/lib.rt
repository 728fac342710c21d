//! What holds of the rows of Java in linked programs, and of their beginnings. Laws alone.
//!
//! Each function does nothing: its contract is the law.
#![tactic(auto)]

mod laws;

pub use laws::{openings_have_place, openings_lie_below_first, openings_start_main};
