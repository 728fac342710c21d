//! What the tests of the ordinary machine begin with.
#![tactic(auto)]

mod setting;

pub use setting::{HAND_OVER, ample, machine, opening};
