//! Numbers in decimal digits: `0`, or digits without a leading zero, maybe with a sign.
#![tactic(auto)]

mod number;

pub use number::{integer_up_to, number_up_to};
