//! What holds of the numbers that instructions compute. Laws alone.
//!
//! It is a part of `Accepted` of `row_soundness`.
#![tactic(auto)]

mod laws;

pub use laws::numbers_fit;
