//! Laws of what the program answers. Each function does nothing: its contract is the law.
#![tactic(auto)]

mod laws;

pub use laws::{requests_have_one_answer, traces_are_accepted};
