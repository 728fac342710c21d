//! What StringBuilder's append and toString do to texts, where no other thread writes. Laws alone.
#![tactic(auto)]

mod laws;

pub use laws::{appends_add, appends_join, builders_tell};
