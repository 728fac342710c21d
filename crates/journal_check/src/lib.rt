//! The check of a journal: each event has to be the next step of the ordinary machine.
//!
//! [`Checking`] reads the text piece by piece and makes the steps of its events, over any thread code. `specs/Checked.antt`
//! says what a text comes to.
#![tactic(auto)]

mod checking;
pub mod laws;
mod progress;

pub use checking::Checking;
