//! Where the threads of a scheduled run are, over any thread code. Laws alone.
#![tactic(auto)]

mod laws;

pub use laws::{orderly_runs_end_stuck, runs_stand_where_they_can};
