//! The state of an ordinary machine, over any thread code: what threads share, and where each thread is.
//!
//! A [`MachineState`] holds the tables of `machine_tables`, the printed lines, and two counts. `specs/Machine.antt` says what
//! these mean together: an ordinary state of `op_core`, with three counts beside it. No call here makes the step of an
//! operation: the state is asked what an operation may do now, or it is changed in one part.
#![tactic(auto)]

mod change;
mod questions;
mod start;
mod state;

pub use state::MachineState;
