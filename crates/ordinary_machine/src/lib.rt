//! The ordinary machine, over any thread code: the definition of an execution made to run, one step at
//! a time.
//!
//! An [`Ordinary`] holds what threads share and where each thread is, as a `MachineState` of `machine_state`.
//! [`Ordinary::step`] makes the step of one event of a journal, or says why the event isn't a step;
//! [`Ordinary::replay`] makes those of a list. [`Ordinary::advance`] makes a thread's next step of its own accord,
//! [`Ordinary::make_headway`] the same one with no event of it, and [`Ordinary::run_silent`] silent steps alone, many
//! in one call. [`laws`] says what follows: at most one thing comes of an event, `advance` has one answer, what it
//! answers is an execution, and each execution is replayed.
#![tactic(auto)]

mod advance;
pub mod laws;
mod operations;
mod ordinary;
mod replay;
mod step;

pub use advance::{Advance, Headway};
pub use ordinary::Ordinary;
pub use replay::ReplayRefusal;
pub use step::StepRefusal;
