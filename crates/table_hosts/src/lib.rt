//! Threads with their seats on a shared table, and the turns that host threads give them at once.
#![tactic(auto)]

mod beginning;
mod seated;
mod slices;
mod stopping;
mod tally;
mod turning;

pub use beginning::begin;
pub use seated::SeatedThread;
pub use slices::{Slice, run_both, run_slice, try_thread};
pub use stopping::{load_stop, set_stop};
pub use tally::{Pace, Tally};
