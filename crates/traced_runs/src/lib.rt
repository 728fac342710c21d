//! Threads on shared words that follow a schedule and keep a journal, from their first words to the outcome of the run.
//!
//! [`run_traced`] gives turns as `run_schedule` of `sched_core` does, one at a time, and each turn tells the rows of a journal what
//! it shows of its thread. `specs/Told.antt` says what the acts of a run tell, and `specs/Outcome.antt` what comes of the run.
#![tactic(auto)]

mod ending;
pub mod laws;
mod next_thread;
mod outcome;
mod run;
mod telling;
mod traced_run;

pub use outcome::TracedOutcome;
pub use run::run_traced;
pub(crate) use traced_run::TracedRun;
