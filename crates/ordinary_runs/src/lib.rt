//! Runs of the ordinary machine that follow a schedule, over any thread code.
//!
//! [`run_picks`] gives the machine's threads turns as a `Schedule` says until the run ends, and answers its
//! `Outcome`. A turn is one call of `advance`; it counts where the thread made a step, silent or not.
//! `specs/Turns.antt` says what a turn comes to, and `specs/ScheduledRun.antt` what an outcome is, by the runs
//! that `schedules` defines over anything that gives turns. [`laws`] says what follows: a run has one outcome,
//! and it is that of an execution, whose events it keeps where they are asked for. Such a run ends at the latest after
//! [`MOST_EVENTS`] events.
#![tactic(auto)]

mod counts;
pub mod laws;
mod made;
mod run;
mod turns;

pub use made::made_texts;
pub use run::run_picks;
pub use turns::MOST_EVENTS;
