//! Threads on shared words that follow a schedule, or go on where they left their host threads, up to the outcome of the run.
//!
//! [`run_schedule`] gives turns as a `Schedule` says until the run ends, and [`go_on`] by no schedule, where threads have left their
//! host threads. `word_runs` defines what a turn comes to, `schedules` whose turn is next and how a run ends, and
//! `specs/Outcome.antt` what the outcome says of it.
#![tactic(auto)]

mod ends;
mod going_on;
mod laws;
mod lines;
mod outcomes;
mod run;
mod schedule_run;
mod word_outcome;
mod word_run;

pub use ends::{ends_of, how_it_ends};
pub use going_on::go_on;
pub use laws::turns_go_on_as_acts;
pub use lines::lines_of;
pub use run::{how_at, list_enabled, one_more};
pub use schedule_run::run_schedule;
pub use word_outcome::WordOutcome;
pub(crate) use word_run::WordRun;
