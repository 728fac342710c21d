//! A program that is executed on shared words, with sections that are revoked and undone.
//!
//! [`run_words`] gives the threads of an accepted program turns as a schedule says. `specs/WordRun.antt` says what comes of it: the
//! turns are those that the schedule has, and what is left of them, once the levels that are revoked are left out, is an execution of
//! the program that prints the same lines. [`run_traced_words`] does the same and keeps the journal of what is left
//! (`specs/TracedRun.antt`). [`run_on_hosts`] has several host threads give them turns at once, in whatever order comes
//! (`specs/HostedRun.antt`).
#![tactic(auto)]

mod hosting;
mod laws;
mod run;
mod traced;

pub use hosting::run_on_hosts;
pub use laws::{traced_runs_have_one_outcome, word_runs_have_one_outcome};
pub use run::run_words;
pub use traced::run_traced_words;
