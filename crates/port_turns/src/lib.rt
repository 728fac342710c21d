//! Many turns of one thread in one call, on words that other threads may change meanwhile.
#![tactic(auto)]

mod host;
mod maker;
mod own;
mod run;
mod steps;

pub use run::run_plain;
