//! Many turns of one thread in one call, where what they find is usual.
#![tactic(auto)]

mod host;
mod maker;
mod own;
mod paths;
mod run;
mod sight;

pub use run::run_usual;
pub use sight::WordSight;
