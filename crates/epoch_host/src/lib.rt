//! Runs on several host threads, by epochs: in each epoch the threads of a program are cut into chunks, and one host thread works on
//! each chunk.
#![tactic(auto)]

mod alone;
mod chunks;
mod epoch;
mod hosts;
mod met;
mod order;
mod push;
mod work;
mod worked;

pub use hosts::{HostRun, run_hosts};
