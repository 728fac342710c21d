//! Tests of `pick` and `trace` where a thread of higher priority takes a monitor back from a thread of lower priority, and of `run`.
#![tactic(auto)]

#[cfg(test)]
mod ending;
#[cfg(test)]
mod hosting;
#[cfg(test)]
mod lines;
#[cfg(test)]
mod nesting;
#[cfg(test)]
mod programs;
#[cfg(test)]
mod revoking;
#[cfg(test)]
mod threads;
#[cfg(test)]
mod tracing;
