//! Tests of programs that are executed by the top call, over folders and streams in memory.
#![tactic(auto)]

#[cfg(test)]
mod executing;
#[cfg(test)]
mod picking;
#[cfg(test)]
mod tracing;
