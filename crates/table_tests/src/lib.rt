//! Tests of threads on a shared table, over public calls.
#![tactic(auto)]

#[cfg(test)]
mod tables;
#[cfg(test)]
mod turns;
