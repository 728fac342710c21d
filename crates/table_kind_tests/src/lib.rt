//! A test that threads make steps of each kind on a shared table.
#![tactic(auto)]

#[cfg(test)]
mod kinds;
