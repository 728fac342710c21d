//! Tests of steps on a shared table, each made by its own call of a port, and of the words that are left on it.
#![tactic(auto)]

#[cfg(test)]
mod beside;
#[cfg(test)]
mod left;
#[cfg(test)]
mod starting;
