//! Tests of the generated load over public calls.
#![tactic(auto)]

#[cfg(test)]
mod classes;
