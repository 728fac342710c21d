//! Tests of the rows of a journal, over public calls.
#![tactic(auto)]

#[cfg(test)]
mod runs;
