//! Tests of the check of journals over public calls.
#![tactic(auto)]

#[cfg(test)]
mod checks;
#[cfg(test)]
mod setting;
