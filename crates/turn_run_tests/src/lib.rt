//! Tests of many turns of one thread, over public calls.
#![tactic(auto)]

#[cfg(test)]
mod answering;
#[cfg(test)]
mod cases;
#[cfg(test)]
mod plain;
