//! Tests of the thread code of Java, over its public calls.
#![tactic(auto)]

#[cfg(test)]
mod setting;
#[cfg(test)]
mod threads;
