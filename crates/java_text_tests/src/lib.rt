//! Tests of what the thread code of Java does with texts, over its public calls.
#![tactic(auto)]

#[cfg(test)]
mod setting;
#[cfg(test)]
mod texts;
