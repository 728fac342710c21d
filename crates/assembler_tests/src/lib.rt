//! Tests of the assembler's libraries over their public calls.
#![tactic(auto)]

#[cfg(test)]
mod bodies;
#[cfg(test)]
mod lines;
#[cfg(test)]
mod pools;
#[cfg(test)]
mod texts;
