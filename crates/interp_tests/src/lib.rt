//! Tests of the frames of a thread and of the instructions that need no operation, over their public calls.
#![tactic(auto)]

#[cfg(test)]
mod execution;
#[cfg(test)]
mod frames;
#[cfg(test)]
mod setting;
