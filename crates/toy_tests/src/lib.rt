//! Tests of the thread codes with which machines are tested, over their public calls.
#![tactic(auto)]

#[cfg(test)]
mod scripts;
