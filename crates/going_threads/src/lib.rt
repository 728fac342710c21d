//! The threads of a program that were given turns on host threads, as they are handed over once these turns are over.
#![tactic(auto)]

mod going;

pub use going::Going;
