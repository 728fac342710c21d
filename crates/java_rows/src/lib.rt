//! What the threads of a Java program do (JVMS SE 8, 2.6, 2.11, 5.5, 6.5), as definitions over the decoded classes of
//! a linked program.
//!
//! A crate of definitions: `specs/Plan.antt` has what is left of an instruction, as a tree of operations and replies;
//! `LocalRows` the instructions that need no operation, over the numbers of `Numbers`; `Objects`, `Calls`, `Throws`,
//! `Natives`, `Texts` and `Initialization` the others; `Rows` has one row an instruction, `Thread` how a thread goes on from row
//! to row, and `Start` what is there as a program begins. Words have no kinds: an int is its signed reading, a
//! reference is itself, a long is two words.
#![tactic(auto)]

pub mod laws;
