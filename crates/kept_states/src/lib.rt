//! If each step of a thread code keeps a property, then it holds in each state of each execution, and after each act of
//! each list in which undoing is seen. For any thread code; laws alone.
//!
//! `specs/Kept.antt` says what has to be closed and what is kept. That it is kept (`ListsKeep`, `ExecutionsKeep`) ranges over all
//! properties of local states, words and objects, so no contract can say it: it is proved as lemmas in `proofs/ListsKept.antt`, which the
//! crates above cite.
#![tactic(auto)]
