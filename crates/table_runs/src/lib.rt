//! Programs whose threads can go on after each run on a shared table. A lemma alone: no contract can range over all properties of
//! states.
#![tactic(auto)]
