//! Threads and the words that they share, in memory, and the turns of these threads.
//!
//! `word_runs` defines what a turn of threads on shared words comes to, over functions. A [`WordMachine`] is such threads and words
//! in memory: `specs/Machine.antt` says of which core it is, and each call says what it does to that core.
#![tactic(auto)]

mod enabled;
mod machine;
mod resuming;
mod seats;
mod silent;
mod threads;
mod told_turn;
mod turning;
mod usual;

pub use machine::WordMachine;
pub use told_turn::ToldTurn;
