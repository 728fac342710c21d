//! The texts of printed lines that a program made, read from the words of a run.
//!
//! At the end of a run threads may still have words to put back. A text is then read as it will be once each thread has put back
//! what it has to.
#![tactic(auto)]

mod back;
mod made;
mod named;
mod old_words;
mod units;

pub use made::made_texts;
