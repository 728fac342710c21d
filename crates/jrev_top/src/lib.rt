//! The top call of `jrev`: everything between the words of the command line and the exit status. [`jrev`] reads what the words
//! name and writes the answer.
#![tactic(auto)]

mod deciding;
mod run;
mod telling;

pub use command_words::{Request, WordsRefusal, words_of};
pub use program_answers::{Status, say};
pub use run::jrev;
