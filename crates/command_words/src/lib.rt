//! The words of the command line: which commands there are, with which options, and what they ask for.
//!
//! The grammar is `specs/Grammar.antt`: a command, its positional words, and then its options, each at most once, in any
//! order.
#![tactic(auto)]

mod cut;
mod given;
mod options;
mod order;
mod request;
mod values;
mod words;

pub use request::Request;
pub use words::{WordsRefusal, words_of};
