//! The journal of an execution: events and undos as lines of text, and back.
#![tactic(auto)]

mod cut;
mod head;
mod item;
mod journal;
pub mod laws;
mod lines;
mod newest;
mod parse;
mod place;
mod reader;
mod spell;
mod state;
mod writing;

pub use item::{Journal, JournalFault, JournalItem, JournalLimits, JournalRefusal, LARGEST};
pub use journal::read_journal;
pub use newest::as_newest;
pub use parse::item_in;
pub use place::JournalLines;
pub use spell::{push_end, push_head, push_item};
pub use state::JournalReader;
pub use writing::write_journal;
