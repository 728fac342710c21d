//! The 64-bit words that threads share: what each says, and where each lies in one table.
//!
//! The table has six areas ([`Area`]): the control words, most of which count what was drawn or taken; a word for each
//! section; a word and a wait word for each thread; a word for each class; and the places of the objects. An object at the
//! reference r has its header at place r of the last area, its monitor's word at r + 1, and its own words from r + 2
//! on.
//!
//! No call here takes memory.
#![tactic(auto)]

mod areas;
pub mod laws;
mod words;

pub use areas::{Area, Areas, control};
pub use words::{ClassWord, Header, HeapWord, Tag, WaitWord, class_state, class_thread, notified};
