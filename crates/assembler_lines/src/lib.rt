//! Lines of an assembler's text.
//!
//! A line is words, and the words say what the line is: one outside code, an instruction of the table of
//! instructions with its operands, or a stack map frame.
#![tactic(auto)]

mod frame;
mod frames;
mod front;
mod laws;
mod line;
mod operands;
mod operation;
mod piece;
mod read;
mod switches;
mod word;
mod words;

pub use frame::FrameItem;
pub use laws::{line_has_one_list_of_words, plain_words_have_their_characters};
pub use line::{FieldValue, Line, Room};
pub use operation::{LabelledCase, Loaded, Operands, Operation};
pub use read::line_of;
pub use word::{LineRefusal, Word};
